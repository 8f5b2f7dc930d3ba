//! The rules that a line may break.

ghost use Rattle.std.specs.Prelude.{◌≡◌};

/// A rule that a line may break, in the order in which a line is tested, but for `NotUtf8`, which comes first.
#[derive(Clone, Copy, Debug, PartialEq, Eq)]
pub enum Rule {
    /// An unknown mnemonic.
    Mnemonic,
    /// A bad operand.
    Operand,
    /// A bad number.
    Number,
    /// A label that is defined nowhere.
    UnknownLabel,
    /// A label that is defined before.
    DefinedBefore,
    /// A label that a short jump doesn't reach.
    OutOfReach,
    /// An unknown directive.
    Directive,
    /// The program gets too long.
    TooLong,
    /// The line isn't UTF-8.
    NotUtf8,
}
