//! Sections, the location counter, and the values of symbols.

ghost use Rattle.std.specs.Prelude.{◌≡◌};

/// A part of a program.
#[derive(Clone, Copy)]
pub enum Section {
    Text,
    Data,
}

/// The value of a symbol: so many bytes after the start of a section.
#[derive(Clone, Copy)]
pub(crate) struct SymbolValue {
    pub section: Section,
    pub offset: u64,
}

/// The location counter, where the next bytes stand: the section, and how many bytes each of the two has so far.
#[derive(Clone, Copy)]
pub(crate) struct LocationCounter {
    pub section: Section,
    pub text: u64,
    pub static_data: u64,
}
