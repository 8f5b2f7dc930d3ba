//! What is on a shadow stack, and who has it.

/// An entry of a shadow stack.
#[derive(Clone, Copy, Debug, PartialEq, Eq)]
pub enum Entry {
    /// The address that a call is to return to.
    Call(u64),
    /// The address that a signal's handler is to return to.
    Restorer(u64),
    /// A signal's frame.
    Frame,
    /// The region that was left for this one, by its number.
    Previous(u32),
    /// A word 0 above a restore token.
    Blank,
}

/// The one holder of a shadow stack.
#[derive(Clone, Copy, Debug, PartialEq, Eq)]
pub enum Holder {
    /// The thread that is making it.
    Maker(u8),
    /// The thread that is on it.
    Current(u8),
    /// No thread: it has a restore token.
    Parked,
    /// It was left for the region of this number.
    Left(u32),
    /// No thread, and none comes back to it.
    Lost,
}
