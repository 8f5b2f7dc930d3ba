//! What the kernel keeps for a signal, and where a signal's frame goes.

/// The action of a signal (Linux, struct sigaction).
#[derive(Clone, Copy, Debug, PartialEq, Eq)]
pub struct Action {
    /// The address of the handler; 0 is the default and 1 stands for none.
    pub handler: u64,
    pub flags: u64,
    /// The address to which the handler returns.
    pub restorer: u64,
    /// The signals that the handler masks; bit s - 1 is signal s.
    pub mask: u64,
}

/// The words to which a delivery stores.
#[derive(Clone, Copy, Debug, PartialEq, Eq)]
pub struct FramePlaces {
    /// The first of the frame's words on the program stack.
    pub frame: u32,
    /// The frame's word on the shadow stack.
    pub marker: u32,
    /// The restorer's word, below it.
    pub restorer: u32,
}
