//! What stands before a turn of a worker.

/// It is called before each turn of a worker. It sees no word and no pass, so it changes none.
pub trait Turnstile {
    /// Worker `worker` is about to give guest thread `thread` its turn.
    fn pass(&self, worker: u32, thread: u8);
}

/// The one that lets every turn pass.
pub struct Open;

impl Turnstile for Open {
    fn pass(&self, _worker: u32, _thread: u8) {}
}
