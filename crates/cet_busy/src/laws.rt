//! What the tokens tell of the holders of supervisor stacks.

ghost use Rattle.cet_busy.specs.Holders.{HeldStacks};

/// However the accesses of any number of threads are mixed: a free token and a holder never stand
/// together, and the word below the token of a stack stays from its holder's store until the holder reads
/// it.
pub fn a_held_stack_is_told()
    ensures { HeldStacks }
{}
