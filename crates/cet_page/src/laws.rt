//! What instructions and the kernel's work are in the row of a thread, and what no access changes.

ghost use Rattle.cet_page.specs.Numbered.{AccessesRunOut, NumbersStay};
ghost use Rattle.cet_page.specs.PartsOfRow.{PartsOfRow};

/// After the accesses between instructions, the row of a thread is what its instruction's part says, of
/// whatever family; and after the way into the kernel, it is the kernel's work and the way out.
pub fn parts_are_in_their_rows()
    ensures { PartsOfRow }
{}

/// A thread keeps its number over each of its accesses and over each turn of any thread, and no turn
/// takes a thread away.
pub fn numbers_stay()
    ensures { NumbersStay }
{}

/// Each access of a thread lowers the number of those that it may still make. The number is above 0
/// exactly where the thread hasn't ended, and has a bound that the job alone sets.
pub fn accesses_run_out()
    ensures { AccessesRunOut }
{}
