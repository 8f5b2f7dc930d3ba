//! Laws over every run of every job.

ghost use Rattle.std.specs.Prelude.{◌≡◌, ℕ, List, Some};
ghost use Rattle.cet_words.specs.Job.{JobData, IsJob};
ghost use Rattle.cet_book.specs.Book.{Book, first_book};
ghost use Rattle.cet_page.specs.Machine.{Machine, Starts, run};
ghost use Rattle.cet_page.specs.Numbered.{BirthsAreTold, ClosedAreAll, CountsLow, DrawsRight, Named, Numbered};
ghost use Rattle.cet_own.specs.Along.{Along};
ghost use Rattle.cet_own.specs.Covered.{AllEnded, LastCovered};
ghost use Rattle.cet_own.specs.Event.{book_of};
ghost use Rattle.cet_own.specs.ExitWord.{EndsRight};
ghost use Rattle.cet_own.specs.Gates.{GatesExactly, RestoresExactly, TurnTells};
ghost use Rattle.cet_own.specs.Safe.{Safe};
ghost use Rattle.cet_own.specs.Keeps.{TurnStands};
ghost use Rattle.cet_own.specs.Stands.{Stands};
ghost use Rattle.cet_own.specs.Switched.{Legal, Raises, Switched};

/// In every run of every job, whatever thread has which turn: no shadow stack is current on two
/// threads and no supervisor stack is held by two, every change of a stack is one that the book of
/// shadow stacks has, and every near return goes where the newest open call was to return, or faults,
/// or goes to an address with no executable page.
pub fn every_run_is_safe()
    ensures { (job : JobData) (start : Machine) (turns : List ℕ) → IsJob job → Starts job start → Safe job start first_book turns }
{}

/// At each moment of every run of every job the ownership invariant holds of the words, the threads
/// and the book; and no record tells of a restore token that didn't stand, or of one missed that did.
pub fn every_run_stands()
    ensures { (job : JobData) (start : Machine) (turns : List ℕ) → IsJob job → Starts job start → Along (Stands job) (TurnTells job) job start first_book turns }
{}

/// The ownership invariant is inductive: in any machine of which, with a book, it holds, a turn of whatever
/// thread keeps it, with the book that has the turn's changes.
pub fn every_turn_stands()
    ensures { (job : JobData) (m : Machine) (b : Book) (t : ℕ) → IsJob job → Stands job m b → TurnStands job m b t }
{}

/// In every run of every job, an RSTORSSP whose look has passed takes a shadow stack exactly where the book
/// has a parked one with its token at the operand, and is otherwise `#CP` with code 4 and the word found.
pub fn every_restore_is_exact()
    ensures { (job : JobData) (start : Machine) (turns : List ℕ) → IsJob job → Starts job start → RestoresExactly job start first_book turns }
{}

/// In every run of every job, the first exchange of an entry into the kernel takes the supervisor stack of
/// the thread's processor exactly where the book has it free, and otherwise a busy record stands with the
/// word found; and the way out always finds the kernel's return address below the token, and the token busy.
pub fn every_gate_is_exact()
    ensures { (job : JobData) (start : Machine) (turns : List ℕ) → IsJob job → Starts job start → GatesExactly job start first_book turns }
{}

/// After every run of every job, whatever thread had which turn, the word EXIT is 0, 256 and an exit
/// status below 256, or 512 and a signal from 1 to 31.
pub fn every_run_ends_right()
    ensures { (job : JobData) (start : Machine) (turns : List ℕ) → IsJob job → Starts job start → EndsRight (run job start turns) }
{}

/// In every run of every job, and so in each part of one from the start, every change of a shadow stack
/// or of a supervisor stack's holder is one that the book of shadow stacks has.
pub fn every_run_is_legal()
    ensures { (job : JobData) (start : Machine) (turns : List ℕ) → IsJob job → Starts job start → Legal job start turns }
{}

/// In every run of every job: where a thread takes a restore token, and its next change of a stack is that
/// it parks the one that it came from, then that one keeps its list in between, whatever other threads
/// do, and afterwards it and the thread's new one have the lists that they had before.
pub fn every_run_switches()
    ensures { (job : JobData) (start : Machine) (turns : List ℕ) → IsJob job → Starts job start → Switched job start turns }
{}

/// In every run of every job: where a thread changes stacks by INCSSP alone, its own loses exactly as
/// many of its newest entries as the counts add up to.
pub fn every_run_raises()
    ensures { (job : JobData) (start : Machine) (turns : List ℕ) → IsJob job → Starts job start → Raises job start turns }
{}

/// After every run of every job the ownership invariant holds of the words and the threads and of that book
/// to which the run's events lead, one after another.
pub fn every_last_book_stands()
    ensures { (job : JobData) (start : Machine) (turns : List ℕ) → IsJob job → Starts job start → (b : Book) → book_of job start turns ≡ Some b → Stands job (run job start turns) b }
{}

/// What every run leaves in which every thread has ended meets the conditions under which words tell a book:
/// they are in step with its last book, and the stacks that its records tell of, with the pointers of the
/// threads that keep theirs, are regions of that book, none twice, with all that are current, parked or left.
pub fn every_run_is_covered()
    ensures { (job : JobData) (start : Machine) (turns : List ℕ) → IsJob job → Starts job start → AllEnded (run job start turns).threads → LastCovered job start turns }
{}

/// After every run of every job the thread at each place of the list has that number, and there are as
/// many threads as the word NEXT_THREAD says, or 32 where it says more. Each is a thread of the job.
pub fn every_run_is_numbered()
    ensures { (job : JobData) (start : Machine) (turns : List ℕ) → IsJob job → Starts job start → Numbered job (run job start turns) }
{}

/// After every run of every job, the access that a thread waits for draws the number of a thread by a
/// fetch-and-add of 1, and bears that thread exactly where the number is below 32; or it leaves the word
/// NEXT_THREAD as it was, and bears nobody.
pub fn every_run_draws_numbers()
    ensures { (job : JobData) (start : Machine) (turns : List ℕ) → IsJob job → Starts job start → DrawsRight job (run job start turns) }
{}

/// An access adds to what its thread tells of exactly the thread that it bears, if there is one: by the
/// `born` record that comes with it, or by that of the row, which isn't done.
pub fn births_are_told()
    ensures { BirthsAreTold }
{}

/// After every run of every job, each thread but the first is told of by a thread with a lower number, and
/// by that one alone: a `born` record of it names it, or its present row has borne it and isn't done, and
/// then it hasn't ended. And whatever thread is told of so is there, and has a higher number.
pub fn every_run_is_named()
    ensures { (job : JobData) (start : Machine) (turns : List ℕ) → IsJob job → Starts job start → Named job (run job start turns).threads }
{}

/// After every run of every job, ended threads among which are thread 0 and all that their `born` records
/// name are all threads that there are.
pub fn every_run_is_reached()
    ensures { (job : JobData) (start : Machine) (turns : List ℕ) → IsJob job → Starts job start → ClosedAreAll (run job start turns).threads }
{}

/// After every run of every job the words NEXT_THREAD and DRAW_SHADOW are far below 2 ^ 64, so no
/// fetch-and-add on one of them wraps.
pub fn every_run_counts_low()
    ensures { (job : JobData) (start : Machine) (turns : List ℕ) → IsJob job → Starts job start → CountsLow (run job start turns).words }
{}
