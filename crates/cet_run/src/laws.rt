//! Laws of the schedules.

ghost use Rattle.std.specs.Prelude.{ℕ, ◌≡◌, List, None};
ghost use Rattle.cet_words.specs.Job.{JobData};
ghost use Rattle.cet_page.specs.Machine.{Machine, run};
ghost use Rattle.cet_run.specs.Schedule.{IsComplete, IsFull, IsMix, IsRobin};

/// After a run by Robin, by given turns and then Robin, or by the numbers of Mix, every thread has ended.
pub fn schedules_are_complete()
    ensures robin { (job : JobData) (m : Machine) (turns : List ℕ) →
        IsRobin job m None turns → IsComplete (run job m turns) }
    ensures full { (job : JobData) (m : Machine) (given turns : List ℕ) →
        IsFull job m given turns → IsComplete (run job m turns) }
    ensures mix { (job : JobData) (m : Machine) (x : ℕ) (turns : List ℕ) →
        IsMix job m x turns → IsComplete (run job m turns) }
{}

/// Each of these schedules is one list of turns.
pub fn schedules_are_one()
    ensures robin { (job : JobData) (m : Machine) (turns others : List ℕ) →
        IsRobin job m None turns → IsRobin job m None others → turns ≡ others }
    ensures full { (job : JobData) (m : Machine) (given turns others : List ℕ) →
        IsFull job m given turns → IsFull job m given others → turns ≡ others }
    ensures mix { (job : JobData) (m : Machine) (x : ℕ) (turns others : List ℕ) →
        IsMix job m x turns → IsMix job m x others → turns ≡ others }
{}
