//! A law of what a command answers.

ghost use Rattle.std.specs.Prelude.{ℕ, ◌≡◌, false, List};
ghost use Rattle.cet_top.specs.Answer.{Answers};
ghost use Rattle.cet_top.specs.declared.status.Status.{Status};
ghost use Rattle.cet_cli.specs.Words.{is_threaded};
ghost use Rattle.cet_cli.specs.declared.words.Command.{Command};

/// A command that is no threaded run has one answer to the same bytes: one status, and one output.
pub fn answers_are_one()
    ensures { (command : Command) → is_threaded command ≡ false → (bytes : List ℕ) (s t : Status) (output other : List ℕ) →
        Answers command bytes s output → Answers command bytes t other → (s ≡ t) × (output ≡ other) }
{}
