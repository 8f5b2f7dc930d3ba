//! Laws of the grammar of the words.

ghost use Rattle.std.specs.Prelude.{ℕ, ◌≡◌, true, List};
ghost use Rattle.cet_cli.specs.EveryCommand.{MeansTexts, StopsByForm, StopsByValue, every_command};
ghost use Rattle.cet_cli.specs.GoodTable.{good_table};
ghost use Rattle.cet_cli.specs.Grammar.{CommandRow};
ghost use Rattle.cet_cli.specs.Reader.{IsReadBy};
ghost use Rattle.cet_cli.specs.Words.{commands};

/// The reader of a table takes exactly its lines, and stops at the first faulty word of each other list of words, if the
/// table passes a test of its rows. The table of today's commands does, and so does one of all commands that are planned.
pub fn tables_are_read()
    ensures any { (table : List (CommandRow (List ℕ) (List ℕ))) → good_table table ≡ true → IsReadBy table }
    ensures offered { IsReadBy commands }
    ensures planned { IsReadBy every_command }
    ensures by_form { StopsByForm }
    ensures by_value { StopsByValue }
    ensures texts { MeansTexts }
{}
