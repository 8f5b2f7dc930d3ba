//! The words of a command.

ghost use Rattle.std.specs.Prelude.{◌≡◌, ℕ, List, [], ◌∷◌, map, string_bytes, IfOk, MatchResult};
ghost use Rattle.cet_cli.specs.Faults.{HasCause};
ghost use Rattle.cet_cli.specs.Grammar.{FaultyWord, Given, IsAmong, IsLine};
ghost use Rattle.cet_cli.specs.Table.{command_view};
ghost use Rattle.cet_cli.specs.Words.{HasNumber, IsCommand, Means, choices_of, command_of, commands, swaps_of};
ghost use Rattle.cet_cli.specs.declared.options.OptionName.{OptionName};

use crate::grammar::{CommandRow, find_command};
use crate::limits::MOST_SWAPS;
use crate::options::{Choices, Plan, Settings};
use crate::reader::Reader;
use crate::values::number_within;
use cet_words::NoMemory;
use std::alloc::Global;

/// A command with its options.
#[derive(Debug, Drop)]
pub enum Command {
    /// `run`: runs the image that the source gives, and reports.
    Run(Settings),
    /// `replay`: the same, with the turns of a schedule or of a number.
    Replay(Settings, Plan),
    /// `dis`: lists the code of the image that the source gives.
    Dis,
    /// `asm`: assembles the text that the source gives, with the runtime behind it or without.
    Asm { runtime: bool },
    /// `check`: tells that the image that the source gives is accepted.
    Check,
    /// `bench`: runs a program that swaps contexts so many times, 1 to 1,000, and tells how many records that made.
    Bench(u32),
    /// `smp`: runs the image that the source gives on so many workers, 1 to 16, and reports.
    Smp(Settings, u32),
}

/// Why words are read as no command.
#[derive(Clone, Copy, Debug, PartialEq, Eq)]
pub enum CliFault {
    /// They are none. The first faulty word, counted from 1, or the number after the last one where more words are
    /// missing.
    Usage(u32),
    /// They are one, and no memory was left for its settings.
    NoMemory,
}

/// A command without its options.
#[derive(Clone, Copy, Debug)]
pub(crate) enum CommandName {
    Run,
    Replay,
    Dis,
    Asm,
    Check,
    Bench,
    Smp,
}

/// The number of swaps that a text is.
fn swaps_in(text: &str) -> u32
    ensures { result ≡ swaps_of (text.now ∷ []) }
{
    match number_within(text, 1, MOST_SWAPS.into()) {
        Some(swaps) => swaps as u32,
        None => 0,
    }
}

/// The number of swaps that the first of these words is.
fn swaps_of(words: &[String]) -> u32
    ensures { result ≡ swaps_of (map string_bytes words.now) }
{
    match words.first() {
        Some(word) => swaps_in(word.as_str()),
        None => 0,
    }
}

impl CommandName {
    /// The command of this name with the words behind its own, of which those without a name come first, and with what its
    /// options set.
    fn with(self, words: &[String], choices: Choices) -> Command
        ensures { result ≡ command_of self (map string_bytes words.now) choices }
    {
        match self {
            CommandName::Run => Command::Run(choices.settings),
            CommandName::Replay => Command::Replay(choices.settings, choices.plan),
            CommandName::Dis => Command::Dis,
            CommandName::Asm => Command::Asm {
                runtime: choices.runtime,
            },
            CommandName::Check => Command::Check,
            CommandName::Bench => Command::Bench(swaps_of(words)),
            CommandName::Smp => Command::Smp(choices.settings, choices.workers),
        }
    }
}

/// Checks the words behind a command's own. The error is the number of the first faulty word of all. It takes no memory.
fn check_line(row: CommandRow, words: &[String]) -> Result<(), u32>
    requires { IsAmong (command_view row) commands }
    ensures { MatchResult result (λ u. IsCommand (row.word.now ∷ map string_bytes words.now))
        (FaultyWord IsCommand (row.word.now ∷ map string_bytes words.now)) }
{
    let mut reader = Reader::new(row);
    'words: for at in 0..words.len() {
        match reader.step(words[at].as_str()) {
            Some(next) => reader = next,
            None => return Err(at as u32 + 2),
        }
    }
    if reader.may_end() {
        Ok(())
    } else {
        Err(words.len() as u32 + 2)
    }
}

/// What the options of a line set, in the order in which they stand.
fn choices_of(alloc: Global, row: CommandRow, words: &[String]) -> Result<Choices, NoMemory>
    requires { IsAmong (command_view row) commands }
    ensures { IfOk result (λ choices. (operands : List (List ℕ)) (given : List (Given OptionName)) →
        IsLine (command_view row) operands given (row.word.now ∷ map string_bytes words.now) →
        choices ≡ choices_of given) }
{
    let mut reader = Reader::new(row);
    let mut choices = Choices::defaults(alloc);
    'words: for at in 0..words.len() {
        let word = words[at].as_str();
        choices = choices.with_given(alloc, reader.given(word))?;
        match reader.step(word) {
            Some(next) => reader = next,
            // Each word of a line is taken.
            None => return Ok(choices),
        }
    }
    Ok(choices)
}

/// Reads the words behind a command's own. Only where none is faulty its settings are made, so that those which need
/// memory can't hide a faulty word.
fn read_line(alloc: Global, row: CommandRow, words: &[String]) -> Result<Command, CliFault>
    requires { IsAmong (command_view row) commands }
    ensures { MatchResult result (Means (row.word.now ∷ map string_bytes words.now))
        (HasCause IsCommand (row.word.now ∷ map string_bytes words.now)) }
{
    if let Err(number) = check_line(row, words) {
        return Err(CliFault::Usage(number));
    }
    match choices_of(alloc, row, words) {
        Ok(choices) => Ok(row.name.with(words, choices)),
        Err(NoMemory) => Err(CliFault::NoMemory),
    }
}

/// Reads the words of a command. A faulty word is found without memory.
pub fn read_words(alloc: Global, words: &[String]) -> Result<Command, CliFault>
    ensures means { MatchResult result (Means (map string_bytes words.now)) (HasCause IsCommand (map string_bytes words.now)) }
    ensures number { IfOk result HasNumber }
{
    let Some((first, rest)) = words.split_first() else {
        return Err(CliFault::Usage(1));
    };
    let Some(row) = find_command(first.as_str()) else {
        return Err(CliFault::Usage(1));
    };
    read_line(alloc, row, rest)
}
