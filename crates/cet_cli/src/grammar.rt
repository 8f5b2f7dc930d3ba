//! The grammar of the words: the commands and their options.

ghost use Rattle.std.specs.Prelude.{◌≡◌, map, option_map};
ghost use Rattle.cet_cli.specs.Reader.{find_command, find_option};
ghost use Rattle.cet_cli.specs.Table.{command_view, option_view};
ghost use Rattle.cet_cli.specs.Words.{commands};

use crate::limits::{MOST_PROCS, MOST_RECORDS, MOST_SWAPS, MOST_WORKERS};
use crate::options::OptionName;
use crate::values::Value;
use crate::words::CommandName;

/// An option.
#[derive(Clone, Copy, Debug)]
pub(crate) struct OptionRow {
    pub name: OptionName,
    pub word: &'static str,
    /// Its value, where it has one.
    pub value: Option<Value>,
    /// Its part of a line, 0 to 7. A line has at most one option of each part.
    pub part: usize,
}

/// An option that is given, and its value, which is empty where the option has none.
#[derive(Clone, Copy, Debug)]
pub(crate) struct Given<'w> {
    pub option: OptionRow,
    pub value: &'w str,
}

/// A command.
#[derive(Clone, Copy, Debug)]
pub(crate) struct CommandRow {
    pub name: CommandName,
    pub word: &'static str,
    /// The words without a name that stand behind its own.
    pub operands: &'static [Value],
    pub options: &'static [OptionRow],
    /// The parts of which a line has an option.
    pub needs: &'static [usize],
}

const LIMIT: OptionRow = OptionRow {
    name: OptionName::Limit,
    word: "--limit",
    value: Some(Value::Number {
        low: 1,
        high: MOST_RECORDS as u64,
    }),
    part: 0,
};

const PROCS: OptionRow = OptionRow {
    name: OptionName::Procs,
    word: "--procs",
    value: Some(Value::Number {
        low: 1,
        high: MOST_PROCS as u64,
    }),
    part: 1,
};

const SIGNALS: OptionRow = OptionRow {
    name: OptionName::Signals,
    word: "--signals",
    value: Some(Value::Signals),
    part: 2,
};

const SCHEDULE: OptionRow = OptionRow {
    name: OptionName::Schedule,
    word: "--schedule",
    value: Some(Value::Turns),
    part: 3,
};

const MIX: OptionRow = OptionRow {
    name: OptionName::Mix,
    word: "--mix",
    value: Some(Value::Number {
        low: 0,
        high: u64::MAX,
    }),
    part: 3,
};

const TRACE: OptionRow = OptionRow {
    name: OptionName::Trace,
    word: "--trace",
    value: Some(Value::OneOf {
        first: "full",
        others: &["last"],
    }),
    part: 4,
};

const RUNTIME: OptionRow = OptionRow {
    name: OptionName::Runtime,
    word: "--runtime",
    value: None,
    part: 0,
};

const WORKERS: OptionRow = OptionRow {
    name: OptionName::Workers,
    word: "--workers",
    value: Some(Value::Number {
        low: 1,
        high: MOST_WORKERS as u64,
    }),
    part: 5,
};

const RUN_OPTIONS: [OptionRow; 4] = [LIMIT, PROCS, SIGNALS, TRACE];

const REPLAY_OPTIONS: [OptionRow; 6] = [LIMIT, PROCS, SIGNALS, TRACE, SCHEDULE, MIX];

const SMP_OPTIONS: [OptionRow; 5] = [LIMIT, PROCS, SIGNALS, TRACE, WORKERS];

const SWAPS: Value = Value::Number {
    low: 1,
    high: MOST_SWAPS as u64,
};

const COMMANDS: [CommandRow; 7] = [
    CommandRow {
        name: CommandName::Run,
        word: "run",
        operands: &[],
        options: &RUN_OPTIONS,
        needs: &[],
    },
    CommandRow {
        name: CommandName::Replay,
        word: "replay",
        operands: &[],
        options: &REPLAY_OPTIONS,
        needs: &[3],
    },
    CommandRow {
        name: CommandName::Dis,
        word: "dis",
        operands: &[],
        options: &[],
        needs: &[],
    },
    CommandRow {
        name: CommandName::Asm,
        word: "asm",
        operands: &[],
        options: &[RUNTIME],
        needs: &[],
    },
    CommandRow {
        name: CommandName::Check,
        word: "check",
        operands: &[],
        options: &[],
        needs: &[],
    },
    CommandRow {
        name: CommandName::Bench,
        word: "bench",
        operands: &[SWAPS],
        options: &[],
        needs: &[],
    },
    CommandRow {
        name: CommandName::Smp,
        word: "smp",
        operands: &[],
        options: &SMP_OPTIONS,
        needs: &[],
    },
];

/// The first of these options that has a word.
pub(crate) fn find_option(rows: &[OptionRow], word: &str) -> Option<OptionRow>
    ensures { option_map option_view result ≡ find_option (map option_view rows.now) word.now }
{
    for row in rows {
        if row.word == word {
            return Some(*row);
        }
    }
    None
}

/// The first of these commands that has a word.
fn find_row(rows: &[CommandRow], word: &str) -> Option<CommandRow>
    ensures { option_map command_view result ≡ find_command (map command_view rows.now) word.now }
{
    for row in rows {
        if row.word == word {
            return Some(*row);
        }
    }
    None
}

/// The command that has a word.
pub(crate) fn find_command(word: &str) -> Option<CommandRow>
    ensures { option_map command_view result ≡ find_command commands word.now }
{
    find_row(&COMMANDS, word)
}
