//! The options of a command, and what they set.

ghost use Rattle.std.specs.Prelude.{◌≡◌, option_map, IfOk};
ghost use Rattle.cet_cli.specs.Settings.{most_records};
ghost use Rattle.cet_cli.specs.Table.{given_view};
ghost use Rattle.cet_cli.specs.Values.{number_within};
ghost use Rattle.cet_cli.specs.Words.{default_settings, defaults, style_of, with_any, with_limit, with_mix, with_option, with_procs, with_schedule, with_signals, with_style, with_workers};

use crate::grammar::Given;
use crate::limits::{MOST_PROCS, MOST_RECORDS, MOST_WORKERS};
use crate::signals::signals_of;
use crate::turns::{Turns, turns_of};
use crate::values::number_within;
use cet_base::Style;
use cet_words::{NoMemory, Signals};
use std::alloc::Global;
use std::marker::Model;

/// The number of processors where no option says another.
const PROCS: u8 = 4;

/// The number of workers where no option says another.
const WORKERS: u32 = 4;

/// An option, by its name.
#[derive(Clone, Copy, Debug)]
pub(crate) enum OptionName {
    /// `--limit`: the most records of each thread, 1 to 100,000.
    Limit,
    /// `--procs`: the number of processors, 1 to 8.
    Procs,
    /// `--signals`: up to 256 signals.
    Signals,
    /// `--trace`: how much of each thread is reported.
    Trace,
    /// `--runtime`: the runtime is assembled behind the text.
    Runtime,
    /// `--schedule`: up to 10,000 repeats, of 1,000,000 turns in all.
    Schedule,
    /// `--mix`: a number of 64 bits.
    Mix,
    /// `--workers`: the number of workers, 1 to 16.
    Workers,
}

/// The settings of a run.
#[derive(Debug, Drop)]
pub struct Settings {
    /// The most records of each thread, 1 to 100,000.
    pub limit: u32,
    /// The number of processors, 1 to 8.
    pub procs: u8,
    /// The signals that threads post to themselves, at most 256.
    pub signals: Signals,
    /// How much of each thread is reported.
    pub style: Style,
}

impl Model for Settings {
    ghost use Rattle.cet_cli.specs.Settings.{IsSettings, SettingsData};

    ghost Value = { SettingsData };

    ghost view = { λ s. record { limit = s.limit; procs = s.procs; signals = s.signals; style = s.style } };

    ghost invariant = { λ s. IsSettings (record { limit = s.limit; procs = s.procs; signals = s.signals; style = s.style }) };
}

/// Which turns a run has.
#[derive(Debug, Drop)]
pub enum Plan {
    /// These turns, and then the live threads in the order of their numbers.
    Schedule(Turns),
    /// The turns that a number leads to.
    Mix(u64),
}

/// What the options of a line set.
#[derive(Debug, Drop)]
pub(crate) struct Choices {
    pub settings: Settings,
    pub plan: Plan,
    pub runtime: bool,
    pub workers: u32,
}

/// The limit that a text is.
fn limit_of(text: &str) -> Option<u32>
    ensures { result ≡ number_within 1 most_records text.now }
{
    let limit = number_within(text, 1, MOST_RECORDS.into())?;
    Some(limit as u32)
}

/// The number of processors that a text is.
fn procs_of(text: &str) -> Option<u8>
    ensures { result ≡ number_within 1 8 text.now }
{
    let procs = number_within(text, 1, MOST_PROCS.into())?;
    Some(procs as u8)
}

/// With the number of workers that a text is.
fn with_workers(workers: u32, value: &str) -> u32
    ensures { result ≡ with_workers workers value.now }
{
    match number_within(value, 1, MOST_WORKERS.into()) {
        Some(number) => number as u32,
        None => workers,
    }
}

/// The style that a text names.
fn style_of(text: &str) -> Option<Style>
    ensures { result ≡ style_of text.now }
{
    if text == "full" {
        Some(Style::Full)
    } else if text == "last" {
        Some(Style::Last)
    } else {
        None
    }
}

impl Settings {
    /// The settings where no option is given: 100,000 records, 4 processors, no signals, and the full report.
    pub fn defaults(alloc: Global) -> Settings
        ensures { result ≡ default_settings }
    {
        Settings {
            limit: MOST_RECORDS,
            procs: PROCS,
            signals: Signals::new(alloc),
            style: Style::Full,
        }
    }
}

impl Settings {
    /// With the limit that a text is. A text that is none changes nothing, here and below.
    fn with_limit(self, value: &str) -> Settings
        ensures { result ≡ with_limit self value.now }
    {
        Settings {
            limit: limit_of(value).unwrap_or(self.limit),
            procs: self.procs,
            signals: self.signals,
            style: self.style,
        }
    }

    /// With the number of processors that a text is.
    fn with_procs(self, value: &str) -> Settings
        ensures { result ≡ with_procs self value.now }
    {
        Settings {
            limit: self.limit,
            procs: procs_of(value).unwrap_or(self.procs),
            signals: self.signals,
            style: self.style,
        }
    }

    /// With the style that a text names.
    fn with_style(self, value: &str) -> Settings
        ensures { result ≡ with_style self value.now }
    {
        Settings {
            limit: self.limit,
            procs: self.procs,
            signals: self.signals,
            style: style_of(value).unwrap_or(self.style),
        }
    }

    /// With the signals that a text is a list of.
    fn with_signals(self, alloc: Global, value: &str) -> Result<Settings, NoMemory>
        ensures { IfOk result (λ settings. settings ≡ with_signals self value.now) }
    {
        let signals = signals_of(alloc, value)?;
        Ok(Settings {
            limit: self.limit,
            procs: self.procs,
            signals: signals.unwrap_or(self.signals),
            style: self.style,
        })
    }
}

impl Plan {
    /// With the turns that a text is a list of.
    fn with_schedule(self, alloc: Global, value: &str) -> Result<Plan, NoMemory>
        ensures { IfOk result (λ plan. plan ≡ with_schedule self value.now) }
    {
        match turns_of(alloc, value)? {
            Some(turns) => Ok(Plan::Schedule(turns)),
            None => Ok(self),
        }
    }

    /// With the number that a text is.
    fn with_mix(self, value: &str) -> Plan
        ensures { result ≡ with_mix self value.now }
    {
        match number_within(value, 0, u64::MAX) {
            Some(number) => Plan::Mix(number),
            None => self,
        }
    }
}

impl Choices {
    /// What is set where no option is given.
    pub(crate) fn defaults(alloc: Global) -> Choices
        ensures { result ≡ defaults }
    {
        Choices {
            settings: Settings::defaults(alloc),
            plan: Plan::Schedule(Turns::new(alloc)),
            runtime: false,
            workers: WORKERS,
        }
    }

    /// With an option's value. A value that the option can't have changes nothing.
    fn with(self, alloc: Global, option: OptionName, value: &str) -> Result<Choices, NoMemory>
        ensures { IfOk result (λ choices. choices ≡ with_option self option value.now) }
    {
        let Choices {
            mut settings,
            mut plan,
            mut runtime,
            mut workers,
        } = self;
        match option {
            OptionName::Limit => settings = settings.with_limit(value),
            OptionName::Procs => settings = settings.with_procs(value),
            OptionName::Signals => settings = settings.with_signals(alloc, value)?,
            OptionName::Trace => settings = settings.with_style(value),
            OptionName::Runtime => runtime = true,
            OptionName::Schedule => plan = plan.with_schedule(alloc, value)?,
            OptionName::Mix => plan = plan.with_mix(value),
            OptionName::Workers => workers = with_workers(workers, value),
        }
        Ok(Choices {
            settings,
            plan,
            runtime,
            workers,
        })
    }

    /// With an option, where one is given.
    pub(crate) fn with_given(self, alloc: Global, given: Option<Given>) -> Result<Choices, NoMemory>
        ensures { IfOk result (λ choices. choices ≡ with_any self (option_map given_view given.entry)) }
    {
        match given {
            Some(given) => self.with(alloc, given.option.name, given.value),
            None => Ok(self),
        }
    }
}
