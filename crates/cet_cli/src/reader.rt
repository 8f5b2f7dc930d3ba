//! How a line is read, one word after another.

ghost use Rattle.std.specs.Prelude.{◌≡◌, true, [], option_map, slice_set};
ghost use Rattle.std.specs.List.{list_all};
ghost use Rattle.cet_cli.specs.Reader.{filled_by, forget, given_by, is_filled, is_open, may_end, option_begins, option_ends, start, step, value_step};
ghost use Rattle.cet_cli.specs.Table.{command_view, given_view, option_view, reader_view, value_view};

use crate::grammar::{CommandRow, Given, OptionRow, find_option};
use crate::parts::parted;
use crate::values::Value;

/// What was read of a line, and what may still come.
#[derive(Drop)]
pub(crate) struct Reader {
    row: CommandRow,
    /// The words without a name that are still to come.
    operands: &'static [Value],
    /// The option whose value is still to come.
    wants: Option<OptionRow>,
    /// For each part of a line, whether there is an option of it.
    filled: [bool; 8],
}

/// The parts with one more that has an option.
fn with_part(mut filled: [bool; 8], part: usize) -> [bool; 8]
    ensures { result ≡ slice_set filled part true }
{
    if part < filled.len() {
        filled[part] = true;
    }
    filled
}

/// An option by its word, and by what stands behind `=`, where its words end there.
fn option_ends<'w>(option: OptionRow, text: Option<&'w str>) -> Option<Given<'w>>
    ensures { option_map given_view result ≡ option_ends (option_view option) (option_map value_view option.value) (option_map (λ t. t.now) text.entry) }
{
    let value = match option.value {
        None => "",
        Some(_) => text?,
    };
    Some(Given { option, value })
}

impl Reader {
    /// The reader behind a command's word.
    pub(crate) fn new(row: CommandRow) -> Reader
        ensures { reader_view result ≡ start (command_view row) tt }
    {
        Reader {
            row,
            operands: row.operands,
            wants: None,
            filled: [false; 8],
        }
    }

    /// Whether there is no option of this part yet, and may be one.
    fn is_open(&self, part: usize) -> bool
        ensures { result ≡ is_open self.now.filled part }
    {
        !self.filled.get(part).copied().unwrap_or(true)
    }

    /// Whether there is an option of this part.
    fn is_filled(&self, part: usize) -> bool
        ensures { result ≡ is_filled self.now.filled part }
    {
        self.filled.get(part).copied().unwrap_or(false)
    }

    /// With one option more.
    fn filled_by(mut self, option: OptionRow) -> Reader
        ensures { reader_view result ≡ filled_by forget (reader_view self) (option_view option) [] }
    {
        self.wants = None;
        self.filled = with_part(self.filled, option.part);
        self
    }

    /// The value of an option.
    fn value_step(self, option: OptionRow, value: Option<Value>, word: &str) -> Option<Reader>
        ensures { option_map reader_view result ≡ value_step forget (reader_view self) (option_view option) (option_map value_view value) word.now }
    {
        match value {
            Some(value) if value.fits(word) => Some(self.filled_by(option)),
            _ => None,
        }
    }

    /// An option's word, and what stands behind `=`.
    fn option_step(mut self, option: OptionRow, text: Option<&str>) -> Option<Reader>
        ensures { option_map reader_view result ≡ option_begins forget (reader_view self) (option_view option) (option_map value_view option.value) (option_map (λ t. t.now) text.entry) }
    {
        match (option.value, text) {
            (None, None) => Some(self.filled_by(option)),
            (None, Some(_)) => None,
            (Some(_), None) => {
                self.wants = Some(option);
                Some(self)
            }
            (Some(_), Some(text)) => self.value_step(option, option.value, text),
        }
    }

    /// With one word more, or none where no line goes on with it.
    pub(crate) fn step(mut self, word: &str) -> Option<Reader>
        ensures { option_map reader_view result ≡ step forget (reader_view self) word.now }
    {
        if let Some(option) = self.wants {
            return self.value_step(option, option.value, word);
        }
        if let [value, rest @ ..] = self.operands {
            self.operands = rest;
            return if value.fits(word) { Some(self) } else { None };
        }
        let (front, text) = parted(word, '=');
        let option = find_option(self.row.options, front)?;
        if !self.is_open(option.part) {
            return None;
        }
        self.option_step(option, text)
    }

    /// Whether there is an option of each of these parts.
    fn has_all(&self, parts: &[usize]) -> bool
        ensures { result ≡ list_all (is_filled self.now.filled) parts.now }
    {
        parts.iter().all(|part| self.is_filled(*part))
    }

    /// Whether the line may end here.
    pub(crate) fn may_end(&self) -> bool
        ensures { result ≡ may_end (reader_view self.now) }
    {
        self.wants.is_none() && self.operands.is_empty() && self.has_all(self.row.needs)
    }

    /// The option whose words end with this word, where it is one.
    pub(crate) fn given<'w>(&self, word: &'w str) -> Option<Given<'w>>
        ensures { option_map given_view result ≡ given_by (reader_view self.now) word.now }
    {
        if let Some(option) = self.wants {
            return Some(Given {
                option,
                value: word,
            });
        }
        if !self.operands.is_empty() {
            return None;
        }
        let (front, text) = parted(word, '=');
        let option = find_option(self.row.options, front)?;
        option_ends(option, text)
    }
}
