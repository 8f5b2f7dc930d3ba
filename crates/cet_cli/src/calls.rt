//! The words that each of the two calls of the program serves: `smp` alone, or all other commands.

ghost use Rattle.std.specs.Prelude.{◌≡◌, ◌≤◌, map, string_bytes, IfOk, MatchResult};
ghost use Rattle.cet_cli.specs.Faults.{HasCause};
ghost use Rattle.cet_cli.specs.Words.{HasNumber, IsPlain, IsSmp, MeansPlain, MeansSmp, begins_smp, most_workers};

use crate::options::Settings;
use crate::words::{CliFault, Command, read_words};
use std::alloc::Global;

/// Whether the first word is `smp`.
pub fn is_smp(words: &[String]) -> bool
    ensures { result ≡ begins_smp (map string_bytes words.now) }
{
    match words.first() {
        Some(word) => word.as_str() == "smp",
        None => false,
    }
}

/// Reads the words of a command that is no threaded run. Those of a threaded run are faulty from the first on.
pub fn read_plain(alloc: Global, words: &[String]) -> Result<Command, CliFault>
    ensures means { MatchResult result (MeansPlain (map string_bytes words.now)) (HasCause IsPlain (map string_bytes words.now)) }
    ensures number { IfOk result HasNumber }
{
    if is_smp(words) {
        return Err(CliFault::Usage(1));
    }
    read_words(alloc, words)
}

/// Reads the words of a threaded run: its settings, and its workers, 1 to 16. Those of another command are faulty from the
/// first on.
pub fn read_smp(alloc: Global, words: &[String]) -> Result<(Settings, u32), CliFault>
    ensures means { MatchResult result (λ (settings, workers). MeansSmp (map string_bytes words.now) settings workers) (HasCause IsSmp (map string_bytes words.now)) }
    ensures workers { IfOk result (λ (settings, workers). (1 ≤ workers) × (workers ≤ most_workers)) }
{
    if !is_smp(words) {
        return Err(CliFault::Usage(1));
    }
    let Command::Smp(settings, workers) = read_words(alloc, words)? else {
        unreachable!()
    };
    Ok((settings, workers))
}
