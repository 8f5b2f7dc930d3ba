//! The words of shadow stacks, each read once.

ghost use Rattle.std.specs.Prelude.{◌≡◌, ◌-◌, ◌/◌, ◌≤◌, IfOk, All, map};
ghost use Rattle.cet_words.specs.Layout.{shadow_end, shadow_start};
ghost use Rattle.cet_book.specs.View.{IsSpan, region_words, words_from};

use crate::regions::Region;
use cet_words::{Access, FIRST_SHADOW_WORD, NoMemory, Perform, SHADOW_START, Words};
use std::alloc::Global;

/// The words from an address of the shadow area up to another.
fn read_words<P: Perform>(
    alloc: Global,
    words: &mut P,
    from: u64,
    to: u64,
) -> Result<Words, NoMemory>
    requires low { shadow_start ≤ from }
    requires order { from ≤ to }
    requires high { to ≤ shadow_end }
    ensures same { P.words words.new ≡ P.words words.old }
    ensures read { IfOk result (λ list. list ≡ words_from (P.words words.old) from ((to - from) / 8)) }
{
    let mut list = Words::new(alloc);
    for at in 0..(to - from) / 8 {
        let word = FIRST_SHADOW_WORD + ((from + 8 * at - SHADOW_START) / 8) as u32;
        list.push(alloc, words.perform(Access::Load(word)))?;
    }
    Ok(list)
}

/// The words of each region, and the word below it first: there the token of a full stack stands.
pub(crate) fn read_regions<P: Perform>(
    alloc: Global,
    words: &mut P,
    regions: &[Region],
) -> Result<Vec<Words>, NoMemory>
    requires { All IsSpan regions.now }
    ensures same { P.words words.new ≡ P.words words.old }
    ensures read { IfOk result (λ copies. copies.items ≡ map (region_words (P.words words.old)) regions.now) }
{
    let mut copies = Vec::new(alloc);
    for region in regions {
        copies.push(read_words(alloc, words, region.start - 8, region.end)?)?;
    }
    Ok(copies)
}
