//! How a file is marked for shadow stacks and branch tracking: its program property note.

ghost use Rattle.std.specs.Prelude.{◌≡◌, ◌≤◌, ◌+◌, ◌<◌, MatchOption, length, drop, find};
ghost use Rattle.std.specs.Option.{option_copied};
ghost use Rattle.cet_elf.specs.Headers.{word};
ghost use Rattle.cet_elf.specs.Notes.{padded, is_feature, feature, is_note, description, note_feature, is_property, features_of, has_stacks, has_tracking};

use crate::headers::{ProgramHeader, word};
use cet_base::get_u32;

/// GNU_PROPERTY_X86_FEATURE_1_AND, the type of a property.
const FEATURE_AND: u32 = 0xc000_0002;

/// PT_GNU_PROPERTY, the type of a program header.
const GNU_PROPERTY: u32 = 0x6474_e553;

/// The next multiple of 8.
fn padded(size: u32) -> usize
    ensures { result ≡ padded size }
{
    8 * ((size as usize + 7) / 8)
}

/// Whether a list of properties begins with the one of this type whose size is 4.
fn is_feature(properties: &[u8]) -> bool
    ensures { result ≡ is_feature properties.now }
{
    word(properties, 0) == FEATURE_AND && word(properties, 4) == 4
}

/// The properties behind the first, or none where the list ends before that.
fn behind_first(properties: &[u8]) -> Option<&[u8]>
    ensures { let size = 8 + padded (word properties.now 4) in
        MatchOption result (length properties.now < size) (λ rest. rest.now ≡ drop size properties.now) }
{
    properties.get(8 + padded(word(properties, 4))..)
}

/// The data of the first property of this type whose size is 4, in a list of properties.
fn feature(properties: &[u8]) -> Option<u32>
    ensures { result ≡ feature properties.now }
{
    let mut rest = properties;
    for _step in 0..properties.len() {
        if is_feature(rest) {
            return get_u32(rest, 8);
        }
        rest = behind_first(rest)?;
    }
    None
}

/// Whether the bytes of a header are in the file, and begin as a program property note.
fn is_note(bytes: &[u8], header: &ProgramHeader) -> bool
    ensures { result ≡ is_note bytes.now header.now }
{
    let size = bytes.len() as u64;
    if header.offset > size || header.file_size > size - header.offset || header.file_size < 16 {
        return false;
    }
    let at = header.offset as usize;
    word(bytes, at) == 4 && word(bytes, at + 8) == 5 && word(bytes, at + 12) == 0x0055_4e47
}

/// The description of a note, as far as the file goes.
fn description<'a>(bytes: &'a [u8], header: &ProgramHeader) -> &'a [u8]
    requires { header.now.offset + 16 ≤ length bytes.now }
    ensures { result.now ≡ description bytes.now header.now }
{
    let at = header.offset as usize;
    let size = word(bytes, at + 4) as usize;
    let rest = &bytes[at + 16..];
    if size < rest.len() {
        &rest[..size]
    } else {
        rest
    }
}

#[tactic(auto, unfolding(crate::specs::Notes::note_feature))]
fn note_feature(bytes: &[u8], header: &ProgramHeader) -> Option<u32>
    ensures { result ≡ note_feature bytes.now header.now }
{
    if is_note(bytes, header) {
        feature(description(bytes, header))
    } else {
        None
    }
}

fn property(headers: &[ProgramHeader]) -> Option<&ProgramHeader>
    ensures { option_copied result ≡ find is_property headers.now }
{
    headers.iter().find(|header| header.kind == GNU_PROPERTY)
}

/// Whether feature bits mark a file for shadow stacks (GNU_PROPERTY_X86_FEATURE_1_SHSTK).
pub(crate) fn has_stacks(features: u32) -> bool
    ensures { result ≡ has_stacks features }
{
    features & 2 == 2
}

/// Whether feature bits mark a file for branch tracking (GNU_PROPERTY_X86_FEATURE_1_IBT).
pub(crate) fn has_tracking(features: u32) -> bool
    ensures { result ≡ has_tracking features }
{
    features & 1 == 1
}

/// The feature bits by which a file is marked, or 0 where it has no such note.
#[tactic(auto, unfolding(crate::specs::Notes::features_of))]
pub(crate) fn features(bytes: &[u8], headers: &[ProgramHeader]) -> u32
    ensures { result ≡ features_of bytes.now headers.now }
{
    match property(headers) {
        Some(header) => note_feature(bytes, header).unwrap_or(0),
        None => 0,
    }
}
