//! The loader: the image of a file, or the first rule that it breaks.

ghost use Rattle.std.specs.Prelude.{◌≡◌, ◌≤◌, ◌+◌, ◌++◌, ◌∷◌, [], true, length, IfOk, OnOk, All};
ghost use Rattle.cet_words.specs.Job.{IsImage};
ghost use Rattle.cet_elf.specs.Headers.{xword, headers, is_load};
ghost use Rattle.cet_elf.specs.Accepts.{segment_of, segments_of, image_from, Loads};
ghost use Rattle.cet_elf.specs.Refusals.{HoldBelow, Refusal};
ghost use Rattle.cet_elf.specs.Rules.{file_breaches};

use crate::headers::{ProgramHeader, headers, is_executable, is_load, is_writable, xword};
use crate::notes::{features, has_stacks, has_tracking};
use crate::rules::{file_breaches, header_breaches};
use cet_words::{Bytes, Image, NoMemory, Segment, Segments};
use std::alloc::Global;

/// Why a file wasn't loaded.
#[derive(Clone, Copy, Debug, PartialEq, Eq)]
pub enum LoadFault {
    /// The first rule that the file breaks, from 1 to 14, and the place in the file where it does.
    Refused { rule: u8, offset: u64 },
    /// No memory was left.
    NoMemory,
}

impl From<NoMemory> for LoadFault {
    ghost use Rattle.cet_elf.specs.declared.loads.LoadFault.TheVariants as fault;

    ghost from_gives = { λ _ e. e ≡ fault.NoMemory };

    fn from(_error: NoMemory) -> LoadFault {
        LoadFault::NoMemory
    }
}

/// Refuses a file for the first of these rules that it breaks. They are numbered from `first` on.
fn refuse_broken(breaches: &[Option<u64>], first: u8) -> Result<(), LoadFault>
    requires { first + length breaches.now ≤ 255 }
    ensures { Refusal first breaches.now result }
{
    for (index, breach) in breaches.iter().enumerate() {
        if let Some(offset) = breach {
            return Err(LoadFault::Refused {
                rule: first + index as u8,
                offset: *offset,
            });
        }
    }
    Ok(())
}

/// The segment of a program header, with its bytes of the file.
fn segment(alloc: Global, bytes: &[u8], header: &ProgramHeader) -> Result<Segment, NoMemory>
    requires { header.now.offset + header.now.file_size ≤ length bytes.now }
    ensures { IfOk result (λ segment. segment ≡ segment_of bytes.now header.now) }
{
    let start = header.offset as usize;
    let end = start + header.file_size as usize;
    let mut own = Bytes::new(alloc);
    own.extend(alloc, &bytes[start..end])?;
    Ok(Segment {
        start: header.address,
        bytes: own,
        size: header.memory_size,
        write: is_writable(header),
        exec: is_executable(header),
    })
}

/// Appends the segment of a program header, where it is one of PT_LOAD.
fn push_segment(
    alloc: Global,
    bytes: &[u8],
    segments: &mut Segments,
    header: &ProgramHeader,
) -> Result<(), NoMemory>
    requires { is_load header.now ≡ true → header.now.offset + header.now.file_size ≤ length bytes.now }
    ensures { OnOk result (segments.new ≡ segments.old ++ segments_of bytes.now (header.now ∷ [])) }
{
    if is_load(header) {
        segments.push(alloc, segment(alloc, bytes, header)?)
    } else {
        Ok(())
    }
}

/// The segments of program headers.
fn segments(alloc: Global, bytes: &[u8], headers: &[ProgramHeader]) -> Result<Segments, NoMemory>
    requires { All (λ h. is_load h ≡ true → h.offset + h.file_size ≤ length bytes.now) headers.now }
    ensures { IfOk result (λ segments. segments ≡ segments_of bytes.now headers.now) }
{
    let mut segments = Segments::new(alloc);
    for header in headers {
        push_segment(alloc, bytes, &mut segments, header)?;
    }
    Ok(segments)
}

/// The image of a file whose rules hold.
#[tactic(auto, unfolding(crate::specs::Accepts::image_from))]
fn image(
    alloc: Global,
    bytes: &[u8],
    features: u32,
    headers: &[ProgramHeader],
) -> Result<Image, NoMemory>
    requires filled { All (λ h. is_load h ≡ true → h.offset + h.file_size ≤ length bytes.now) headers.now }
    requires good { IsImage (xword bytes.now 24) (segments_of bytes.now headers.now) }
    ensures { IfOk result (λ image. image ≡ image_from bytes.now features headers.now) }
{
    let segments = segments(alloc, bytes, headers)?;
    Ok(Image {
        entry: xword(bytes, 24),
        marked: has_stacks(features),
        tracked: has_tracking(features),
        segments,
    })
}

/// Loads a file whose rules 1 to 6 hold, by its program headers.
fn load_headers(alloc: Global, bytes: &[u8], table: &[ProgramHeader]) -> Result<Image, LoadFault>
    requires file { HoldBelow 6 (file_breaches bytes.now) }
    requires headers { table.now ≡ headers bytes.now }
    ensures { Loads bytes.now result }
{
    let features = features(bytes, table);
    refuse_broken(&header_breaches(bytes, features, table), 7)?;
    Ok(image(alloc, bytes, features, table)?)
}

/// Loads a file: its image, with one segment for each PT_LOAD in the order of the table, or the first of
/// the fourteen rules that it breaks.
pub fn load(alloc: Global, bytes: &[u8]) -> Result<Image, LoadFault>
    ensures { Loads bytes.now result }
{
    refuse_broken(&file_breaches(bytes), 1)?;
    let headers = headers(alloc, bytes)?;
    load_headers(alloc, bytes, headers.as_slice())
}
