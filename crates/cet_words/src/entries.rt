//! The one present entry of each page.

ghost use Rattle.std.specs.Prelude.{◌≡◌, ◌<◌, ◌+◌, ◌*◌, ◌^◌, find, All, IfSome};
ghost use Rattle.std.specs.Option.{option_copied};
ghost use Rattle.cet_words.specs.Job.{covers, IsSegment};
ghost use Rattle.cet_words.specs.Layout.{image_end, page_count, first_stack_page};
ghost use Rattle.cet_words.specs.Entries.{data_entry, entry_of, entry_with, segment_entry, shadow_entry, no_execute};

use crate::images::{Image, Segment};
use crate::places::{FIRST_KERNEL_PAGE, FIRST_SHADOW_PAGE, FIRST_STACK_PAGE};

/// Execute-disable, bit 63.
const NO_EXECUTE: u64 = 1 << 63;

/// Whether the segment has a byte in the page that begins at 4096 * `number`.
fn covers(segment: &Segment, number: u64) -> bool
    requires { IsSegment segment.now }
    ensures { result ≡ covers number segment.now }
{
    segment.size > 0
        && segment.start / 4096 <= number
        && number <= (segment.start + segment.size - 1) / 4096
}

/// The first segment that has a byte in the page that begins at 4096 * `number`.
pub(crate) fn segment_of(segments: &[Segment], number: u64) -> Option<&Segment>
    requires { All IsSegment segments.now }
    ensures { option_copied result ≡ find (covers number) segments.now }
{
    segments.iter().find(|segment| covers(segment, number))
}

/// The segment of an image that has a byte in the page that begins at 4096 * `number`.
#[tactic(auto, using(crate::proofs::ByteLaws::found_page))]
pub fn segment_at(image: &Image, number: u64) -> Option<&Segment>
    ensures found { option_copied result ≡ find (covers number) image.now.segments }
    ensures range { IfSome result (λ segment. 4096 * number < image_end) }
{
    segment_of(image.segments.as_slice(), number)
}

/// The entry of a page with these low bits: P 1, R/W 2, U/S 4, A 32, D 64.
fn entry_with(page: u32, bits: u64) -> u64
    requires page { page < page_count }
    requires bits { bits < 4096 }
    ensures value { result ≡ entry_with page bits }
    ensures small { result < 2 ^ 45 }
{
    4096 * (u64::from(page) + 256) + bits
}

/// The present entry of a page of the main stack or the mmap area, which may be written.
pub fn data_entry(page: u32) -> u64
    requires { page < page_count }
    ensures value { result ≡ data_entry page }
    ensures bits { result < 2 ^ 63 + 2 ^ 45 }
{
    NO_EXECUTE + entry_with(page, 0x67)
}

/// The present entry of a page of the shadow area: R/W clear and D set make it a shadow-stack page.
pub fn shadow_entry(page: u32) -> u64
    requires { page < page_count }
    ensures value { result ≡ shadow_entry page }
    ensures bits { result < 2 ^ 63 + 2 ^ 45 }
{
    NO_EXECUTE + entry_with(page, 0x65)
}

/// The entry of a page in a segment, by the segment's rights.
fn segment_entry(page: u32, segment: &Segment) -> u64
    requires { page < page_count }
    ensures { result ≡ segment_entry page (Some segment.now) }
{
    if segment.exec {
        entry_with(page, 0x25)
    } else if segment.write {
        NO_EXECUTE + entry_with(page, 0x67)
    } else {
        NO_EXECUTE + entry_with(page, 0x25)
    }
}

fn image_entry(image: &Image, page: u32) -> u64
    requires { page < first_stack_page }
    ensures { result ≡ segment_entry page (find (covers (1024 + page)) image.now.segments) }
{
    match segment_at(image, u64::from(1024 + page)) {
        Some(segment) => segment_entry(page, segment),
        None => 0,
    }
}

/// The one present entry of a page, with bits as in the Intel SDM (4-level paging); 0 for a page that
/// is never present.
#[tactic(auto, unfolding(crate::specs::Entries::entry_of))]
pub fn present(image: &Image, page: u32) -> u64
    requires { page < page_count }
    ensures { result ≡ entry_of image.now page }
{
    match page {
        0..FIRST_STACK_PAGE => image_entry(image, page),
        FIRST_STACK_PAGE..FIRST_SHADOW_PAGE => data_entry(page),
        FIRST_SHADOW_PAGE..FIRST_KERNEL_PAGE => shadow_entry(page),
        FIRST_KERNEL_PAGE => NO_EXECUTE + entry_with(page, 0x63),
        _ if page % 2 == 0 => NO_EXECUTE + entry_with(page, 0x61),
        _ => 0,
    }
}
