//! The bytes of an image and of its code, by their addresses.

ghost use Rattle.std.specs.Prelude.{◌≡◌, ◌<◌, IfSome};
ghost use Rattle.cet_words.specs.Layout.{image_end};
ghost use Rattle.cet_words.specs.Bytes.{segment_byte, code_byte};

use crate::entries::segment_of;
use crate::images::{Image, Segment};

/// The byte at an address of one of the segment's pages: 0 outside its file bytes.
pub fn segment_byte(segment: &Segment, addr: u64) -> u8
    ensures { result ≡ segment_byte segment.now addr }
{
    if addr < segment.start {
        return 0;
    }
    let at = (addr - segment.start) as usize;
    segment.bytes.get(at).copied().unwrap_or(0)
}

/// The byte of code at an address, or none where no executable segment covers the address's page.
#[tactic(auto, using(crate::proofs::ByteLaws::code_place), unfolding(crate::specs::Bytes::code_byte))]
pub fn code_byte(image: &Image, addr: u64) -> Option<u8>
    ensures byte { result ≡ code_byte image.now.segments addr }
    ensures range { IfSome result (λ byte. addr < image_end) }
{
    match segment_of(image.segments.as_slice(), addr / 4096) {
        Some(segment) if segment.exec => Some(segment_byte(segment, addr)),
        _ => None,
    }
}
