//! The code at an address, as it is read once for a row.

ghost use Rattle.cet_cpu.specs.Code.{IsCode};

use cet_decode::{Decoded, decode};
use cet_page::fetch;
use cet_words::Image;

/// The code at an address, as it was read.
#[derive(Clone, Copy)]
pub struct Code {
    /// What the bytes there are.
    pub decoded: Decoded,
    /// How many bytes can be fetched there, up to 15.
    pub fetched: u8,
}

/// Reads the code at an address.
pub fn code_at(image: &Image, addr: u64) -> Code
    ensures { IsCode image.now.segments addr result }
{
    let mut buffer = [0u8; 15];
    let fetched = fetch(image, addr, &mut buffer);
    Code {
        decoded: decode(&buffer[..fetched]),
        fetched: fetched as u8,
    }
}
