//! Little-endian fields of 2, 4 and 8 bytes.

ghost use Rattle.std.specs.Prelude.{◌≡◌};
ghost use Rattle.std.specs.Int.{w16, w32, w64};
ghost use Rattle.cet_base.specs.Fields.{field_at};

use byteorder::{ByteOrder, LittleEndian};

/// The little-endian field of 2 bytes that starts at `at`. `None` where it isn't wholly inside.
pub fn get_u16(bytes: &[u8], at: usize) -> Option<u16>
    ensures { result ≡ field_at w16 bytes.now at }
{
    let end = at.checked_add(2)?;
    bytes.get(at..end).map(LittleEndian::read_u16)
}

/// The little-endian field of 4 bytes that starts at `at`. `None` where it isn't wholly inside.
pub fn get_u32(bytes: &[u8], at: usize) -> Option<u32>
    ensures { result ≡ field_at w32 bytes.now at }
{
    let end = at.checked_add(4)?;
    bytes.get(at..end).map(LittleEndian::read_u32)
}

/// The little-endian field of 8 bytes that starts at `at`. `None` where it isn't wholly inside.
pub fn get_u64(bytes: &[u8], at: usize) -> Option<u64>
    ensures { result ≡ field_at w64 bytes.now at }
{
    let end = at.checked_add(8)?;
    bytes.get(at..end).map(LittleEndian::read_u64)
}
