//! Hexadecimal digits, written from the last to the first.

ghost use Rattle.std.specs.Prelude.{◌≡◌, ◌+◌, ◌≤◌, ◌++◌, length, take, drop};
ghost use Rattle.cet_base.specs.Digits.{hex2, hex16};

/// The two lower-case digits of each byte, one byte after another.
static PAIRS: [u8; 512] = *b"000102030405060708090a0b0c0d0e0f\
    101112131415161718191a1b1c1d1e1f\
    202122232425262728292a2b2c2d2e2f\
    303132333435363738393a3b3c3d3e3f\
    404142434445464748494a4b4c4d4e4f\
    505152535455565758595a5b5c5d5e5f\
    606162636465666768696a6b6c6d6e6f\
    707172737475767778797a7b7c7d7e7f\
    808182838485868788898a8b8c8d8e8f\
    909192939495969798999a9b9c9d9e9f\
    a0a1a2a3a4a5a6a7a8a9aaabacadaeaf\
    b0b1b2b3b4b5b6b7b8b9babbbcbdbebf\
    c0c1c2c3c4c5c6c7c8c9cacbcccdcecf\
    d0d1d2d3d4d5d6d7d8d9dadbdcdddedf\
    e0e1e2e3e4e5e6e7e8e9eaebecedeeef\
    f0f1f2f3f4f5f6f7f8f9fafbfcfdfeff";

/// Sixteen zeros.
const ZEROS: [u8; 16] = [b'0'; 16];

/// Writes the two digits of a byte at a place.
#[inline(always)]
fn write_pair(buf: &mut [u8], at: usize, byte: u8)
    requires { at + 2 ≤ length buf.old }
    ensures written { drop at buf.new ≡ hex2 byte ++ drop (at + 2) buf.old }
    ensures before { take at buf.new ≡ take at buf.old }
{
    let from = 2 * byte as usize;
    buf[at + 1] = PAIRS[from + 1];
    buf[at] = PAIRS[from];
}

/// Writes bytes so that they end at `end`, and answers where they start.
#[inline(always)]
pub(crate) fn write_bytes(buf: &mut [u8], end: usize, bytes: &[u8]) -> usize
    requires { (length bytes.now ≤ end) × (end ≤ length buf.old) }
    ensures start { result + length bytes.now ≡ end }
    ensures written { drop result buf.new ≡ bytes.now ++ drop end buf.old }
{
    let at = end - bytes.len();
    buf[at..end].copy_from_slice(bytes);
    at
}

/// Writes sixteen zeros so that they end at `end`, and answers where they start.
#[inline(always)]
fn write_zeros(buf: &mut [u8], end: usize) -> usize
    requires { (16 ≤ end) × (end ≤ length buf.old) }
    ensures start { result + 16 ≡ end }
    ensures written { drop result buf.new ≡ hex16 0 ++ drop end buf.old }
{
    write_bytes(buf, end, &ZEROS)
}

/// Writes a number's sixteen digits so that they end at `end`, and answers where they start. Leading
/// zeros are written in one piece.
#[inline]
pub(crate) fn write_hex(buf: &mut [u8], end: usize, number: u64) -> usize
    requires { (16 ≤ end) × (end ≤ length buf.old) }
    ensures start { result + 16 ≡ end }
    ensures written { drop result buf.new ≡ hex16 number ++ drop end buf.old }
{
    let start = write_zeros(buf, end);
    let mut at = end;
    let mut rest = number;
    for _pair in 0..8_usize {
        if rest == 0 {
            break;
        }
        at -= 2;
        write_pair(buf, at, (rest % 256) as u8);
        rest /= 256;
    }
    start
}
