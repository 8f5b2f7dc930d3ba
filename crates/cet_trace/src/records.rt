//! The lines of records, written from the last to the first.

ghost use Rattle.std.specs.Prelude.{◌≡◌, ◌+◌, ◌*◌, ◌<◌, ◌≤◌, ◌∷◌, ◌++◌, length, drop, OnOk};
ghost use Rattle.std.specs.List.{flat_map};
ghost use Rattle.std.specs.Fmt.{decimal};
ghost use Rattle.cet_base.specs.Digits.{hex16};
ghost use Rattle.cet_trace.specs.Line.{spaced};
ghost use Rattle.cet_trace.specs.Report.{fault_name, record_name, record_text};

use crate::digits::{write_bytes, write_hex};
use cet_isa::{FaultName, Record, What};
use cet_run::Records;
use cet_words::{Bytes, NoMemory};
use itoa::write_digits;
use std::alloc::Global;

/// The bytes of a record's line at most: five spaces and the newline, 48 hexadecimal digits, a name of
/// six letters, and 20 and 10 decimal digits.
const LINE: usize = 90;

/// So many records are appended in one piece.
const PIECE: usize = 64;

/// Writes a byte before `end`, and answers where it is.
#[inline(always)]
fn write_byte(buf: &mut [u8], end: usize, byte: u8) -> usize
    requires { (0 < end) × (end ≤ length buf.old) }
    ensures start { result + 1 ≡ end }
    ensures written { drop result buf.new ≡ byte ∷ drop end buf.old }
{
    let at = end - 1;
    buf[at] = byte;
    at
}

/// Writes a text so that it ends at `end`, and answers where it starts.
#[inline(always)]
fn write_text(buf: &mut [u8], end: usize, text: &str) -> usize
    requires { (length text.now ≤ end) × (end ≤ length buf.old) }
    ensures start { result + length text.now ≡ end }
    ensures written { drop result buf.new ≡ text.now ++ drop end buf.old }
{
    write_bytes(buf, end, text.as_bytes())
}

/// Writes a number's decimal digits so that they end at `end`, and answers where they start. Most
/// numbers have one.
#[inline(always)]
fn write_decimal(buf: &mut [u8], end: usize, number: u64) -> usize
    requires { (length (decimal number) ≤ end) × (end ≤ length buf.old) }
    ensures start { result + length (decimal number) ≡ end }
    ensures written { drop result buf.new ≡ decimal number ++ drop end buf.old }
{
    if number < 10 {
        write_byte(buf, end, b'0' + number as u8)
    } else {
        write_digits(number, buf, end)
    }
}

/// Writes a fault's name so that it ends at `end`, and answers where it starts.
fn write_fault(buf: &mut [u8], end: usize, name: FaultName) -> usize
    requires { (3 ≤ end) × (end ≤ length buf.old) }
    ensures start { result + length (fault_name name) ≡ end }
    ensures written { drop result buf.new ≡ fault_name name ++ drop end buf.old }
{
    match name {
        FaultName::Ud => write_text(buf, end, "#UD"),
        FaultName::Gp => write_text(buf, end, "#GP"),
        FaultName::Pf => write_text(buf, end, "#PF"),
        FaultName::Ac => write_text(buf, end, "#AC"),
        FaultName::Cp => write_text(buf, end, "#CP"),
    }
}

/// Writes a record's name so that it ends at `end`, and answers where it starts.
#[inline(always)]
fn write_name(buf: &mut [u8], end: usize, what: What) -> usize
    requires { (6 ≤ end) × (end ≤ length buf.old) }
    ensures start { result + length (record_name what) ≡ end }
    ensures written { drop result buf.new ≡ record_name what ++ drop end buf.old }
{
    match what {
        What::Step => write_text(buf, end, "step"),
        What::Call => write_text(buf, end, "call"),
        What::Ret => write_text(buf, end, "ret"),
        What::Raise => write_text(buf, end, "raise"),
        What::Take => write_text(buf, end, "take"),
        What::Save => write_text(buf, end, "save"),
        What::Busy => write_text(buf, end, "busy"),
        What::Sys => write_text(buf, end, "sys"),
        What::Claim => write_text(buf, end, "claim"),
        What::Born => write_text(buf, end, "born"),
        What::Wrote => write_text(buf, end, "wrote"),
        What::Signal => write_text(buf, end, "signal"),
        What::Ignore => write_text(buf, end, "ignore"),
        What::SigReturn => write_text(buf, end, "sigret"),
        What::Fault(name) => write_fault(buf, end, name),
        What::Kill => write_text(buf, end, "kill"),
    }
}

/// Writes a number's sixteen digits after a space so that they end at `end`, and answers where the
/// space is.
#[inline(always)]
fn write_spaced(buf: &mut [u8], end: usize, number: u64) -> usize
    requires { (17 ≤ end) × (end ≤ length buf.old) }
    ensures start { result + 17 ≡ end }
    ensures written { drop result buf.new ≡ spaced (hex16 number) ++ drop end buf.old }
{
    let at = write_hex(buf, end, number);
    write_byte(buf, at, b' ')
}

/// Writes a record of the thread of this number so that its line ends at `end`, and answers where it
/// starts.
fn write_record(buf: &mut [u8], end: usize, number: u64, noted: &Record) -> usize
    requires { (90 ≤ end) × (end ≤ length buf.old) }
    ensures start { end ≤ result + 90 }
    ensures within { result ≤ end }
    ensures written { drop result buf.new ≡ record_text number noted.now ++ drop end buf.old }
{
    let at = write_byte(buf, end, b'\n');
    let at = write_spaced(buf, at, noted.b);
    let at = write_spaced(buf, at, noted.a);
    let at = write_decimal(buf, at, u64::from(noted.code));
    let at = write_byte(buf, at, b' ');
    let at = write_spaced(buf, at, noted.rip);
    let at = write_name(buf, at, noted.what);
    let at = write_byte(buf, at, b' ');
    write_decimal(buf, at, number)
}

/// Writes records of the thread of this number to the end of a buffer, and answers where they start.
fn write_records(buf: &mut [u8], number: u64, records: &[Record]) -> usize
    requires { 90 * length records.now ≤ length buf.old }
    ensures within { result ≤ length buf.old }
    ensures written { drop result buf.new ≡ flat_map (record_text number) records.now }
{
    let mut at = buf.len();
    for place in (0..records.len()).rev() {
        at = write_record(buf, at, number, &records[place]);
    }
    at
}

/// Appends the records from a place on, many in one piece.
pub(crate) fn put_records(
    alloc: Global,
    out: &mut Bytes,
    number: u64,
    records: &Records,
    from: usize,
) -> Result<(), NoMemory>
    requires { from ≤ length records.now }
    ensures { OnOk result (out.new ≡ out.old ++ flat_map (record_text number) (drop from records.now)) }
{
    let mut buf = [0; PIECE * LINE];
    let mut rest = &records.as_slice()[from..];
    out.reserve(alloc, LINE.saturating_mul(rest.len()));
    'pieces: while !rest.is_empty() {
        let (piece, after) = rest.split_at(rest.len().min(PIECE));
        let at = write_records(&mut buf, number, piece);
        out.extend(alloc, &buf[at..])?;
        rest = after;
    }
    Ok(())
}
