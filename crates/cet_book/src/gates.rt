//! The supervisor stacks of the book: which thread holds which.

ghost use Rattle.std.specs.List.{position_or_len};
ghost use Rattle.std.specs.Prelude.{◌≡◌, List, length};
ghost use Rattle.cet_book.specs.Book.{holds_stack, is_free, busied, freed};
ghost use Rattle.cet_book.specs.Book.{Region as RegionData};
ghost use Rattle.cet_book.specs.Events.{Applied, book_of};

use crate::events::BookFault;

/// The thread holds the supervisor stack.
fn holds(gate: Option<u8>, thread: u8) -> bool
    ensures { result ≡ holds_stack thread gate }
{
    match gate {
        Some(owner) => owner == thread,
        None => false,
    }
}

/// No thread holds the supervisor stack.
fn is_free(gate: Option<u8>) -> bool
    ensures { result ≡ is_free gate }
{
    gate.is_none()
}

/// The number of the supervisor stack that a thread holds, or that of all.
fn held_by(gates: &[Option<u8>], thread: u8) -> usize
    ensures { result ≡ position_or_len (holds_stack thread) gates.now }
{
    for (at, gate) in gates.iter().enumerate() {
        if holds(*gate, thread) {
            return at;
        }
    }
    gates.len()
}

/// A thread comes to hold a supervisor stack.
pub(crate) fn busied(gates: &mut [Option<u8>], thread: u8, stack: u8) -> Result<(), BookFault>
    requires { length gates.old ≡ 8 }
    ensures { (regions : List RegionData) → Applied result (book_of regions gates.old) (book_of regions gates.new) (busied thread stack (book_of regions gates.old)) }
{
    let at = stack as usize;
    if at >= gates.len() {
        return Err(BookFault::NotLegal);
    }
    if !is_free(gates[at]) {
        return Err(BookFault::NotLegal);
    }
    if held_by(gates, thread) < gates.len() {
        return Err(BookFault::NotLegal);
    }
    gates[at] = Some(thread);
    Ok(())
}

/// A thread gives its supervisor stack back.
pub(crate) fn freed(gates: &mut [Option<u8>], thread: u8, stack: u8) -> Result<(), BookFault>
    ensures { (regions : List RegionData) → Applied result (book_of regions gates.old) (book_of regions gates.new) (freed thread stack (book_of regions gates.old)) }
{
    let at = stack as usize;
    if at >= gates.len() {
        return Err(BookFault::NotLegal);
    }
    if !holds(gates[at], thread) {
        return Err(BookFault::NotLegal);
    }
    gates[at] = None;
    Ok(())
}
