//! The values read so far in a row.

ghost use Rattle.std.specs.Prelude.{◌≡◌, ◌-◌, ◌<◌, ◌≤◌, drop, length, slice_index};
ghost use Rattle.cet_page.specs.ValsData.{vals_after, no_vals, most_values, most_accesses};

use crate::cursors::Cursor;
use cet_words::Access;
use std::marker::Model;

/// How many values a row may keep; the rows that keep most keep 7.
const MOST_KEPT: usize = 32;

/// The values kept in a row, at most 32, and the number of its accesses so far, at most 4,096; the longest
/// row makes 1,032. All accesses but stores keep their value.
#[derive(Drop)]
pub struct Vals {
    kept: [u64; MOST_KEPT],
    used: usize,
    accesses: u32,
}

impl Model for Vals {
    ghost use Rattle.std.specs.Prelude.{take, ◌≤◌};
    ghost use Rattle.cet_page.specs.ValsData.{ValsData, most_values, most_accesses};

    ghost Value = { ValsData };

    ghost view = { λ v. record { accesses = v.accesses; values = take v.used v.kept } };

    ghost invariant = { λ v. (v.used ≤ most_values) × (v.accesses ≤ most_accesses) };
}

impl Vals {
    /// No value and no access.
    pub fn new() -> Vals
        ensures { result ≡ no_vals }
    {
        Vals {
            kept: [0; MOST_KEPT],
            used: 0,
            accesses: 0,
        }
    }

    /// Forgets all values and accesses.
    pub fn clear(&mut self)
        ensures { self.new ≡ no_vals }
    {
        self.used = 0;
        self.accesses = 0;
    }

    /// Counts an access, and keeps its value unless it is a store.
    pub fn add(&mut self, access: Access, value: u64)
        requires room { length self.old.values < most_values }
        requires more { self.old.accesses < most_accesses }
        ensures { self.new ≡ vals_after self.old access value }
    {
        self.accesses += 1;
        match access {
            Access::Store(_, _) => {}
            _ => {
                self.kept[self.used] = value;
                self.used += 1;
            }
        }
    }

    /// The number of accesses.
    pub fn done(&self) -> u32
        ensures { result ≡ self.now.accesses }
    {
        self.accesses
    }

    /// The number of values kept.
    pub fn count(&self) -> u32
        ensures { result ≡ length self.now.values }
    {
        self.used as u32
    }

    /// The value kept at this place, counted from 0.
    pub fn value(&self, at: u32) -> u64
        requires { at < length self.now.values }
        ensures { result ≡ slice_index self.now.values at }
    {
        self.kept[at as usize]
    }

    /// The place behind the first accesses, so many, each of which kept its value.
    pub fn behind(&self, count: u32) -> Cursor<'_>
        requires accesses { count ≤ self.now.accesses }
        requires values { count ≤ length self.now.values }
        ensures left { result.left ≡ self.now.accesses - count }
        ensures rest { result.rest.now ≡ drop count self.now.values }
    {
        Cursor {
            left: self.accesses - count,
            rest: &self.kept[count as usize..self.used],
        }
    }

    /// The place before the first access.
    pub fn start(&self) -> Cursor<'_>
        ensures left { result.left ≡ self.now.accesses }
        ensures rest { result.rest.now ≡ self.now.values }
    {
        Cursor {
            left: self.accesses,
            rest: &self.kept[..self.used],
        }
    }
}
