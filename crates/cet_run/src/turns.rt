//! Turns by a schedule: given ones, by Robin, and by the numbers of Mix.

ghost use Rattle.std.specs.Prelude.{◌≡◌, [], ◌<◌, ◌/◌, ◌%◌, ◌^◌, length, slice_get, None, OnOk, IfOk, IfSome};
ghost use Rattle.std.specs.Option.{option_or};
ghost use Rattle.cet_page.specs.Machine.{machine, run, step};
ghost use Rattle.cet_run.specs.Schedule.{mixed};
ghost use Rattle.cet_run.specs.TracedThreads.{AreGuests, left_to, threads_of};
ghost use Rattle.cet_run.specs.Turns.{Mixed, Reached, Robined, TurnedAt};

use crate::guests::Guests;
use cet_words::{Job, NoMemory, Perform};
use std::alloc::Global;

/// The multiplier and the increment of Mix's numbers.
const MIX_MULTIPLIER: u64 = 6_364_136_223_846_793_005;

const MIX_INCREMENT: u64 = 1_442_695_040_888_963_407;

/// Mix's number after this one.
fn mixed(number: u64) -> u64
    ensures { result ≡ mixed number }
{
    number
        .wrapping_mul(MIX_MULTIPLIER)
        .wrapping_add(MIX_INCREMENT)
}

/// The place of the live thread that Mix picks by a number: its upper bits, by the number of live ones.
fn picked(number: u64, live: usize) -> usize
    requires { 0 < live }
    ensures picked { result ≡ number / 2 ^ 33 % live }
    ensures range { result < live }
{
    (number >> 33) as usize % live
}

/// The place of the live thread that Robin gives the next turn: this one, or the first where it is
/// past the last.
fn next_place(live: &[usize], place: usize) -> Option<usize>
    ensures turn { IfSome result (λ at. option_or (slice_get live.now place) (slice_get live.now 0) ≡ slice_get live.now at) }
    ensures range { IfSome result (λ at. at < length live.now) }
    ensures none { result ≡ None → live.now ≡ [] }
{
    if place < live.len() {
        Some(place)
    } else if live.is_empty() {
        None
    } else {
        Some(0)
    }
}

/// A turn of a live thread by its place, and the place of the live thread after it.
#[inline(always)]
fn turn_at<P: Perform>(
    alloc: Global,
    job: &Job,
    words: &mut P,
    guests: &mut Guests,
    place: usize,
) -> Result<usize, NoMemory>
    requires guests { AreGuests job.now guests.old.all.items guests.old.live.items }
    requires reached { Reached job.now (machine (P.words words.old) (threads_of guests.old.all.items)) }
    requires range { place < length guests.old.live.items }
    ensures turned { IfOk result (λ next. TurnedAt job.now (machine (P.words words.old) (threads_of guests.old.all.items)) (machine (P.words words.new) (threads_of guests.new.all.items)) place next) }
    ensures guests { OnOk result (AreGuests job.now guests.new.all.items guests.new.live.items) }
    ensures falls { OnOk result (left_to job.now guests.new.all.items < left_to job.now guests.old.all.items) }
{
    let at = guests.live[place];
    guests.turn(alloc, job, words, at)?;
    if guests.goes_on(at) {
        Ok(place + 1)
    } else {
        Ok(place)
    }
}

/// Gives the threads turns by Robin until each has ended.
#[inline(never)]
pub(crate) fn give_robin<P: Perform>(
    alloc: Global,
    job: &Job,
    words: &mut P,
    guests: &mut Guests,
) -> Result<(), NoMemory>
    requires guests { AreGuests job.now guests.old.all.items guests.old.live.items }
    requires reached { Reached job.now (machine (P.words words.old) (threads_of guests.old.all.items)) }
    ensures ran { OnOk result (Robined job.now (machine (P.words words.old) (threads_of guests.old.all.items)) (machine (P.words words.new) (threads_of guests.new.all.items))) }
    ensures guests { OnOk result (AreGuests job.now guests.new.all.items guests.new.live.items) }
{
    let mut next = 0;
    while let Some(place) = next_place(&guests.live, next) {
        next = turn_at(alloc, job, words, guests, place)?;
    }
    Ok(())
}

/// Gives the threads turns by the numbers of Mix until each has ended.
#[inline(never)]
pub(crate) fn give_mix<P: Perform>(
    alloc: Global,
    job: &Job,
    words: &mut P,
    guests: &mut Guests,
    seed: u64,
) -> Result<(), NoMemory>
    requires guests { AreGuests job.now guests.old.all.items guests.old.live.items }
    requires reached { Reached job.now (machine (P.words words.old) (threads_of guests.old.all.items)) }
    ensures ran { OnOk result (Mixed job.now seed (machine (P.words words.old) (threads_of guests.old.all.items)) (machine (P.words words.new) (threads_of guests.new.all.items))) }
    ensures guests { OnOk result (AreGuests job.now guests.new.all.items guests.new.live.items) }
{
    let mut number = seed;
    'turns: while !guests.live.is_empty() {
        number = mixed(number);
        let place = picked(number, guests.live.len());
        turn_at(alloc, job, words, guests, place)?;
    }
    Ok(())
}

/// A given turn. One of a thread that isn't born or has ended changes nothing.
fn give_turn<P: Perform>(
    alloc: Global,
    job: &Job,
    words: &mut P,
    guests: &mut Guests,
    number: u32,
) -> Result<(), NoMemory>
    requires guests { AreGuests job.now guests.old.all.items guests.old.live.items }
    requires reached { Reached job.now (machine (P.words words.old) (threads_of guests.old.all.items)) }
    ensures step { OnOk result (machine (P.words words.new) (threads_of guests.new.all.items) ≡ step job.now (machine (P.words words.old) (threads_of guests.old.all.items)) number) }
    ensures guests { OnOk result (AreGuests job.now guests.new.all.items guests.new.live.items) }
{
    let at = number as usize;
    if guests.goes_on(at) {
        guests.turn(alloc, job, words, at)
    } else {
        Ok(())
    }
}

/// Gives the threads the turns of a list of their numbers.
#[inline(never)]
pub(crate) fn give_turns<P: Perform>(
    alloc: Global,
    job: &Job,
    words: &mut P,
    guests: &mut Guests,
    schedule: &[u32],
) -> Result<(), NoMemory>
    requires guests { AreGuests job.now guests.old.all.items guests.old.live.items }
    requires reached { Reached job.now (machine (P.words words.old) (threads_of guests.old.all.items)) }
    ensures ran { OnOk result (machine (P.words words.new) (threads_of guests.new.all.items) ≡ run job.now (machine (P.words words.old) (threads_of guests.old.all.items)) schedule.now) }
    ensures guests { OnOk result (AreGuests job.now guests.new.all.items guests.new.live.items) }
{
    for number in schedule {
        give_turn(alloc, job, words, guests, *number)?;
    }
    Ok(())
}
