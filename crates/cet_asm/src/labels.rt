//! The symbols of a text: where its labels stand.

ghost use Rattle.std.specs.Prelude.{◌≡◌, ◌<◌, ◌^◌, OnOk, IfOk, IfSome, is_some};
ghost use Rattle.std.specs.List.{list_all};
ghost use Rattle.cet_syntax.specs.Tokens.{tokens};
ghost use Rattle.cet_syntax.specs.Line.{labels_of, quads_in};
ghost use Rattle.cet_asm.specs.Program.{label_address, symbol_address, knows, knows_item, knows_fixups};
ghost use Rattle.cet_syntax.specs.Views.{name_view, fixups_view, item_view};
ghost use Rattle.cet_asm.specs.Filling.{address_for, resolved_in, AreSmall};
ghost use Rattle.cet_asm.specs.Passes.{place_in, with_label, with_labels, has_one};
ghost use Rattle.cet_asm.specs.Places.{symbols_view, IsSmall};

use crate::filling::ResolvedFixups;
use crate::layout::{TEXT_START, address_of};
use crate::sections::SymbolValue;
use cet_syntax::{Fixups, Item, next_label, next_quad};
use cet_words::NoMemory;
use std::alloc::Global;
use std::collections::BTreeMap;

/// The places of all labels of a text, and how many bytes its text section has.
#[derive(Drop)]
pub(crate) struct Labels<'a> {
    pub places: BTreeMap<&'a [u8], SymbolValue>,
    pub text_size: u64,
}

/// Gives a label a place where it has none. The answer says whether it has one already.
fn define<'a>(
    places: &mut BTreeMap<&'a [u8], SymbolValue>,
    name: &'a [u8],
    symbol: SymbolValue,
) -> Result<bool, NoMemory>
    ensures known { IfOk result (λ known. known ≡ is_some (place_in places.old name.now)) }
    ensures places { OnOk result (place_in places.new ≡ with_label (place_in places.old) symbol name.now) }
{
    if places.contains_key(&name) {
        return Ok(true);
    }
    places.insert(name, symbol)?;
    Ok(false)
}

/// Gives the labels at the front of a line a place. The answer says whether one of them has one already.
pub(crate) fn define_all<'a>(
    places: &mut BTreeMap<&'a [u8], SymbolValue>,
    text: &'a [u8],
    symbol: SymbolValue,
) -> Result<bool, NoMemory>
    ensures known { IfOk result (λ known. known ≡ has_one (place_in places.old) symbol (labels_of text.now)) }
    ensures places { OnOk result (place_in places.new ≡ with_labels (place_in places.old) symbol (labels_of text.now)) }
{
    let mut known = false;
    let mut rest = text;
    while let Some((name, after)) = next_label(rest) {
        known = define(places, name, symbol)? || known;
        rest = after;
    }
    Ok(known)
}

/// The address of a label, where it is defined.
#[tactic(auto, unfolding(crate::specs::Program::label_address))]
pub(crate) fn label_address<'a>(labels: &Labels<'a>, name: &'a [u8]) -> Option<u64>
    requires { IsSmall (symbols_view labels.now) }
    ensures address { result ≡ label_address (symbols_view labels.now) name.now }
    ensures small { IfSome result (λ a. a < 2 ^ 24) }
{
    match labels.places.get(&name) {
        Some(symbol) => Some(address_of(labels.text_size, *symbol)),
        None => None,
    }
}

/// The address of a label, or where the text starts.
pub(crate) fn symbol_address<'a>(labels: &Labels<'a>, name: &'a [u8]) -> u64
    requires { IsSmall (symbols_view labels.now) }
    ensures address { result ≡ symbol_address (symbols_view labels.now) name.now }
    ensures small { result < 2 ^ 24 }
{
    label_address(labels, name).unwrap_or(TEXT_START)
}

fn address_for<'a>(labels: &Labels<'a>, name: Option<&'a [u8]>) -> Option<u64>
    requires { IsSmall (symbols_view labels.now) }
    ensures address { result ≡ address_for (symbol_address (symbols_view labels.now)) (name_view name.entry) }
    ensures small { IfSome result (λ a. a < 2 ^ 24) }
{
    match name {
        Some(name) => Some(symbol_address(labels, name)),
        None => None,
    }
}

/// The addresses of the labels that an instruction uses.
pub(crate) fn resolved_in<'a>(labels: &Labels<'a>, fixups: Fixups<'a>) -> ResolvedFixups
    requires { IsSmall (symbols_view labels.now) }
    ensures resolved { result ≡ resolved_in (symbol_address (symbols_view labels.now)) (fixups_view fixups.entry) }
    ensures small { AreSmall result }
{
    ResolvedFixups {
        displacement: address_for(labels, fixups.displacement),
        immediate: address_for(labels, fixups.immediate),
        target: address_for(labels, fixups.target),
    }
}

fn knows<'a>(labels: &Labels<'a>, name: Option<&'a [u8]>) -> bool
    requires { IsSmall (symbols_view labels.now) }
    ensures { result ≡ knows (symbols_view labels.now) (name_view name.entry) }
{
    match name {
        Some(name) => label_address(labels, name).is_some(),
        None => true,
    }
}

fn knows_item<'a>(labels: &Labels<'a>, item: Item<'a>) -> bool
    requires { IsSmall (symbols_view labels.now) }
    ensures { result ≡ knows_item (symbols_view labels.now) (item_view item.entry) }
{
    match item {
        Item::Known(_) => true,
        Item::Named(name) => label_address(labels, name).is_some(),
    }
}

/// Whether all labels of a list are defined.
pub(crate) fn knows_items<'a>(labels: &Labels<'a>, text: &'a [u8]) -> bool
    requires { IsSmall (symbols_view labels.now) }
    ensures { result ≡ list_all (knows_item (symbols_view labels.now)) (quads_in (tokens text.now)) }
{
    let mut rest = text;
    while let Some((item, after)) = next_quad(rest) {
        if !knows_item(labels, item) {
            return false;
        }
        rest = after;
    }
    true
}

/// Whether all labels that an instruction uses are defined.
pub(crate) fn knows_fixups<'a>(labels: &Labels<'a>, fixups: Fixups<'a>) -> bool
    requires { IsSmall (symbols_view labels.now) }
    ensures { result ≡ knows_fixups (symbols_view labels.now) (fixups_view fixups.entry) }
{
    knows(labels, fixups.displacement)
        && knows(labels, fixups.immediate)
        && knows(labels, fixups.target)
        && knows(labels, fixups.short)
}
