//! Where values lie: for each index one in a page, the others in a tree.
ghost use Rattle.std.specs.Prelude.{◌≡◌, ◌⊎◌, ◌↔◌, ℕ, ◌+◌, ◌-◌, ◌/◌, ◌<◌, ◌≤◌, IsTrue, true, max, is_some, Some, None, IfSome, IfNone, OnOk, OnErr, IsOk};
ghost use Rattle.std.specs.FinMap as map;
ghost use Rattle.name_space_base.specs.Pages.{HasPage, WantsPage, IsNextUsed};
ghost use Rattle.name_space_base.specs.High.{KeepsUsed};
ghost use Rattle.tagged_names.specs.Names.{IsFreshIndex, HasNoNeighbour};
ghost use Rattle.tagged_names.specs.Places.{placed, least_of, IsPlaced, IsOpen, IsReady, IsNextPlaced, joined};

use crate::NAMES;
use name_space_base::{High, Pages};
use std::alloc::{AllocError, Global};
use std::marker::Model;

// The least index that is in no page.
const FIRST_HIGH: u32 = 65_536;

// A name in the place of its index, and the value under it.
#[derive(Clone, Copy)]
pub(crate) struct Slot<V: Copy> {
    name: u32,
    value: V,
}

/// Values by names, and a place for one name. Where a name of an index from 1 to 65,535 is in use, one
/// has the place of the index.
#[derive(Drop)]
pub(crate) struct Places<V: Copy> {
    slots: Pages<Slot<V>>,
    // The place is kept here, as another name may have that of the index.
    others: High<V>,
}

impl<V: Copy> Model for Places<V> {
    ghost use Rattle.tagged_names.specs.Places.{PlacesView, places_code};

    ghost Value = { PlacesView V };

    ghost coded = { places_code V.code };

    ghost use Rattle.tagged_names.specs.Places.{joined, IsReady};

    ghost view = { λ a. record { names = joined a.slots.values a.others.names 65536; room = a.slots.room; kept = a.others.kept } };

    ghost invariant = { λ a. IsReady a.slots a.others };
}

// The value under a name that has the place of its index.
#[inline(always)]
fn value_placed<V: Copy>(slots: &Pages<Slot<V>>, name: u32) -> Option<V>
    ensures { result ≡ placed slots.now.values name }
{
    let slot = slots.get(name / NAMES)?;
    if slot.name == name {
        return Some(slot.value);
    }
    None
}

// The least name from this one on that has the place of its index.
fn next_placed<V: Copy>(slots: &Pages<Slot<V>>, from: u32) -> Option<u32>
    requires { IsPlaced slots.now.values }
    ensures found { IfSome result (λ name. IsNextPlaced slots.now.values from name) }
    ensures none { IfNone result ((n : ℕ) → from ≤ n → placed slots.now.values n ≡ None) }
{
    let index = from / NAMES;
    if let Some(slot) = slots.get(index) {
        if from <= slot.name {
            return Some(slot.name);
        }
    }
    let next = slots.next_used(index + 1)?;
    let slot = slots.get(next)?;
    Some(slot.name)
}

// The lesser of two names that may not be there.
fn least(a: Option<u32>, b: Option<u32>) -> Option<u32>
    ensures { result ≡ least_of a b }
{
    match (a, b) {
        (Some(a), Some(b)) => Some(if b < a { b } else { a }),
        (Some(a), None) => Some(a),
        (None, b) => b,
    }
}

// A name of the index in the tree. Mostly no name is there, and nothing is searched.
#[inline(always)]
fn name_of_index<V: Copy>(others: &High<V>, index: u32) -> Option<u32>
    requires { index < 65536 }
    ensures found { IfSome result (λ name. (name / 256 ≡ index) × (map.contains_key others.now.names name ≡ true)) }
    ensures none { IfNone result ((n : ℕ) → n / 256 ≡ index → map.get others.now.names n ≡ None) }
{
    if others.is_empty() {
        return None;
    }
    let name = others.next(NAMES * index)?;
    if name / NAMES == index {
        return Some(name);
    }
    None
}

// Takes a name from the place of its index. Another name of the index takes the place, if there is one.
#[inline(always)]
fn vacate<V: Copy>(slots: &mut Pages<Slot<V>>, others: &mut High<V>, name: u32)
    requires ready { IsReady slots.old others.old }
    requires placed { is_some (placed slots.old.values name) ≡ true }
    ensures ready { IsReady slots.new others.new }
    ensures names { joined slots.new.values others.new.names 65536 ≡ map.remove (joined slots.old.values others.old.names 65536) name }
    ensures room { slots.new.room ≡ slots.old.room }
    ensures kept { others.new.kept ≡ others.old.kept }
{
    let index = name / NAMES;
    let Some(other) = name_of_index(others, index) else {
        slots.clear(index);
        return;
    };
    if let Some(value) = others.remove(other) {
        slots.set(index, Slot { name: other, value });
    }
}

// Whether the index lies in a page, and no name has its place.
#[inline(always)]
fn is_open<V: Copy>(slots: &Pages<Slot<V>>, index: u32) -> bool
    ensures { IsTrue result ↔ IsOpen slots.now.values index }
{
    0 < index && index < FIRST_HIGH && slots.get(index).is_none()
}

// Makes the page of an index, if it lies in one. An error means that memory was refused.
fn make_place<V: Copy>(slots: &mut Pages<Slot<V>>, index: u32) -> Result<(), AllocError>
    ensures values { slots.new.values ≡ slots.old.values }
    ensures room { slots.new.room ≡ slots.old.room }
    ensures more { (i : ℕ) → HasPage slots.old i → HasPage slots.new i }
    ensures ok { OnOk result (0 < index → index < 65536 → HasPage slots.new index) }
    ensures wanted { OnErr result ((0 < index) × (index < 65536) × WantsPage slots.old index) }
{
    if index == 0 || index >= FIRST_HIGH {
        return Ok(());
    }
    slots.make_page(index)?;
    Ok(())
}

impl<V: Copy> Places<V> {
    // No values. Allocates nothing.
    pub(crate) fn new(alloc: Global) -> Places<V>
        ensures { result ≡ record { names = map.empty; room = 0; kept = None } }
    {
        Places {
            slots: Pages::new(alloc),
            others: High::new(alloc),
        }
    }

    // The value under the name.
    #[inline(always)]
    pub(crate) fn get(&self, name: u32) -> Option<V>
        ensures { result ≡ map.get self.now.names name }
    {
        match value_placed(&self.slots, name) {
            Some(value) => Some(value),
            None => self.others.get(name),
        }
    }

    // The least index from 1 under which no name is in use.
    #[inline(always)]
    pub(crate) fn fresh_index(&self) -> u32
        requires { map.len self.now.names < 65535 }
        ensures fresh { IsFreshIndex self.now.names result }
        ensures small { result < 65536 }
    {
        self.slots.first_free()
    }

    // The least name from this one on that is in use.
    pub(crate) fn next(&self, from: u32) -> Option<u32>
        ensures found { IfSome result (λ name. IsNextUsed self.now.names from name) }
        ensures none { IfNone result ((n : ℕ) → from ≤ n → map.get self.now.names n ≡ None) }
    {
        least(next_placed(&self.slots, from), self.others.next(from))
    }

    // Makes room for so many more names of fresh indices. An error means that memory was refused.
    #[inline(always)]
    pub(crate) fn reserve(&mut self, additional: usize) -> Result<(), AllocError>
        ensures ok { OnOk result (self.new ≡ record self.old { room = max self.old.room additional }) }
        ensures err { OnErr result (self.new ≡ self.old) }
        ensures had_room { additional ≤ self.old.room → IsOk result }
    {
        self.slots.reserve(additional)
    }

    // The name for which a place is kept, if there is one.
    pub(crate) fn kept(&self) -> Option<u32>
        ensures { result ≡ self.now.kept }
    {
        self.others.kept()
    }

    // Whether the place is kept for the name.
    pub(crate) fn keeps(&self, name: u32) -> bool
        ensures { IsTrue result ↔ (self.now.kept ≡ Some name) }
    {
        self.others.keeps(name)
    }

    // Keeps the place for the name, and for no other. An error means that memory was refused.
    pub(crate) fn keep(&mut self, name: u32) -> Result<(), AllocError>
        ensures ok { OnOk result (self.new ≡ record self.old { kept = Some name }) }
        ensures err { OnErr result (self.new ≡ self.old) }
        ensures wanted { OnErr result (KeepsUsed self.old.names self.old.kept ⊎ HasNoNeighbour self.old.names self.old.kept (name / 256)) }
    {
        make_place(&mut self.slots, name / NAMES)?;
        self.others.keep(name)?;
        Ok(())
    }

    // Puts a value under an unused name: in the place of its index where that is free, else in the tree.
    // Takes no memory.
    #[inline(always)]
    pub(crate) fn insert(&mut self, name: u32, value: V)
        requires unused { map.get self.old.names name ≡ None }
        requires not_full { map.len self.old.names < 65535 }
        requires place { (IsFreshIndex self.old.names (name / 256) × (0 < self.old.room)) ⊎ (self.old.kept ≡ Some name) }
        ensures names { self.new.names ≡ map.insert self.old.names name value }
        ensures room { self.old.room - 1 ≤ self.new.room }
        ensures kept { self.new.kept ≡ self.old.kept }
    {
        let index = name / NAMES;
        if is_open(&self.slots, index) {
            self.slots.insert(index, Slot { name, value });
        } else {
            self.others.put(name, value);
        }
    }

    // Puts a value under a name of the fresh index. Takes no memory.
    #[inline(always)]
    pub(crate) fn insert_fresh(&mut self, name: u32, value: V)
        requires not_full { map.len self.old.names < 65535 }
        requires fresh { IsFreshIndex self.old.names (name / 256) }
        requires room { 0 < self.old.room }
        ensures names { self.new.names ≡ map.insert self.old.names name value }
        ensures room { self.old.room - 1 ≤ self.new.room }
        ensures kept { self.new.kept ≡ self.old.kept }
    {
        self.slots.insert(name / NAMES, Slot { name, value });
    }

    // Puts a value in place of the one under a name. Takes no memory.
    pub(crate) fn set(&mut self, name: u32, value: V)
        requires { map.contains_key self.old.names name ≡ true }
        ensures { self.new ≡ record self.old { names = map.insert self.old.names name value } }
    {
        if value_placed(&self.slots, name).is_some() {
            self.slots.set(name / NAMES, Slot { name, value });
        } else {
            self.others.put(name, value);
        }
    }

    // Takes out the value under a name. Takes no memory.
    #[inline(always)]
    pub(crate) fn remove(&mut self, name: u32) -> Option<V>
        ensures value { result ≡ map.get self.old.names name }
        ensures after { self.new ≡ record self.old { names = map.remove self.old.names name } }
    {
        let Some(value) = value_placed(&self.slots, name) else {
            return self.others.remove(name);
        };
        vacate(&mut self.slots, &mut self.others, name);
        Some(value)
    }
}
