// The eight slots together, counted from 1. A number outside 1 to 8 stands for a slot that is always empty.
ghost use Rattle.std.specs.Prelude.{◌≡◌, ℕ, is_some, option_and_then, Some, None, Decides, MatchBool};
ghost use Rattle.text.specs.Spelled.{spelled};
ghost use Rattle.definitions.specs.TypeNames.{type_names};
ghost use Rattle.slots.specs.Variables.{types_of, width, HasType};
ghost use Rattle.slots.specs.Slots.{is_slot, types_in, loaded_in, Changed, Vacates, refusal_number};

use crate::slot::Slot;
use definitions::loaded::Loaded;
use definitions::types::Types;
use std::array::from_fn;
use text::name::Name;

pub const SLOTS: usize = 8;

#[derive(Debug, Drop, PartialEq, Eq)]
pub struct Slots {
    records: [Slot; 8],
}

/// The refusal to vacate a slot that is not loaded.
#[derive(Clone, Copy, Debug, PartialEq, Eq)]
pub struct NotLoaded;

impl From<NotLoaded> for u8 {
    ghost from_gives = { λ refusal number. number ≡ refusal_number refusal };

    fn from(_refusal: NotLoaded) -> u8 {
        20
    }
}

impl Slots {
    pub fn new() -> Slots
        ensures { (s : ℕ) → types_in result s ≡ None }
    {
        Slots {
            records: [Slot::empty(); 8],
        }
    }

    // The record of a slot; absent outside 1 to 8.
    fn record(&self, slot: usize) -> Option<&Slot>
        ensures { types_in self.now slot ≡ option_and_then (λ own. types_of own.now) result }
    {
        self.records.get(slot.checked_sub(1)?)
    }

    pub fn is_loaded(&self, slot: usize) -> bool
        ensures { result ≡ is_some (types_in self.now slot) }
    {
        self.record(slot).is_some_and(|own| own.is_loaded())
    }

    // Which of the slots are loaded, as a definition's reader asks it.
    pub fn loaded(&self) -> Loaded
        ensures { result.0 ≡ loaded_in self.now }
    {
        Loaded(from_fn(|i| self.is_loaded(i + 1)))
    }

    // Loads a slot with a chronicle's variables; outside 1 to 8 there is none to load.
    pub fn fill(&mut self, slot: usize, types: Types)
        ensures { MatchBool (is_slot slot) (Changed slot (Some (type_names types)) self.old self.new) (self.new ≡ self.old) }
    {
        if (1..=SLOTS).contains(&slot) {
            self.records[slot - 1].fill(types);
        }
    }

    pub fn vacate(&mut self, slot: usize) -> Result<(), NotLoaded>
        ensures { Vacates slot self.old self.new result }
    {
        if !self.is_loaded(slot) {
            return Err(NotLoaded);
        }
        self.records[slot - 1].vacate();
        Ok(())
    }

    // The number of a slot's variables; an empty slot has none.
    pub fn width(&self, slot: usize) -> usize
        ensures { result ≡ width (types_in self.now slot) }
    {
        self.record(slot).map_or(0, |own| own.width())
    }

    // Whether variable i of a slot, counted from 0, is of that type.
    pub fn has_type(&self, slot: usize, i: usize, name: &Name) -> bool
        ensures { Decides result (HasType (types_in self.now slot) i (spelled name.now)) }
    {
        self.record(slot).is_some_and(|own| own.has_type(i, name))
    }
}
