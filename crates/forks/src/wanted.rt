// Which variables of each slot the type of an event fits.
ghost use Rattle.std.specs.Prelude.{◌≡◌, ℕ, ◌<◌, ◌≤◌, true, false, Decides};
ghost use Rattle.text.specs.Spelled.{spelled};
ghost use Rattle.slots.specs.Slots.{types_in};
ghost use Rattle.slots.specs.Variables.{HasType};
ghost use Rattle.rows.specs.Filled.{is_in};
ghost use Rattle.forks.specs.Wanting.{mask_of, Wants};

use rows::filled::Filled;
use slots::table::Slots;
use std::array;
use text::name::Name;

// A set of variables for each of the slots 1 to 8.
#[derive(Clone, Copy, Debug, PartialEq, Eq)]
pub struct Wanted {
    masks: [Filled; 8],
}

// The variables of a slot that are of that type.
fn mask<'a>(slots: &'a Slots, slot: usize, name: &Name) -> Filled
    ensures { Wants (types_in slots.now slot) (spelled name.now) result.bits }
{
    let mut all = Filled::none();
    // A fold over a filter would hide in two closures what one line says here.
    for j in 0..8 {
        if slots.has_type(slot, j, name) {
            all = all.with(j);
        }
    }
    all
}

impl Wanted {
    pub fn new(slots: &Slots, name: &Name) -> Wanted
        ensures { (s : ℕ) → 1 ≤ s → s ≤ 8 → Wants (types_in slots.now s) (spelled name.now) (mask_of result s) }
    {
        Wanted {
            masks: array::from_fn(|i| mask(slots, i + 1, name)),
        }
    }

    // The variables of one slot; none outside 1 to 8.
    pub fn of(&self, slot: usize) -> Filled
        ensures { (j : ℕ) → is_in result.bits j ≡ is_in (mask_of self.now slot) j }
    {
        slot.checked_sub(1)
            .and_then(|at| self.masks.get(at))
            .copied()
            .unwrap_or(Filled::none())
    }

    // Whether no variable of any slot is of the type.
    pub fn is_none(&self) -> bool
        ensures { Decides result ((s j : ℕ) → 1 ≤ s → s ≤ 8 → is_in (mask_of self.now s) j ≡ false) }
    {
        self.masks.iter().all(|mask| mask.is_none())
    }
}
