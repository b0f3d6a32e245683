// A definition is read into an empty slot: its variables into the slot's record, its closed bounds into the slot's part of the lent entries.
ghost use Rattle.std.specs.Prelude.{◌≡◌, ◌-◌, ◌*◌, ◌<◌, ◌≤◌, length, IfOk, nat_le};
ghost use Rattle.text.specs.declared.fault.Cause.TheVariants.{ShortMemory};
ghost use Rattle.text.specs.Faults.{fault_at};
ghost use Rattle.network.specs.Steps.{Light};
ghost use Rattle.definitions.specs.Loading.{Loads as Reads};
ghost use Rattle.definitions.specs.Reading.{reading_of};
ghost use Rattle.definitions.specs.TypeNames.{type_names};
ghost use Rattle.slots.specs.Loads.{slot_table, OthersKept, Loads};

use crate::table::Slots;
use definitions::loaded::Loaded;
use definitions::opening::opening_slot;
use definitions::reader::{Definition, read};
use kinds::bound::Bound;
use kinds::kind::Kind;
use text::fault::{Cause, Fault, Place};

/// How many closed bounds are lent for the eight slots.
pub const ENTRIES: usize = 512;

/// How many of them are for one slot.
pub const SLOT_ENTRIES: usize = 64;

// Reads the definition at the front of a text, and closes its bounds in the part of a slot.
fn read_into<K: Kind>(
    entries: &mut [Bound<K>],
    slot: usize,
    text: &[u8],
    loaded: &Loaded,
) -> Result<Definition, Fault>
    requires one { 1 ≤ slot }
    requires eight { slot ≤ 8 }
    requires room { 512 ≤ length entries.old }
    ensures within { IfOk result (λ x. (0 < x.used) × (x.used ≤ length text.now)) }
    ensures reads { Reads K.group K.value (reading_of K.fields K.means K.bound loaded.now.0 text.now) (slot_table slot entries.new) result }
    ensures light { IfOk result (λ x. Light K.value K.weight (length (type_names x.types)) 256 (slot_table slot entries.new)) }
    ensures others { OthersKept slot entries.old entries.new }
    ensures memory { length entries.new ≡ length entries.old }
{
    let start = SLOT_ENTRIES * (slot - 1);
    read(text, loaded, &mut entries[start..start + SLOT_ENTRIES])
}

// Loads the definition at the front of a text into its slot, and says how many bytes it has. Where it is refused,
// the part of an empty slot is free memory; no slot is changed, and no entry of a loaded one.
pub fn load_into<K: Kind>(
    slots: &mut Slots,
    entries: &mut [Bound<K>],
    text: &[u8],
) -> Result<usize, Fault>
    ensures { Loads K.Kind text.now slots.old slots.new entries.old entries.new result }
{
    if entries.len() < ENTRIES {
        return Err(Place { line: 0, field: 0 }.fault(Cause::ShortMemory));
    }
    let loaded = slots.loaded();
    let slot = opening_slot::<K>(text, &loaded)?;
    let definition = read_into(entries, slot, text, &loaded)?;
    slots.fill(slot, definition.types);
    Ok(definition.used)
}
