// The first line of a definition, which tells its slot.
ghost use Rattle.std.specs.Prelude.{◌≡◌, if◌then◌else◌, Ok, Err};
ghost use Rattle.text.specs.declared.fault.Cause.TheVariants.{SlotLoaded};
ghost use Rattle.text.specs.Faults.{fault_at};
ghost use Rattle.definitions.specs.Openings.{Opens};
ghost use Rattle.definitions.specs.Reading.{is_loaded, reading_of};

use crate::item::{Item, read_item};
use crate::loaded::Loaded;
use kinds::kind::Kind;
use text::fault::{Cause, Fault, Place};
use text::lines::line_at;

// A slot that the first line says, if it is empty.
fn if_empty(slot: usize, loaded: &Loaded) -> Result<usize, Fault>
    ensures { result ≡ (if is_loaded loaded.now.0 slot then Err (fault_at SlotLoaded 1 2) else Ok slot) }
{
    if loaded.is_loaded(slot) {
        return Err(Place { line: 1, field: 2 }.fault(Cause::SlotLoaded));
    }
    Ok(slot)
}

// The slot that the definition at the front of a text is for, by its first line alone.
pub fn opening_slot<K: Kind>(text: &[u8], loaded: &Loaded) -> Result<usize, Fault>
    ensures { Opens loaded.now.0 (reading_of K.fields K.means K.bound loaded.now.0 text.now) result }
{
    let line = line_at(text, 0, 1)?;
    let item = read_item::<K>(line, 1)?;
    let Item::Opening(slot) = item else {
        return Err(Place { line: 1, field: 0 }.fault(Cause::BadLine));
    };
    if_empty(slot, loaded)
}
