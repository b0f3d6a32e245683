// A definition read from the front of a text.
ghost use Rattle.std.specs.Prelude.{◌≡◌, ◌<◌, ◌≤◌, length, IfOk, MatchBool, nat_le};
ghost use Rattle.network.specs.Steps.{Light};
ghost use Rattle.network.specs.Tables.{Beyond};
ghost use Rattle.text.specs.declared.fault.Cause.TheVariants.{Contradictory};
ghost use Rattle.text.specs.Faults.{fault_at};
ghost use Rattle.text.specs.Split.{split};
ghost use Rattle.definitions.specs.Reading.{is_closing, read_from, blank, reading_of};
ghost use Rattle.definitions.specs.Items.{said_by};
ghost use Rattle.definitions.specs.Drafts.{Empty, Held};
ghost use Rattle.definitions.specs.Grammar.{ReadAsMade};
ghost use Rattle.definitions.specs.Loading.{TooShort, Loads};
ghost use Rattle.definitions.specs.Steps.{Parses};
ghost use Rattle.definitions.specs.TypeNames.{type_names};

use crate::draft::Draft;
use crate::item::{Item, read_item};
use crate::loaded::Loaded;
use crate::types::Types;
use kinds::bound::Bound;
use kinds::kind::Kind;
use network::closing::close;
use network::table::empty;
use text::fault::{Cause, Fault, Place};
use text::lines::line_at;

// A definition that was read: its slot, the type names of its variables, the number of its bounds, its lines and bytes.
#[derive(Clone, Copy, Debug, PartialEq, Eq)]
pub struct Definition {
    pub slot: usize,
    pub types: Types,
    pub limits: usize,
    pub lines: usize,
    pub used: usize,
}

fn is_closing<K: Kind>(item: &Item<K>) -> bool
    ensures { result ≡ is_closing (said_by K.value item.now) }
{
    matches!(item, Item::Closing)
}

// The lines of a definition, from the first on; the table is empty at first and has its bounds at last.
fn read_lines<K: Kind>(
    text: &[u8],
    loaded: &Loaded,
    table: &mut [Bound<K>],
) -> Result<Definition, Fault>
    ensures kept { Beyond table.old table.new }
    ensures within { IfOk result (λ x. (0 < x.used) × (x.used ≤ length text.now)) }
    ensures parses { Empty K.group K.value table.old → Parses (read_from K.fields K.means K.bound loaded.now.0 1 0 blank (split 10 text.now)) (Held K.group K.value K.bound table.new) result }
{
    let mut draft = Draft::new(table);
    let mut used = 0;
    let mut number = 1;
    // Each line may be at fault, and the last one is told by what it says.
    'lines: loop {
        let line = line_at(text, used, number)?;
        let item = read_item(line, number)?;
        draft.accept(loaded, &item, number)?;
        used += line.len() + 1;
        if is_closing(&item) {
            return Ok(Definition {
                slot: draft.slot,
                types: draft.types,
                limits: draft.limits,
                lines: number,
                used,
            });
        }
        number += 1;
    }
}

// Reads one definition from the front of a text. The table then has the smallest bound given between each two variables;
// where the text is refused it is free memory. Beyond 64 entries the memory stays as it is.
pub fn parse<K: Kind>(
    text: &[u8],
    loaded: &Loaded,
    table: &mut [Bound<K>],
) -> Result<Definition, Fault>
    ensures kept { Beyond table.old table.new }
    ensures within { IfOk result (λ x. (0 < x.used) × (x.used ≤ length text.now)) }
    ensures parses { MatchBool (nat_le 64 (length table.old)) (Parses (reading_of K.fields K.means K.bound loaded.now.0 text.now) (Held K.group K.value K.bound table.new) result) (TooShort table.old table.new result) }
{
    empty(table).map_err(|_| Place { line: 0, field: 0 }.fault(Cause::ShortMemory))?;
    read_lines(text, loaded, table)
}

// Where the bounds of a definition contradict, its last line is at fault.
fn contradiction(definition: &Definition) -> Fault
    ensures { result ≡ fault_at Contradictory definition.now.lines 0 }
{
    Place {
        line: definition.lines,
        field: 0,
    }
    .fault(Cause::Contradictory)
}

// Reads one definition from the front of a text and closes its bounds in the table; the last line is at fault where they contradict.
pub fn read<K: Kind>(
    text: &[u8],
    loaded: &Loaded,
    table: &mut [Bound<K>],
) -> Result<Definition, Fault>
    ensures kept { Beyond table.old table.new }
    ensures within { IfOk result (λ x. (0 < x.used) × (x.used ≤ length text.now)) }
    ensures as_made { ReadAsMade K.fields K.means K.bound loaded.now.0 text.now }
    ensures loads { MatchBool (nat_le 64 (length table.old)) (Loads K.group K.value (reading_of K.fields K.means K.bound loaded.now.0 text.now) table.new result) (TooShort table.old table.new result) }
    ensures light { IfOk result (λ x. Light K.value K.weight (length (type_names x.types)) 256 table.new) }
{
    let definition = parse(text, loaded, table)?;
    close(table, definition.types.len()).map_err(|_| contradiction(&definition))?;
    Ok(definition)
}
