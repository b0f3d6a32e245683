// One line of a definition: what it says, or its fault.
ghost use Rattle.std.specs.Prelude.{◌≡◌, ◌<◌, [], length, drop, IfOk, slice_index_or};
ghost use Rattle.kinds.specs.Fields.{Reads, admitted};
ghost use Rattle.std.specs.Option.{ok_or};
ghost use Rattle.text.specs.declared.fault.Cause.TheVariants.{BadField};
ghost use Rattle.text.specs.Faults.{fault_at};
ghost use Rattle.text.specs.Split.{split};
ghost use Rattle.definitions.specs.declared.words.Word.TheVariants.{Chronicle, Var, Bound};
ghost use Rattle.definitions.specs.Lines.{small, valued, item_of};
ghost use Rattle.definitions.specs.Items.{Says};

use crate::words::{Word, has_fields, word_at};
use kinds::behind::read_behind;
use kinds::kind::Kind;
use text::fault::{Cause, Fault, Place};
use text::name::Name;
use text::number::number;
use text::parts::{TAB, count, part};

// The stamp of `to` is at most that of `from` plus `most`. Variables count from 0.
#[derive(Clone, Copy, Debug, PartialEq, Eq)]
pub struct Limit<K> {
    pub from: usize,
    pub to: usize,
    pub most: K,
}

#[derive(Clone, Copy, Debug, PartialEq, Eq)]
pub enum Item<K> {
    Opening(usize),
    Variable(Name),
    Bounding(Limit<K>),
    Closing,
}

// A slot or a variable, 1 to 8, in field `k` of a line, counted from 0.
fn read_small(text: &[u8], k: usize, place: Place) -> Result<usize, Fault>
    ensures value { result ≡ ok_or (small (slice_index_or (split 9 text.now) k [])) (fault_at BadField place.line place.field) }
    ensures some { IfOk result (λ n. 0 < n) }
{
    let n = number(part(text, TAB, k), 1, 8, place)?;
    // A conversion that may fail would name an error that cannot come.
    Ok(n as usize)
}

fn read_opening<K: Kind>(text: &[u8], line: usize) -> Result<Item<K>, Fault>
    ensures { Says K.value (valued K.fields K.means K.bound line Chronicle (split 9 text.now)) result }
{
    let slot = read_small(text, 1, Place { line, field: 2 })?;
    Ok(Item::Opening(slot))
}

fn read_variable<K: Kind>(text: &[u8], line: usize) -> Result<Item<K>, Fault>
    ensures { Says K.value (valued K.fields K.means K.bound line Var (split 9 text.now)) result }
{
    let name = Name::read(part(text, TAB, 1), Place { line, field: 2 })?;
    Ok(Item::Variable(name))
}

// The element of a bound, in the fields after the first three: read, and admitted.
fn read_most<K: Kind>(text: &[u8], place: Place) -> Result<K, Fault>
    ensures { 3 < length (split 9 text.now) → Reads K.value (admitted K.bound (K.means (drop 3 (split 9 text.now)))) (fault_at BadField place.line place.field) result }
{
    read_behind(text, 3, place, K::is_bound)
}

fn read_limit<K: Kind>(text: &[u8], line: usize) -> Result<Item<K>, Fault>
    ensures { 3 < length (split 9 text.now) → Says K.value (valued K.fields K.means K.bound line Bound (split 9 text.now)) result }
{
    let i = read_small(text, 1, Place { line, field: 2 })?;
    let j = read_small(text, 2, Place { line, field: 3 })?;
    let most = read_most(text, Place { line, field: 4 })?;
    Ok(Item::Bounding(Limit {
        from: i - 1,
        to: j - 1,
        most,
    }))
}

// What a line of a definition says: its word, the number of its fields, then the fields from the left.
pub fn read_item<K: Kind>(text: &[u8], line: usize) -> Result<Item<K>, Fault>
    ensures { Says K.value (item_of K.fields K.means K.bound line (split 9 text.now)) result }
{
    let place = Place { line, field: 0 };
    let word = word_at(line, part(text, TAB, 0)).ok_or(place.fault(Cause::BadLine))?;
    if !has_fields::<K>(word, count(text, TAB)) {
        return Err(place.fault(Cause::BadLine));
    }
    match word {
        Word::Chronicle => read_opening(text, line),
        Word::Var => read_variable(text, line),
        Word::Bound => read_limit(text, line),
        Word::End => Ok(Item::Closing),
    }
}
