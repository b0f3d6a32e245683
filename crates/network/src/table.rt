// A table of bounds among eight variables over lent memory: emptied, tightened bound by bound, and read.
ghost use Rattle.std.specs.Prelude.{◌≡◌, ℕ, ◌<◌, ◌≤◌, ◌&&◌, length, is_ok, MatchResult, MatchOption, nat_le, nat_lt, slice_index_or};
ghost use Rattle.kinds.specs.Bounds.{meant};
ghost use Rattle.kinds.specs.declared.bound.Bound.TheVariants.{NoBound};
ghost use Rattle.network.specs.Tables.{cell, Inside, Beyond};
ghost use Rattle.network.specs.Steps.{Emptied, Tightened};

use crate::cells::{CELLS, MOST_VARIABLES, get, lower};
use kinds::bound::Bound;
use kinds::kind::Kind;

// The memory is too short for a table.
#[derive(Clone, Copy, Debug, PartialEq, Eq)]
pub struct NoRoom;

// A variable or the memory is none of a table.
#[derive(Clone, Copy, Debug, PartialEq, Eq)]
pub struct Outside;

// Takes all bounds away; memory that is too short stays as it is.
pub fn empty<K: Kind>(table: &mut [Bound<K>]) -> Result<(), NoRoom>
    ensures room { is_ok result ≡ nat_le 64 (length table.old) }
    ensures beyond { Beyond table.old table.new }
    ensures after { MatchResult result (λ _. Emptied 64 table.old table.new) (λ _. table.new ≡ table.old) }
{
    if table.len() < CELLS {
        return Err(NoRoom);
    }
    table[..CELLS].fill(Bound::NoBound);
    Ok(())
}

// Whether a table has a bound between the two.
fn is_inside<K: Kind>(table: &[Bound<K>], from: usize, to: usize) -> bool
    ensures { result ≡ (nat_le 64 (length table.now) && (nat_lt from 8 && nat_lt to 8)) }
{
    table.len() >= CELLS && from < MOST_VARIABLES && to < MOST_VARIABLES
}

// The bound between two variables becomes the lesser of itself and another; outside the table nothing changes.
pub fn tighten<K: Kind>(
    table: &mut [Bound<K>],
    from: usize,
    to: usize,
    bound: Bound<K>,
) -> Result<(), Outside>
    ensures inside { is_ok result ≡ (nat_le 64 (length table.old) && (nat_lt from 8 && nat_lt to 8)) }
    ensures beyond { Beyond table.old table.new }
    ensures after { MatchResult result (λ _. Tightened K.group K.value from to bound table.old table.new) (λ _. table.new ≡ table.old) }
{
    if !is_inside(table, from, to) {
        return Err(Outside);
    }
    lower(table, from, to, bound);
    Ok(())
}

// The bound between two variables; absent outside the table.
pub fn bound_between<K: Kind>(table: &[Bound<K>], from: usize, to: usize) -> Option<Bound<K>>
    ensures { MatchOption result (Inside from to table.now → ⊥) (λ b. Inside from to table.now × (b ≡ slice_index_or table.now (cell from to) NoBound)) }
{
    is_inside(table, from, to).then(|| get(table, from, to))
}
