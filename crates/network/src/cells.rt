// Single bounds of a table: reading, writing and lowering one.
ghost use Rattle.std.specs.Prelude.{◌≡◌, ℕ, ◌+◌, ◌*◌, ◌<◌, ◌≤◌, true, length, slice_index_or, slice_set};
ghost use Rattle.kinds.specs.Bounds.{at_most, join, weighs, meant};
ghost use Rattle.kinds.specs.declared.bound.Bound.TheVariants.{At, NoBound};
ghost use Rattle.network.specs.Tables.{cell, entry, Inside};
ghost use Rattle.network.specs.Steps.{Tightened};

use kinds::bound::Bound;
use kinds::kind::Kind;

pub const MOST_VARIABLES: usize = 8;

// Lent memory is one flat slice: the bound from i to j lies at 8 i + j.

// How many bounds a table of eight variables has.
pub const CELLS: usize = 64;

pub fn get<K: Kind>(table: &[Bound<K>], i: usize, j: usize) -> Bound<K>
    requires { Inside i j table.now }
    ensures { result ≡ slice_index_or table.now (cell i j) NoBound }
{
    table[MOST_VARIABLES * i + j]
}

pub fn put<K: Kind>(table: &mut [Bound<K>], i: usize, j: usize, bound: Bound<K>)
    requires { Inside i j table.old }
    ensures { table.new ≡ slice_set table.old (cell i j) bound }
{
    table[MOST_VARIABLES * i + j] = bound;
}

// Whether the bound from i to j is at most another.
fn is_within<K: Kind>(table: &[Bound<K>], i: usize, j: usize, other: &Bound<K>) -> bool
    requires { Inside i j table.now }
    ensures { result ≡ at_most K.group (entry K.value table.now i j) (meant K.value other.now) }
{
    get(table, i, j).at_most(other)
}

// The bound from i to j becomes the lesser of itself and another.
pub fn lower<K: Kind>(table: &mut [Bound<K>], i: usize, j: usize, other: Bound<K>)
    requires { Inside i j table.old }
    ensures { Tightened K.group K.value i j other table.old table.new }
{
    if !is_within(table, i, j, &other) {
        put(table, i, j, other);
    }
}
