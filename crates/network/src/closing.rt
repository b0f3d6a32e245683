// The closure of Floyd and Warshall over a lent table: functions over the slice of its bounds, which stays the caller's.
ghost use Rattle.std.specs.Prelude.{◌≡◌, ◌≢◌, ℕ, ◌+◌, ◌*◌, ◌<◌, ◌≤◌, true, length, is_some, Some, Decides, IfOk, OkIff, IsOkUnless};
ghost use Rattle.kinds.specs.Bounds.{at_most, join, weighs, meant, admits};
ghost use Rattle.kinds.specs.declared.bound.Bound.TheVariants.{At, NoBound};
ghost use Rattle.network.specs.Tables.{cell, entry, Inside, InRange, Admitted, Closes, Elsewhere};
ghost use Rattle.network.specs.Steps.{Lesser, Relaxed, Rounding, Grounded, Ran, Light, StaysLight};

use crate::cells::{CELLS, MOST_VARIABLES, get, lower};
use kinds::bound::Bound;
use kinds::kind::Kind;

#[derive(Clone, Copy, Debug, PartialEq, Eq)]
pub enum Unclosed {
    OutOfRange,
    NotAdmitted,
    Contradiction,
}

// The sum of a bound to k and that from k to j: exact where it is present, and present while the weights are small.
fn joined<K: Kind>(table: &[Bound<K>], via: &Bound<K>, k: usize, j: usize) -> Option<Bound<K>>
    requires { Inside k j table.now }
    ensures exact { (s : Bound K) → result ≡ Some s → meant K.value s ≡ join K.group (meant K.value via.now) (entry K.value table.now k j) }
    ensures present { weighs K.weight (meant K.value via.now) + weighs K.weight (entry K.value table.now k j) ≤ 16777216 → is_some result ≡ true }
{
    via.plus(&get(table, k, j))
}

// Lowers each bound from i to the way by k, which is another variable.
fn relax_row<K: Kind>(table: &mut [Bound<K>], width: usize, k: usize, i: usize)
    requires inside { Inside i k table.old }
    requires range { InRange width table.old }
    requires other { i ≢ k }
    ensures { Relaxed K.group K.value K.weight i k width table.old table.new }
{
    let via = get(table, i, k);
    // By number: a turn reads row k and writes row i of the one slice.
    for j in 0..width {
        if let Some(way) = joined(table, &via, k, j) {
            lower(table, i, j, way);
        }
    }
}

// Lowers each bound to the way by k.
fn relax<K: Kind>(table: &mut [Bound<K>], width: usize, k: usize)
    requires range { InRange width table.old }
    requires among { k < width }
    ensures { Rounding K.group K.value K.weight width k width table.old table.new }
{
    // By numbers: each turn reads and writes other rows of the one slice.
    for i in 0..width {
        if i != k {
            relax_row(table, width, k, i);
        }
    }
}

// Lowers the bound from each variable to itself to zero.
fn ground<K: Kind>(table: &mut [Bound<K>], width: usize)
    requires { InRange width table.old }
    ensures { Grounded K.group K.value width table.old table.new }
{
    let zero = Bound::At(K::zero());
    // By number: it stands for row and column.
    for d in 0..width {
        lower(table, d, d, zero);
    }
}

// Whether the bound from k to itself is not below zero.
fn is_settled<K: Kind>(table: &[Bound<K>], k: usize) -> bool
    requires { Inside k k table.now }
    ensures { result ≡ at_most K.group (At K.group.zero) (entry K.value table.now k k) }
{
    let zero = Bound::At(K::zero());
    zero.at_most(&get(table, k, k))
}

// The rounds of the closure, up to a cycle that sums below zero.
fn rounds<K: Kind>(table: &mut [Bound<K>], width: usize) -> Result<(), Unclosed>
    requires { InRange width table.old }
    ensures ran { Ran K.group K.value K.weight width table.old table.new result }
    ensures light { StaysLight K.group K.value K.weight width table.old table.new result }
{
    // By number: a round goes over the whole slice, and may be the last.
    for k in 0..width {
        // A cycle below zero shows here, before the round of its highest variable.
        if !is_settled(table, k) {
            return Err(Unclosed::Contradiction);
        }
        relax(table, width, k);
    }
    Ok(())
}

// Whether each of the bounds from i is admitted.
fn row_admitted<K: Kind>(table: &[Bound<K>], width: usize, i: usize) -> bool
    requires range { InRange width table.now }
    requires among { i < width }
    ensures { Decides result ((j : ℕ) → j < width → admits K.bound (entry K.value table.now i j) ≡ true) }
{
    (0..width).all(|j| get(table, i, j).is_admitted())
}

// Refuses bounds among the variables that are not admitted.
fn check_admitted<K: Kind>(table: &[Bound<K>], width: usize) -> Result<(), Unclosed>
    requires { InRange width table.now }
    ensures admitted { OkIff result (Admitted K.value K.bound width table.now) tt }
    ensures refused { IsOkUnless result Unclosed.NotAdmitted }
{
    // As `all` over the rows the proof did not close: what the inner test decides did not reach it.
    for i in 0..width {
        if !row_admitted(table, width, i) {
            return Err(Unclosed::NotAdmitted);
        }
    }
    Ok(())
}

// Refuses more or fewer variables than a table has.
fn check_range<K: Kind>(table: &[Bound<K>], width: usize) -> Result<(), Unclosed>
    ensures range { OkIff result (InRange width table.now) tt }
    ensures refused { IsOkUnless result Unclosed.OutOfRange }
{
    if width < 1 || width > MOST_VARIABLES || table.len() < CELLS {
        return Err(Unclosed::OutOfRange);
    }
    Ok(())
}

// Closes the bounds among the first `width` variables of a table: each becomes the smallest sum over all chains of them.
// A table that is refused as contradictory is left as free memory; any other refusal leaves it as it was.
pub fn close<K: Kind>(table: &mut [Bound<K>], width: usize) -> Result<(), Unclosed>
    ensures closes { Closes K.value K.group K.bound width table.old table.new result }
    ensures elsewhere { Elsewhere width table.old table.new }
    ensures light { IfOk result (λ _. Light K.value K.weight width 256 table.new) }
{
    check_range(table, width)?;
    check_admitted(table, width)?;
    ground(table, width);
    rounds(table, width)
}
