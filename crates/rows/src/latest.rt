// The latest stamps that the open variables of a row can have, and its deadline, the smallest of them.
ghost use Rattle.std.specs.Prelude.{◌≡◌, ℕ, ◌+◌, ◌<◌, ◌≤◌, List, length, MatchOption};
ghost use Rattle.kinds.specs.Bounds.{join, meant, weighs, Smallest};
ghost use Rattle.kinds.specs.declared.bound.Bound.TheVariants.{At};
ghost use Rattle.network.specs.Steps.{Lesser};
ghost use Rattle.network.specs.Tables.{entry, Inside};
ghost use Rattle.law.specs.Histories.{Loading};
ghost use Rattle.law.specs.Holding.{width as width_of, Latest, Deadline};
ghost use Rattle.rows.specs.Portraits.{stamp_at, Depicts};

use crate::portrait::Portrait;
use kinds::bound::Bound;
use kinds::kind::Kind;
use network::table::bound_between;

fn lesser<K: Kind>(one: Bound<K>, other: Bound<K>) -> Bound<K>
    ensures { Lesser K.group (meant K.value one) (meant K.value other) (meant K.value result) }
{
    if one.at_most(&other) { one } else { other }
}

impl<'a, K: Kind> Portrait<'a, K> {
    // The latest stamp of one variable after an event of that stamp at another: none outside the table, or where the sum is too heavy.
    pub(crate) fn latest_after(&self, from: usize, stamp: &K, to: usize) -> Bound<K>
        ensures { Inside from to self.now.table.now → K.weight (K.value stamp.now) + weighs K.weight (entry K.value self.now.table.now from to) ≤ 16777216 →
            meant K.value result ≡ join K.group (At (K.value stamp.now)) (entry K.value self.now.table.now from to) }
    {
        bound_between(self.table, from, to)
            .and_then(|bound| Bound::At(*stamp).plus(&bound))
            .unwrap_or(Bound::NoBound)
    }

    // The stamp of a variable; none past the stamps.
    pub(crate) fn stamp_of(&self, i: usize) -> Option<K>
        ensures { MatchOption result (length self.now.stamps.now ≤ i) (λ s. K.value s ≡ stamp_at K.group K.value self.now.stamps.now i) }
    {
        self.stamps.get(i).copied()
    }

    // The latest stamp of variable j after the event of variable i.
    fn latest_by(&self, i: usize, j: usize) -> Bound<K>
        ensures { Inside i j self.now.table.now → i < length self.now.stamps.now → K.weight (stamp_at K.group K.value self.now.stamps.now i) + weighs K.weight (entry K.value self.now.table.now i j) ≤ 16777216 →
            meant K.value result ≡ join K.group (At (stamp_at K.group K.value self.now.stamps.now i)) (entry K.value self.now.table.now i j) }
    {
        // By `map_or` the proof stays open: what its closure hands on is not known outside.
        let Some(stamp) = self.stamp_of(i) else {
            return Bound::NoBound;
        };
        self.latest_after(i, &stamp, j)
    }

    // The latest stamp of variable j: the smallest sum of a filled variable's stamp and the closed bound from there.
    pub fn latest(&self, j: usize) -> Bound<K>
        ensures { (l : Loading K.G) (k : List ℕ) → Depicts K.group K.value K.weight l k self.now → j < width_of l → Smallest K.group (Latest K.group l k j) (meant K.value result) }
    {
        (0..self.width)
            .filter(|i| self.filled.has(*i))
            .fold(Bound::NoBound, |least, i| {
                lesser(least, self.latest_by(i, j))
            })
    }

    // The deadline of a row: the smallest latest stamp of its open variables.
    pub fn deadline(&self) -> Bound<K>
        ensures { (l : Loading K.G) (k : List ℕ) → Depicts K.group K.value K.weight l k self.now → Deadline K.group l k (meant K.value result) }
    {
        (0..self.width)
            .filter(|j| !self.filled.has(*j))
            .fold(Bound::NoBound, |least, j| lesser(least, self.latest(j)))
    }
}
