// The tests on a row: whether it stays held as time goes on, and what a new event makes of it.
ghost use Rattle.std.specs.Prelude.{◌≡◌, ℕ, ◌+◌, ◌<◌, ◌≤◌, List, length, if◌then◌else◌, Some, Decides, Option};
ghost use Rattle.kinds.specs.Bounds.{at_most, join, meant, weighs};
ghost use Rattle.kinds.specs.declared.bound.Bound.TheVariants.{At};
ghost use Rattle.kinds.specs.declared.bound.Bound.{Bound as BoundOf};
ghost use Rattle.network.specs.Tables.{entry, Inside};
ghost use Rattle.law.specs.Histories.{Seen, Loading};
ghost use Rattle.law.specs.Holding.{width as width_of, HeldIn, Deadline};
ghost use Rattle.law.specs.Tests.{is_filled, ClosedBy};
ghost use Rattle.rows.specs.Filled.{is_in};
ghost use Rattle.rows.specs.Placings.{loading_plus, choice_plus, Placeable, Placed, Allows};
ghost use Rattle.rows.specs.Portraits.{stamp_at, Depicts};

use crate::portrait::Portrait;
use kinds::bound::Bound;
use kinds::kind::Kind;

// What a new event makes of a row: nothing that can be completed, a row with something open, or a recognition.
#[derive(Clone, Copy, Debug, PartialEq, Eq)]
pub enum Placing {
    Fails,
    Grows,
    Ripens,
}

// A row that is held stays so up to its deadline, and at it.
pub fn stays_held<K: Kind>(deadline: &Bound<K>, moment: &K) -> bool
    ensures { (l : Loading K.G) (k : List ℕ) (t : Option K.G) (closed : ℕ → ℕ → BoundOf K.G) → ClosedBy K.group l.chronicle closed (width_of l) → HeldIn K.group l t k → Deadline K.group l k (meant K.value deadline.now) → Decides result (HeldIn K.group l (Some (K.value moment.now)) k) }
{
    Bound::At(*moment).at_most(deadline)
}

impl<'a, K: Kind> Portrait<'a, K> {
    // What a variable's stamp comes to, with an event of that stamp as the last one: its own where it is filled, or else none before that.
    fn reached(&self, stamp: &K, i: usize) -> K
        ensures { i < length self.now.stamps.now → K.value result ≡ (if is_in self.now.filled.bits i then stamp_at K.group K.value self.now.stamps.now i else K.value stamp.now) }
    {
        if !self.filled.has(i) {
            return *stamp;
        }
        self.stamp_of(i).unwrap_or(*stamp)
    }

    // Whether an event of that stamp at `from` allows variable `to` its stamp, or where that is open none before now.
    fn allows(&self, from: usize, stamp: &K, to: usize) -> bool
        ensures { Inside from to self.now.table.now → to < length self.now.stamps.now → K.weight (K.value stamp.now) + weighs K.weight (entry K.value self.now.table.now from to) ≤ 16777216 →
            result ≡ at_most K.group (At (if is_in self.now.filled.bits to then stamp_at K.group K.value self.now.stamps.now to else K.value stamp.now)) (join K.group (At (K.value stamp.now)) (entry K.value self.now.table.now from to)) }
    {
        let own = Bound::At(self.reached(stamp, to));
        own.at_most(&self.latest_after(from, stamp, to))
    }

    // Whether such an event allows every variable. Bounds towards it are met already, since its parent is alive.
    fn allows_all(&self, j: usize, stamp: &K) -> bool
        ensures { (l : Loading K.G) (k : List ℕ) → Depicts K.group K.value K.weight l k self.now → K.weight (K.value stamp.now) ≤ 256 → j < width_of l →
            Decides result ((i : ℕ) → i < width_of l → Allows K.group (entry K.value self.now.table.now) (is_filled k) (stamp_at K.group K.value self.now.stamps.now) (K.value stamp.now) j i) }
    {
        (0..self.width).all(|i| self.allows(j, stamp, i))
    }

    // Puts a new event of that stamp at the open variable j of a row that is alive at it.
    pub fn place(&self, j: usize, stamp: &K) -> Placing
        ensures { (l : Loading K.G) (k : List ℕ) (e : Seen K.G) → Depicts K.group K.value K.weight l k self.now → e.seen.stamp ≡ K.value stamp.now → K.weight (K.value stamp.now) ≤ 256 → Placeable K.group l k j e →
            Placed K.group (loading_plus l e) (choice_plus k j e) e.seen.stamp result }
    {
        if !self.allows_all(j, stamp) {
            return Placing::Fails;
        }
        // Two answers of three: no conversion of an Option says which.
        match self.filled.with(j).first_open(self.width) {
            Some(_) => Placing::Grows,
            None => Placing::Ripens,
        }
    }
}
