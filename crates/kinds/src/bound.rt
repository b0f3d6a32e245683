// A bound: an element of a kind, or none.
ghost use Rattle.std.specs.Prelude.{◌≡◌, ℕ, ◌+◌, ◌≤◌, true, is_some, Some};
ghost use Rattle.kinds.specs.Bounds.{join, at_most, admits, weighs, meant};

use crate::kind::Kind;

// No Option: "no bound" is a value above all others, not an absence, and an order that puts None first would be wrong of it.
#[derive(Clone, Copy, Debug, PartialEq, Eq)]
pub enum Bound<K> {
    At(K),
    NoBound,
}

impl<K: Kind> Bound<K> {
    pub fn at_most(&self, other: &Bound<K>) -> bool
        ensures { result ≡ at_most K.group (meant K.value self.now) (meant K.value other.now) }
    {
        // A kind is ordered by its own `at_most`, and a derive would ask more of it.
        match (self, other) {
            (_, Bound::NoBound) => true,
            (Bound::NoBound, Bound::At(_)) => false,
            (Bound::At(x), Bound::At(y)) => x.at_most(y),
        }
    }

    pub fn is_admitted(&self) -> bool
        ensures { result ≡ admits K.bound (meant K.value self.now) }
    {
        match self {
            Bound::At(x) => x.is_bound(),
            Bound::NoBound => true,
        }
    }

    // The sum, as a kind's: exact where it is present, and present while the weights are small.
    pub fn plus(&self, other: &Bound<K>) -> Option<Bound<K>>
        ensures exact { (s : Bound K) → result ≡ Some s → meant K.value s ≡ join K.group (meant K.value self.now) (meant K.value other.now) }
        ensures present { weighs K.weight (meant K.value self.now) + weighs K.weight (meant K.value other.now) ≤ 16777216 → is_some result ≡ true }
    {
        let (Bound::At(x), Bound::At(y)) = (self, other) else {
            return Some(Bound::NoBound);
        };
        x.plus(y).map(Bound::At)
    }
}
