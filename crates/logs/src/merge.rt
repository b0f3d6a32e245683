// Two sources as one, in the order of their stamps.
ghost use Rattle.std.specs.Prelude.{◌≡◌};
ghost use Rattle.logs.specs.Events.{meant};
ghost use Rattle.logs.specs.Merging.{merged_list, merged_ending};
ghost use Rattle.logs.specs.MergeLaws.{MergeLaw};
ghost use Rattle.logs.specs.Turns.{turn, Turns};

use crate::source::{Next, Source};
use kinds::kind::Kind;

// The source that a call takes from: a name for one of two fields, and no step of its own.
#[derive(Clone, Copy, Debug, PartialEq, Eq)]
enum Side {
    First,
    Second,
}

#[derive(Debug, PartialEq, Eq, Drop)]
pub struct Merge<A, B> {
    first: A,
    second: B,
}

impl<A, B> Merge<A, B> {
    #[tactic(auto, using(crate::proofs::Interleaving::merge_law))]
    pub fn new<K: Kind>(first: A, second: B) -> Merge<A, B>
    where
        A: Source<K>,
        B: Source<K>,
        ensures sources { (result.first ≡ first) × (result.second ≡ second) }
        ensures law { MergeLaw K.group.leq (A.Source.waiting K.Kind first) (A.Source.ending K.Kind first) (B.Source.waiting K.Kind second) (B.Source.ending K.Kind second) }
    {
        Merge { first, second }
    }
}

/// Whose turn it is, by what comes next in each source.
fn whose_turn<K: Kind>(a: &Next<K>, b: &Next<K>) -> Side
    ensures { result ≡ turn K.group.leq (meant K.value a.now) (meant K.value b.now) }
{
    match (a, b) {
        (Err(_), _) => Side::First,
        (Ok(Some(_)), Ok(None)) => Side::First,
        (Ok(Some(x)), Ok(Some(y))) if x.stamp.at_most(&y.stamp) => Side::First,
        _ => Side::Second,
    }
}

/// Whose turn it is, by a look at each.
#[tactic(auto, using(crate::proofs::Turning::turn_turns))]
fn pick<K: Kind, A: Source<K>, B: Source<K>>(a: &A, b: &B) -> Side
    ensures { Turns K.group.leq (A.Source.waiting K.Kind a.now) (A.Source.ending K.Kind a.now) (B.Source.waiting K.Kind b.now) (B.Source.ending K.Kind b.now) result }
{
    let x = a.look();
    let y = b.look();
    whose_turn(&x, &y)
}

impl<K: Kind, A: Source<K>, B: Source<K>> Source<K> for Merge<A, B> {
    ghost waiting = { λ kind m. merged_list kind.group.leq (A.Source.waiting kind m.first) (A.Source.ending kind m.first) (B.Source.waiting kind m.second) (B.Source.ending kind m.second) };

    ghost ending = { λ kind m. merged_ending kind.group.leq (A.Source.waiting kind m.first) (A.Source.ending kind m.first) (B.Source.waiting kind m.second) (B.Source.ending kind m.second) };

    fn look(&self) -> Next<K> {
        let a = self.first.look();
        let b = self.second.look();
        match whose_turn(&a, &b) {
            Side::First => a,
            Side::Second => b,
        }
    }

    fn take(&mut self) -> Next<K> {
        match pick::<K, A, B>(&self.first, &self.second) {
            Side::First => self.first.take(),
            Side::Second => self.second.take(),
        }
    }
}
