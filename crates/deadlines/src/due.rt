// What the queue holds of a row: its deadline.
ghost use Rattle.deadlines.specs.Ranking.{no_later, deadlines_rank};

use kinds::bound::Bound;
use kinds::kind::Kind;
use queue::ranked::Ranked;

// The smallest deadline first; an absent one comes after all others.
#[derive(Clone, Copy, Debug, PartialEq, Eq)]
pub struct Due<K> {
    pub at: Bound<K>,
}

impl<K: Kind> Ranked for Due<K> {
    ghost leq = { no_later K.Kind };

    ghost ranks = { deadlines_rank K.Kind };

    fn at_most(&self, other: &Due<K>) -> bool {
        self.at.at_most(&other.at)
    }
}
