// Pairs: a tick and a place among the events of that tick, compared by tick, then place.
ghost use Rattle.kinds.specs.PairOrder.{Pair, pair, pair_group, pair_weight, pair_bound, pair_stamp, pair_weighed};
ghost use Rattle.kinds.specs.Fields.{pair_means, pair_takes, pair_text};

use crate::fields::{read_field, write_pair};
use crate::kind::Kind;
use crate::ticks::{BOUND_LIMIT, STAMP_LIMIT};
use text::fault::{Cause, Fault, Place};
use text::parts;

#[derive(Clone, Copy, Debug, PartialEq, Eq, PartialOrd, Ord)]
pub struct Pairs {
    pub tick: i64,
    pub place: i64,
}

// The last place of an admitted stamp.
pub const LAST_PLACE: i64 = 4_294_967_295;

impl Kind for Pairs {
    ghost G = { Pair };

    ghost group = { pair_group };

    ghost value = { λ p. pair p.tick p.place };

    ghost bound = { pair_bound };

    ghost stamp = { pair_stamp };

    ghost weight = { pair_weight };

    ghost weighed = { pair_weighed };

    ghost fields = { 2 };

    ghost means = { pair_means };

    ghost takes = { pair_takes };

    ghost written = { λ p. pair_text p.tick p.place };

    fn zero() -> Pairs {
        Pairs { tick: 0, place: 0 }
    }

    fn at_most(&self, other: &Pairs) -> bool {
        self <= other
    }

    fn is_bound(&self) -> bool {
        (-BOUND_LIMIT..=BOUND_LIMIT).contains(&self.tick)
            && (-BOUND_LIMIT..=BOUND_LIMIT).contains(&self.place)
    }

    fn is_stamp(&self) -> bool {
        (0..=STAMP_LIMIT).contains(&self.tick) && (0..=LAST_PLACE).contains(&self.place)
    }

    fn plus(&self, other: &Pairs) -> Option<Pairs> {
        let tick = self.tick.checked_add(other.tick)?;
        let place = self.place.checked_add(other.place)?;
        Some(Pairs { tick, place })
    }

    fn field_count() -> usize {
        2
    }

    fn read(text: &[u8], place: Place) -> Result<Pairs, Fault> {
        if parts::count(text, parts::TAB) != 2 {
            return Err(place.fault(Cause::BadField));
        }
        let tick = read_field(text, 0, place)?;
        let among = read_field(text, 1, place)?;
        Ok(Pairs { tick, place: among })
    }

    fn write(&self, out: &mut [u8], start: usize) -> Option<usize> {
        write_pair(out, start, self.tick, self.place)
    }
}
