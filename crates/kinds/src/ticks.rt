// Ticks: whole numbers.
ghost use Rattle.std.specs.Prelude.{ℤ};
ghost use Rattle.kinds.specs.TickOrder.{tick_group, tick_weight, tick_bound, tick_stamp, tick_weighed};
ghost use Rattle.std.specs.Fmt.{signed_decimal};
ghost use Rattle.kinds.specs.Fields.{tick_means, tick_takes};

use crate::fields::{read_field, write_long};
use crate::kind::Kind;
use text::fault::{Cause, Fault, Place};
use text::parts;

#[derive(Clone, Copy, Debug, PartialEq, Eq, PartialOrd, Ord)]
pub struct Ticks {
    pub count: i64,
}

// The limits of an admitted bound, either way, and of an admitted stamp.
pub const BOUND_LIMIT: i64 = 4_294_967_296;

pub const STAMP_LIMIT: i64 = 1_099_511_627_776;

impl Kind for Ticks {
    ghost G = { ℤ };

    ghost group = { tick_group };

    ghost value = { λ t. t.count };

    ghost bound = { tick_bound };

    ghost stamp = { tick_stamp };

    ghost weight = { tick_weight };

    ghost weighed = { tick_weighed };

    ghost fields = { 1 };

    ghost means = { tick_means };

    ghost takes = { tick_takes };

    ghost written = { λ t. signed_decimal t.count };

    fn zero() -> Ticks {
        Ticks { count: 0 }
    }

    fn at_most(&self, other: &Ticks) -> bool {
        self <= other
    }

    fn is_bound(&self) -> bool {
        (-BOUND_LIMIT..=BOUND_LIMIT).contains(&self.count)
    }

    fn is_stamp(&self) -> bool {
        (0..=STAMP_LIMIT).contains(&self.count)
    }

    fn plus(&self, other: &Ticks) -> Option<Ticks> {
        let count = self.count.checked_add(other.count)?;
        Some(Ticks { count })
    }

    fn field_count() -> usize {
        1
    }

    fn read(text: &[u8], place: Place) -> Result<Ticks, Fault> {
        if parts::count(text, parts::TAB) != 1 {
            return Err(place.fault(Cause::BadField));
        }
        let count = read_field(text, 0, place)?;
        Ok(Ticks { count })
    }

    fn write(&self, out: &mut [u8], start: usize) -> Option<usize> {
        write_long(out, start, self.count)
    }
}
