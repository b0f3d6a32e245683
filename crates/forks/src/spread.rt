// An event spread over its parents: the rows that stay, and each loaded slot with nothing filled.
ghost use Rattle.std.specs.Prelude.{◌≡◌, List, map, length};
ghost use Rattle.std.specs.List.{AllByRecursion};
ghost use Rattle.lent.specs.Storing.{stored};
ghost use Rattle.logs.specs.Events.{Event};
ghost use Rattle.law.specs.Histories.{Act};
ghost use Rattle.forks.specs.Forks.{Sunk};
ghost use Rattle.forks.specs.Rows.{row_of};
ghost use Rattle.forks.specs.Spreads.{Ready, Alive, SpreadOf, Spread, Surveyed, Loaded, Begun};
ghost use Rattle.lent.specs.Lists.{held};

use crate::fork::fork;
use crate::incoming::Incoming;
use crate::row::Row;
use crate::tables::table_of;
use kinds::kind::Kind;
use lent::list::Lent;
use lent::sink::Sink;
use report::line::Line;
use slots::table::Slots;
use std::marker::PhantomData;

// The two sinks stay two parameters: in `spread_rows` one of them is the list that is walked over.
impl<'a, K: Kind> Incoming<'a, K> {
    // What the event makes of one parent.
    pub fn spread_one<R: Sink<Row<K>>, L: Sink<Line<K>>>(
        &self,
        parent: &Row<K>,
        rows: &mut R,
        lines: &mut L,
    )
        ensures { Sunk R.Sink.took L.Sink.took rows.old rows.new lines.old lines.new (λ born ripe. (a : List (Act K.G)) (e : Event K.G) → Ready K.Kind a e self.now → Alive K.Kind a e parent.now → SpreadOf K.Kind a e (row_of parent.now) born ripe) }
    {
        let slot = usize::from(parent.slot);
        let table = table_of(self.entries, slot);
        let variables = self.wanted.of(slot);
        fork(parent, table, variables, &self.arrival, rows, lines);
    }

    // What the event would make of the rows that stay at its stamp; answers how many stay.
    pub fn survey<R: Sink<Row<K>>, L: Sink<Line<K>>>(
        &self,
        rows: &Lent<Row<K>>,
        born: &mut R,
        lines: &mut L,
    ) -> usize
        ensures { Surveyed K.Kind R.Sink.took L.Sink.took (held rows.now) self.now (length (held rows.now)) result born.old born.new lines.old lines.new }
    {
        let mut stay = 0;
        for row in rows.as_slice() {
            let None = row.ending(&self.arrival.stamp) else {
                continue;
            };
            self.spread_one(row, born, lines);
            stay += 1;
        }
        stay
    }

    // Adds what the event makes of the rows, all of which stay, behind them.
    pub fn spread_rows<L: Sink<Line<K>>>(&self, rows: &mut Lent<Row<K>>, lines: &mut L)
        ensures { Sunk stored L.Sink.took rows.old rows.new lines.old lines.new (λ born ripe. (a : List (Act K.G)) (e : Event K.G) → Ready K.Kind a e self.now → AllByRecursion (Alive K.Kind a e) (held rows.old) → Spread K.Kind a e (map row_of (held rows.old)) born ripe) }
    {
        // By index: what a row makes is pushed behind the rows, so no slice can be lent meanwhile.
        for i in 0..rows.len() {
            let Some(row) = rows.get(i) else {
                break;
            };
            self.spread_one(&row, rows, lines);
        }
    }

    // What the event makes of one slot with nothing filled, where it is loaded. The last argument only has the caller know that a row's size is one that memory has.
    fn spread_slot<R: Sink<Row<K>>, L: Sink<Line<K>>>(
        &self,
        slots: &Slots,
        slot: u8,
        rows: &mut R,
        lines: &mut L,
        _sized: PhantomData<Row<K>>,
    )
        ensures { Sunk R.Sink.took L.Sink.took rows.old rows.new lines.old lines.new (λ born ripe. (a : List (Act K.G)) (e : Event K.G) → Ready K.Kind a e self.now → Loaded a slots.now → Begun K.Kind a e (λ r. r.slot ≡ slot) born ripe) }
    {
        let number = usize::from(slot);
        if !slots.is_loaded(number) {
            return;
        }
        // A usize has no `From` to a u8; at most 8, it is kept by the cast.
        let width = slots.width(number).min(8) as u8;
        let blank = Row::blank(slot, width, &self.arrival);
        self.spread_one(&blank, rows, lines);
    }

    // What the event makes of the loaded slots with nothing filled. The last argument is as for one slot.
    pub fn spread_slots<R: Sink<Row<K>>, L: Sink<Line<K>>>(
        &self,
        slots: &Slots,
        rows: &mut R,
        lines: &mut L,
        sized: PhantomData<Row<K>>,
    )
        ensures { Sunk R.Sink.took L.Sink.took rows.old rows.new lines.old lines.new (λ born ripe. (a : List (Act K.G)) (e : Event K.G) → Ready K.Kind a e self.now → Loaded a slots.now → Begun K.Kind a e (λ r. Unit {0}) born ripe) }
    {
        // By number: an empty slot has nothing else.
        for slot in 1..9u8 {
            self.spread_slot(slots, slot, rows, lines, sized);
        }
    }
}
