// A row in memory: a choice of a slot's loading with the stamps of its events, and the deadline that this leaves.
ghost use Rattle.std.specs.Prelude.{◌≡◌, ℕ, ◌<◌, ◌≤◌, List, replicate, slice_set};
ghost use Rattle.law.specs.Holding.{width as width_of};
ghost use Rattle.law.specs.Histories.{Seen, Loading};
ghost use Rattle.rows.specs.Placings.{choice_plus, Placeable};
ghost use Rattle.report.specs.Lines.{line_of};
ghost use Rattle.rows.specs.Portraits.{Portrays, ClosedTable, Depicts};
ghost use Rattle.forks.specs.Rows.{choice_of, Standing, Arrives, Grown, recognition, EndsAt};

use kinds::bound::Bound;
use kinds::kind::Kind;
use report::letter::Letter;
use report::line::Line;
use rows::filled::Filled;
use rows::holding::stays_held;
use rows::portrait::Portrait;

// The deadline first: it is what most scans look at. Numbers and stamps are two arrays, since pairs of them would take more
// memory, and a row is to be small.
#[derive(Clone, Copy, Debug, PartialEq, Eq)]
pub struct Row<K> {
    pub deadline: Bound<K>,
    pub slot: u8,
    pub width: u8,
    pub filled: Filled,
    pub numbers: [u32; 8],
    pub stamps: [K; 8],
}

// An accepted event, by its number and stamp.
#[derive(Clone, Copy, Debug, PartialEq, Eq)]
pub struct Arrival<K> {
    pub number: u32,
    pub stamp: K,
}

fn replaced<T: Copy>(items: &[T; 8], j: usize, item: T) -> [T; 8]
    ensures { j < 8 → result ≡ slice_set items.now j item }
{
    let mut all = *items;
    if j < 8 {
        all[j] = item;
    }
    all
}

impl<K: Kind> Row<K> {
    // A row of a slot with nothing filled, which has no deadline.
    pub fn blank(slot: u8, width: u8, arrival: &Arrival<K>) -> Row<K>
        ensures { (result.slot ≡ slot) × ((l : Loading K.G) → width_of l ≡ width → width ≤ 8 → (choice_of result ≡ replicate width 0) × Standing K.Kind l result) }
    {
        Row {
            deadline: Bound::NoBound,
            slot,
            width,
            filled: Filled::none(),
            numbers: [0; 8],
            stamps: [arrival.stamp; 8],
        }
    }

    // What the tests look at, with the closed bounds of the row's chronicle.
    pub(crate) fn portrait<'a>(&'a self, table: &'a [Bound<K>]) -> Portrait<'a, K>
        ensures { (l : Loading K.G) (k : List ℕ) → Portrays K.group K.value K.weight l k self.now.filled.bits self.now.stamps self.now.width → ClosedTable K.group K.value K.weight l table.now → Depicts K.group K.value K.weight l k result }
    {
        Portrait {
            table,
            filled: self.filled,
            stamps: &self.stamps,
            width: usize::from(self.width),
        }
    }

    // The row with an event at the open variable j.
    pub fn with(&self, table: &[Bound<K>], j: usize, arrival: &Arrival<K>) -> Row<K>
        ensures { (l : Loading K.G) (e : Seen K.G) → Standing K.Kind l self.now → ClosedTable K.group K.value K.weight l table.now → Placeable K.group l (choice_of self.now) j e → Arrives K.Kind e arrival.now → Grown K.Kind l self.now j e result }
    {
        let grown = Row {
            filled: self.filled.with(j),
            numbers: replaced(&self.numbers, j, arrival.number),
            stamps: replaced(&self.stamps, j, arrival.stamp),
            ..*self
        };
        Row {
            deadline: grown.portrait(table).deadline(),
            ..grown
        }
    }

    // The line of a recognition: the row with an event at its last open variable j.
    pub fn completed(&self, j: usize, arrival: &Arrival<K>) -> Line<K>
        ensures { (l : Loading K.G) (e : Seen K.G) → Standing K.Kind l self.now → Placeable K.group l (choice_of self.now) j e → Arrives K.Kind e arrival.now → line_of K.value result ≡ recognition e self.now.slot (choice_plus (choice_of self.now) j e) }
    {
        Line {
            letter: Letter::Recognised,
            slot: self.slot,
            width: self.width,
            choice: replaced(&self.numbers, j, arrival.number),
            stamp: arrival.stamp,
        }
    }

    // The line with which a row ends that is no longer held at a moment; absent where it stays held.
    pub fn ending(&self, moment: &K) -> Option<Line<K>>
        ensures { EndsAt K.Kind self.now (K.value moment.now) result }
    {
        let Bound::At(stamp) = self.deadline else {
            return None;
        };
        if stays_held(&self.deadline, moment) {
            return None;
        }
        Some(Line {
            letter: Letter::Deadline,
            slot: self.slot,
            width: self.width,
            choice: self.numbers,
            stamp,
        })
    }
}
