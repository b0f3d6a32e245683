// A new watch, over memory of any lengths.
ghost use Rattle.std.specs.Prelude.{◌≡◌, [], length};
ghost use Rattle.law.specs.Laws.{Law};
ghost use Rattle.recogniser.specs.Watches.{lent_of, Stands, rows_read};

use super::Watch;
use deadlines::due::Due;
use forks::row::Row;
use kinds::bound::Bound;
use kinds::kind::Kind;
use lent::list::Lent;
use queue::heap::Heap;
use slots::table::Slots;

impl<'a, K: Kind> Watch<'a, K> {
    // Eight empty slots, no rows, no now, no events.
    pub fn new(
        entries: &'a mut [Bound<K>],
        rows: &'a mut [Row<K>],
        deadlines: &'a mut [Due<K>],
    ) -> Watch<'a, K>
        ensures stands { Stands K.Kind (lent_of result) [] result × Law K.Kind (lent_of result) [] (rows_read result) }
        ensures lent { lent_of result ≡ record { entries = length entries.old; rows = length rows.old; deadlines = length deadlines.old } }
    {
        Watch {
            entries,
            slots: Slots::new(),
            moment: None,
            count: 0,
            rows: Lent::new(rows),
            queue: Heap::new(deadlines),
        }
    }
}
