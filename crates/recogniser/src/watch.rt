// The state of a watch, over memory that the caller lends for its life.
use deadlines::due::Due;
use forks::row::Row;
use kinds::bound::Bound;
use lent::list::Lent;
use queue::heap::Heap;
use slots::table::Slots;

mod opening;

// The closed bounds of eight slots, the moment and number of the last event, the rows and the queue of their deadlines.
#[derive(Drop)]
pub struct Watch<'a, K> {
    entries: &'a mut [Bound<K>],
    slots: Slots,
    moment: Option<K>,
    count: u32,
    rows: Lent<'a, Row<K>>,
    queue: Heap<'a, Due<K>>,
}
