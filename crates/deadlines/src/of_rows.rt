// The queue of the deadlines of rows: filled from a list of them, and read by its top alone.
ghost use Rattle.std.specs.Prelude.{◌≡◌, ◌≤◌, List, ◌++◌, length};
ghost use Rattle.kinds.specs.declared.bound.Bound.TheVariants.{At};
ghost use Rattle.lent.specs.Lists.{held};
ghost use Rattle.forks.specs.declared.row.Row.{Row};
ghost use Rattle.queue.specs.Held.{memory};
ghost use Rattle.deadlines.specs.Queues.{QueueHolds, Next, Top, AnyBefore};

use crate::due::Due;
use forks::row::Row;
use kinds::bound::Bound;
use kinds::kind::Kind;
use lent::list::Lent;
use queue::heap::Heap;

// Fills the queue anew with the deadlines of just these rows, in linear time; what finds no room is left out.
pub fn rebuild<K: Kind>(queue: &mut Heap<Due<K>>, rows: &Lent<Row<K>>)
    ensures holds { length (held rows.now) ≤ length (memory queue.old) → QueueHolds K.Kind (held rows.now) queue.new }
    ensures capacity { length (memory queue.new) ≡ length (memory queue.old) }
{
    queue.clear();
    for row in rows.as_slice() {
        let _ = queue.append(Due { at: row.deadline });
    }
    queue.settle();
}

// Adds the deadlines of the rows from a place on to those of the rows before it; what finds no room is left out.
pub fn push_from<K: Kind>(queue: &mut Heap<Due<K>>, rows: &Lent<Row<K>>, from: usize)
    ensures holds { (rs new : List (Row K)) → held rows.now ≡ rs ++ new → length rs ≡ from → QueueHolds K.Kind rs queue.old → length (held rows.now) ≤ length (memory queue.old) → QueueHolds K.Kind (held rows.now) queue.new }
    ensures capacity { length (memory queue.new) ≡ length (memory queue.old) }
{
    for row in rows.as_slice().iter().skip(from) {
        let _ = queue.push(Due { at: row.deadline });
    }
}

// The first of the queue: no row ends before it. Of its own, for `next` alone knows only that one of its two tests failed.
fn top<K: Kind>(queue: &Heap<Due<K>>) -> Option<Due<K>>
    ensures { (rs : List (Row K)) → QueueHolds K.Kind rs queue.now → Top K.Kind rs result }
{
    queue.least()
}

// The smallest deadline of all rows; absent where no row has one.
pub fn next<K: Kind>(queue: &Heap<Due<K>>) -> Option<K>
    ensures { (rs : List (Row K)) → QueueHolds K.Kind rs queue.now → Next K.Kind rs result }
{
    let Some(
        Due {
            at: Bound::At(deadline),
        },
    ) = top(queue)
    else {
        return None;
    };
    Some(deadline)
}

// Whether some deadline is before the moment: the smallest is, then.
pub fn any_before<K: Kind>(queue: &Heap<Due<K>>, moment: &K) -> bool
    ensures { (rs : List (Row K)) → QueueHolds K.Kind rs queue.now → AnyBefore K.Kind (At (K.value moment.now)) rs result }
{
    next(queue).is_some_and(|deadline| !moment.at_most(&deadline))
}
