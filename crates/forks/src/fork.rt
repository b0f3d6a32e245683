// What a new event makes of a parent, put into sinks: rows where it leaves something open, lines where it completes a chronicle.
ghost use Rattle.std.specs.Prelude.{ℕ};
ghost use Rattle.law.specs.Histories.{Seen, Loading};
ghost use Rattle.forks.specs.Forks.{PutAt, Put, Parent, Forked, Sunk};
ghost use Rattle.forks.specs.Rows.{choice_of};

use crate::row::{Arrival, Row};
use kinds::bound::Bound;
use kinds::kind::Kind;
use lent::sink::Sink;
use report::line::Line;
use rows::filled::Filled;
use rows::holding::Placing;

// Puts the event at variable j, where that is wanted and open.
fn fork_at<K: Kind, R: Sink<Row<K>>, L: Sink<Line<K>>>(
    parent: &Row<K>,
    table: &[Bound<K>],
    wanted: Filled,
    arrival: &Arrival<K>,
    j: usize,
    rows: &mut R,
    lines: &mut L,
)
    ensures { Sunk R.Sink.took L.Sink.took rows.old rows.new lines.old lines.new (λ born ripe. (l : Loading K.G) (e : Seen K.G) → Parent K.Kind l e table.now wanted.bits arrival.now parent.now → Forked K.Kind l e (PutAt l (choice_of parent.now) e j) parent.now.slot born ripe) }
{
    if !wanted.has(j) || parent.filled.has(j) {
        return;
    }
    match parent.portrait(table).place(j, &arrival.stamp) {
        Placing::Fails => {}
        Placing::Grows => rows.put(&parent.with(table, j, arrival)),
        Placing::Ripens => lines.put(&parent.completed(j, arrival)),
    }
}

// Puts the event at each variable of a parent where that is wanted and open.
pub fn fork<K: Kind, R: Sink<Row<K>>, L: Sink<Line<K>>>(
    parent: &Row<K>,
    table: &[Bound<K>],
    wanted: Filled,
    arrival: &Arrival<K>,
    rows: &mut R,
    lines: &mut L,
)
    ensures { Sunk R.Sink.took L.Sink.took rows.old rows.new lines.old lines.new (λ born ripe. (l : Loading K.G) (e : Seen K.G) → Parent K.Kind l e table.now wanted.bits arrival.now parent.now → Forked K.Kind l e (Put l (choice_of parent.now) e) parent.now.slot born ripe) }
{
    // By number: an open variable has nothing else.
    for j in 0..usize::from(parent.width) {
        fork_at(parent, table, wanted, arrival, j, rows, lines);
    }
}
