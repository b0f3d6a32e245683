// What the time of a call makes of rows: those past their deadlines end, each with a line, and the others stay.
ghost use Rattle.std.specs.Prelude.{◌≡◌, List, length};
ghost use Rattle.lent.specs.Lists.{memory, held};
ghost use Rattle.forks.specs.declared.row.Row.{Row as RowOf};
ghost use Rattle.forks.specs.Ends.{Settles};

use crate::row::Row;
use kinds::kind::Kind;
use lent::list::Lent;
use lent::sink::Sink;
use report::line::Line;

// Tells the rows that end at a moment, and answers how many stay.
pub fn tell_ends<K: Kind, L: Sink<Line<K>>>(rows: &Lent<Row<K>>, moment: &K, lines: &mut L) -> usize
    ensures { (kept : List (RowOf K)) × (result ≡ length kept) × Settles K.Kind L.Sink.took (K.value moment.now) (held rows.now) (held rows.now) kept lines.old lines.new }
{
    let mut staying = 0;
    for row in rows.as_slice() {
        let Some(line) = row.ending(moment) else {
            staying += 1;
            continue;
        };
        lines.put(&line);
    }
    staying
}

// Tells the rows that end at a moment, and keeps only those that stay.
pub fn bury<K: Kind, L: Sink<Line<K>>>(rows: &mut Lent<Row<K>>, moment: &K, lines: &mut L)
    ensures kept { Settles K.Kind L.Sink.took (K.value moment.now) (held rows.old) (held rows.old) (held rows.new) lines.old lines.new }
    ensures capacity { length (memory rows.new) ≡ length (memory rows.old) }
{
    let mut stay = 0;
    // By index: a row that stays is put over one that was read, so no slice can be lent meanwhile.
    for i in 0..rows.len() {
        let Some(row) = rows.get(i) else {
            break;
        };
        let Some(line) = row.ending(moment) else {
            rows.set(stay, row);
            stay += 1;
            continue;
        };
        lines.put(&line);
    }
    rows.truncate(stay);
}
