// Queues of the deadlines of a few rows, of either kind.
use crate::due::Due;
use crate::of_rows::{any_before, next, push_from, rebuild};
use forks::row::Row;
use kinds::bound::Bound;
use kinds::pairs::Pairs;
use kinds::ticks::Ticks;
use lent::list::Lent;
use queue::heap::Heap;
use rows::filled::Filled;
use std::test::Fail;

fn ticks(count: i64) -> Ticks {
    Ticks { count }
}

fn tick_row(deadline: Bound<Ticks>) -> Row<Ticks> {
    Row {
        deadline,
        slot: 1,
        width: 2,
        filled: Filled::none(),
        numbers: [0; 8],
        stamps: [ticks(0); 8],
    }
}

fn due(count: i64) -> Row<Ticks> {
    tick_row(Bound::At(ticks(count)))
}

fn pair(tick: i64, place: i64) -> Pairs {
    Pairs { tick, place }
}

fn pair_due(tick: i64, place: i64) -> Row<Pairs> {
    Row {
        deadline: Bound::At(pair(tick, place)),
        slot: 1,
        width: 2,
        filled: Filled::none(),
        numbers: [0; 8],
        stamps: [pair(0, 0); 8],
    }
}

#[test]
fn the_smallest_deadline_is_next(rt: HostRuntime) -> Result<(), Fail> {
    let mut row_memory = [due(0); 4];
    let mut rows = Lent::new(&mut row_memory);
    let mut due_memory = [Due {
        at: Bound::At(ticks(0)),
    }; 4];
    let mut queue = Heap::new(&mut due_memory);
    rows.push(due(9))?;
    rows.push(tick_row(Bound::NoBound))?;
    rows.push(due(4))?;
    rows.push(due(7))?;
    rebuild(&mut queue, &rows);
    assert_eq!(rt; next(&queue).ok_or("no deadline")?.count, 4);
    assert!(rt; any_before(&queue, &ticks(5)));
    assert!(rt; !any_before(&queue, &ticks(4)));
    Ok(())
}

#[test]
fn absent_deadlines_come_last(rt: HostRuntime) -> Result<(), Fail> {
    let mut row_memory = [due(0); 3];
    let mut rows = Lent::new(&mut row_memory);
    let mut due_memory = [Due {
        at: Bound::At(ticks(0)),
    }; 3];
    let mut queue = Heap::new(&mut due_memory);
    assert!(rt; next(&queue).is_none());
    assert!(rt; !any_before(&queue, &ticks(i64::MAX)));
    rows.push(tick_row(Bound::NoBound))?;
    rows.push(tick_row(Bound::NoBound))?;
    rebuild(&mut queue, &rows);
    assert!(rt; next(&queue).is_none());
    assert!(rt; !any_before(&queue, &ticks(i64::MAX)));
    rows.push(due(i64::MAX))?;
    push_from(&mut queue, &rows, 2);
    assert_eq!(rt; next(&queue).ok_or("no deadline")?.count, i64::MAX);
    assert!(rt; !any_before(&queue, &ticks(i64::MAX)));
    Ok(())
}

#[test]
fn pairs_go_by_tick_then_place(rt: HostRuntime) -> Result<(), Fail> {
    let mut row_memory = [pair_due(0, 0); 3];
    let mut rows = Lent::new(&mut row_memory);
    let mut due_memory = [Due {
        at: Bound::At(pair(0, 0)),
    }; 3];
    let mut queue = Heap::new(&mut due_memory);
    rows.push(pair_due(7, 2))?;
    rebuild(&mut queue, &rows);
    rows.push(pair_due(8, 0))?;
    rows.push(pair_due(7, 1))?;
    push_from(&mut queue, &rows, 1);
    assert_eq!(rt; queue.len(), 3);
    assert!(rt; any_before(&queue, &pair(7, 2)));
    assert!(rt; !any_before(&queue, &pair(7, 1)));
    let first = next(&queue).ok_or("no deadline")?;
    assert_eq!(rt; first.tick, 7);
    assert_eq!(rt; first.place, 1);
    Ok(())
}

#[test]
fn rebuilding_forgets_rows_that_went(rt: HostRuntime) -> Result<(), Fail> {
    let mut row_memory = [due(0); 2];
    let mut rows = Lent::new(&mut row_memory);
    let mut due_memory = [Due {
        at: Bound::At(ticks(0)),
    }; 2];
    let mut queue = Heap::new(&mut due_memory);
    rows.push(due(3))?;
    rows.push(due(5))?;
    rebuild(&mut queue, &rows);
    rows.set(0, due(6));
    rebuild(&mut queue, &rows);
    assert_eq!(rt; queue.len(), 2);
    assert_eq!(rt; next(&queue).ok_or("no deadline")?.count, 5);
    Ok(())
}
