// Rows of few variables at their limits, for both kinds.
use crate::filled::Filled;
use crate::holding::{Placing, stays_held};
use crate::portrait::Portrait;
use kinds::bound::Bound;
use kinds::pairs::Pairs;
use kinds::ticks::{STAMP_LIMIT, Ticks};
use network::closing::close;
use network::table::tighten;
use std::process::Abort;
use std::test::Fail;

fn count_of(bound: Bound<Ticks>) -> Option<i64> {
    match bound {
        Bound::At(ticks) => Some(ticks.count),
        Bound::NoBound => None,
    }
}

// The second of three variables at most 6 after the first, the third at least 1 before the second.
fn jump(rt: &impl Abort, table: &mut [Bound<Ticks>]) -> Result<(), Fail> {
    assert_eq!(rt; tighten(table, 0, 1, Bound::At(Ticks { count: 6 })), Ok(()));
    assert_eq!(rt;
        tighten(table, 1, 2, Bound::At(Ticks { count: -1 })),
        Ok(())
    );
    close(table, 3)?;
    Ok(())
}

#[test]
fn deadlines_come_from_closed_bounds(rt: HostRuntime) -> Result<(), Fail> {
    let mut table = [Bound::NoBound; 64];
    jump(&rt, &mut table)?;
    let stamps = [Ticks { count: 100 }; 8];
    let row = Portrait {
        table: &table,
        filled: Filled::none().with(0),
        stamps: &stamps,
        width: 3,
    };
    assert_eq!(rt; count_of(row.latest(1)), Some(106));
    assert_eq!(rt; count_of(row.latest(2)), Some(105));
    assert_eq!(rt; count_of(row.deadline()), Some(105));
    let more = Portrait {
        filled: row.filled.with(2),
        ..row
    };
    assert_eq!(rt; count_of(more.deadline()), Some(106));
    let last = [Ticks { count: STAMP_LIMIT }; 8];
    let late = Portrait {
        stamps: &last,
        ..row
    };
    assert_eq!(rt; count_of(late.deadline()), Some(STAMP_LIMIT + 5));
    Ok(())
}

#[test]
fn a_row_is_held_at_its_deadline_and_not_past_it(rt: HostRuntime) {
    let due = Bound::At(Ticks { count: 105 });
    assert!(rt; stays_held(&due, &Ticks { count: 105 }));
    assert!(rt; !stays_held(&due, &Ticks { count: 106 }));
    assert!(rt; stays_held(&Bound::NoBound, &Ticks { count: STAMP_LIMIT }));
    let place_due = Bound::At(Pairs {
        tick: 105,
        place: 2,
    });
    assert!(rt;
        stays_held(
            &place_due,
            &Pairs {
                tick: 105,
                place: 2,
            },
        )
    );
    assert!(rt;
        !stays_held(
            &place_due,
            &Pairs {
                tick: 105,
                place: 3,
            },
        )
    );
}

#[test]
fn a_blank_row_has_no_deadline(rt: HostRuntime) -> Result<(), Fail> {
    let mut table = [Bound::NoBound; 64];
    jump(&rt, &mut table)?;
    let stamps = [Ticks { count: 0 }; 8];
    let blank = Portrait {
        table: &table,
        filled: Filled::none(),
        stamps: &stamps,
        width: 3,
    };
    assert_eq!(rt; count_of(blank.deadline()), None);
    assert_eq!(rt; blank.place(0, &Ticks { count: 100 }), Placing::Grows);
    let narrow = Portrait { width: 1, ..blank };
    assert_eq!(rt; narrow.place(0, &Ticks { count: 100 }), Placing::Ripens);
    Ok(())
}

#[test]
fn an_event_fails_where_an_open_variable_had_to_come_before(rt: HostRuntime) -> Result<(), Fail> {
    let mut table = [Bound::NoBound; 64];
    jump(&rt, &mut table)?;
    let stamps = [Ticks { count: 100 }; 8];
    let row = Portrait {
        table: &table,
        filled: Filled::none().with(0),
        stamps: &stamps,
        width: 3,
    };
    assert_eq!(rt; row.place(1, &Ticks { count: 103 }), Placing::Fails);
    assert_eq!(rt; row.place(2, &Ticks { count: 103 }), Placing::Grows);
    let more = Portrait {
        filled: row.filled.with(2),
        ..row
    };
    assert_eq!(rt; more.place(1, &Ticks { count: 101 }), Placing::Ripens);
    assert_eq!(rt; more.place(1, &Ticks { count: 100 }), Placing::Fails);
    Ok(())
}

#[test]
fn an_event_fails_below_the_lower_bound_of_a_filled_pair(rt: HostRuntime) -> Result<(), Fail> {
    let mut table = [Bound::NoBound; 64];
    tighten(&mut table, 0, 1, Bound::At(Pairs { tick: 3, place: 0 }))?;
    tighten(&mut table, 1, 0, Bound::At(Pairs { tick: 0, place: -1 }))?;
    close(&mut table, 2)?;
    let stamps = [Pairs { tick: 7, place: 4 }; 8];
    let row = Portrait {
        table: &table,
        filled: Filled::none().with(0),
        stamps: &stamps,
        width: 2,
    };
    assert_eq!(rt; row.place(1, &Pairs { tick: 7, place: 4 }), Placing::Fails);
    assert_eq!(rt; row.place(1, &Pairs { tick: 7, place: 5 }), Placing::Ripens);
    assert!(rt; matches!(row.deadline(), Bound::At(Pairs { tick: 10, place: 4 })));
    Ok(())
}

#[test]
fn none_or_all_of_eight_are_open(rt: HostRuntime) {
    let mut all = Filled::none();
    assert_eq!(rt; all.open_count(8), 8);
    assert_eq!(rt; all.first_open(8), Some(0));
    assert_eq!(rt; all.first_open(0), None);
    for i in 0..9 {
        assert!(rt; !all.has(i));
        all = all.with(i);
    }
    assert!(rt; !all.has(8));
    assert_eq!(rt; all.open_count(8), 0);
    assert_eq!(rt; all.first_open(8), None);
    assert_eq!(rt; all.open_count(9), 1);
    assert_eq!(rt; all.first_open(9), Some(8));
}
