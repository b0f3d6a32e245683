// Networks of few bounds and of the widest, closed or refused.
use crate::closing::{Unclosed, close};
use crate::table::{NoRoom, Outside, bound_between, empty, tighten};
use kinds::bound::Bound;
use kinds::pairs::Pairs;
use kinds::ticks::Ticks;
use std::process::Abort;
use std::test::Fail;

const LIMIT: i64 = 4_294_967_296;

fn bind(rt: &impl Abort, table: &mut [Bound<Ticks>], from: usize, to: usize, count: i64) {
    assert_eq!(rt;
        tighten(table, from, to, Bound::At(Ticks { count })),
        Ok(())
    );
}

fn between(table: &[Bound<Ticks>], from: usize, to: usize) -> Option<i64> {
    match bound_between(table, from, to) {
        Some(Bound::At(ticks)) => Some(ticks.count),
        _ => None,
    }
}

fn pair_between(table: &[Bound<Pairs>], from: usize, to: usize) -> Option<(i64, i64)> {
    match bound_between(table, from, to) {
        Some(Bound::At(pair)) => Some((pair.tick, pair.place)),
        _ => None,
    }
}

// From each of eight variables to the next the upper limit, and back the lower one.
fn row_of_eight(rt: &impl Abort, table: &mut [Bound<Ticks>]) {
    for i in 0..7 {
        bind(rt, table, i, i + 1, LIMIT);
        bind(rt, table, i + 1, i, -LIMIT);
    }
}

// A table with a bound from 0 to 1 and one back, closed.
fn there_and_back(rt: &impl Abort, there: i64, back: i64) -> Result<(), Unclosed> {
    let mut table = [Bound::NoBound; 64];
    bind(rt, &mut table, 0, 1, there);
    bind(rt, &mut table, 1, 0, back);
    close(&mut table, 2)
}

#[test]
fn bounds_add_up_along_chains(rt: HostRuntime) -> Result<(), Fail> {
    let mut table = [Bound::NoBound; 64];
    bind(&rt, &mut table, 0, 1, 6);
    bind(&rt, &mut table, 1, 0, -2);
    bind(&rt, &mut table, 1, 2, 4);
    bind(&rt, &mut table, 2, 1, -1);
    close(&mut table, 4)?;
    assert_eq!(rt; between(&table, 0, 2), Some(10));
    assert_eq!(rt; between(&table, 2, 0), Some(-3));
    assert_eq!(rt; between(&table, 0, 0), Some(0));
    assert_eq!(rt; between(&table, 3, 3), Some(0));
    assert_eq!(rt; between(&table, 0, 3), None);
    assert_eq!(rt; between(&table, 4, 4), None);
    Ok(())
}

#[test]
fn a_cycle_below_zero_contradicts(rt: HostRuntime) {
    assert_eq!(rt; there_and_back(&rt, 3, -4), Err(Unclosed::Contradiction));
    assert_eq!(rt; there_and_back(&rt, 3, -3), Ok(()));
    let mut table = [Bound::NoBound; 64];
    bind(&rt, &mut table, 1, 1, -1);
    assert_eq!(rt; close(&mut table, 2), Err(Unclosed::Contradiction));
}

#[test]
fn pairs_may_contradict_by_place_alone(rt: HostRuntime) -> Result<(), Fail> {
    let mut table = [Bound::NoBound; 64];
    tighten(&mut table, 0, 1, Bound::At(Pairs { tick: 3, place: 0 }))?;
    tighten(&mut table, 1, 2, Bound::At(Pairs { tick: 0, place: -1 }))?;
    tighten(&mut table, 2, 0, Bound::At(Pairs { tick: -3, place: 1 }))?;
    close(&mut table, 3)?;
    assert_eq!(rt; pair_between(&table, 0, 2), Some((3, -1)));
    tighten(&mut table, 2, 0, Bound::At(Pairs { tick: -3, place: 0 }))?;
    assert_eq!(rt; close(&mut table, 3), Err(Unclosed::Contradiction));
    Ok(())
}

#[test]
fn other_widths_and_short_tables_are_refused(rt: HostRuntime) {
    let mut table = [Bound::At(Ticks { count: 0 }); 64];
    assert_eq!(rt; close(&mut table, 0), Err(Unclosed::OutOfRange));
    assert_eq!(rt; close(&mut table, 9), Err(Unclosed::OutOfRange));
    assert_eq!(rt; close(&mut table, 8), Ok(()));
    let mut short = [Bound::At(Ticks { count: 0 }); 63];
    assert_eq!(rt; close(&mut short, 1), Err(Unclosed::OutOfRange));
    assert_eq!(rt; tighten(&mut short, 0, 0, Bound::NoBound), Err(Outside));
    assert_eq!(rt; empty(&mut short), Err(NoRoom));
    assert!(rt; bound_between(&short, 0, 0).is_none());
    assert!(rt; matches!(short[0], Bound::At(_)));
}

#[test]
fn bounds_beyond_the_limit_are_not_admitted(rt: HostRuntime) {
    let mut table = [Bound::At(Ticks { count: LIMIT + 1 }); 64];
    assert_eq!(rt; close(&mut table, 1), Err(Unclosed::NotAdmitted));
    assert_eq!(rt; between(&table, 0, 0), Some(LIMIT + 1));
    assert_eq!(rt; empty(&mut table), Ok(()));
    assert_eq!(rt; between(&table, 7, 7), None);
    bind(&rt, &mut table, 2, 2, LIMIT + 1);
    assert_eq!(rt; close(&mut table, 2), Ok(()));
    assert_eq!(rt; close(&mut table, 3), Err(Unclosed::NotAdmitted));
}

#[test]
fn eight_bounds_at_the_limits_add_up(rt: HostRuntime) -> Result<(), Fail> {
    let mut table = [Bound::NoBound; 64];
    row_of_eight(&rt, &mut table);
    bind(&rt, &mut table, 7, 0, LIMIT);
    close(&mut table, 8)?;
    assert_eq!(rt; between(&table, 0, 7), Some(7 * LIMIT));
    assert_eq!(rt; between(&table, 7, 0), Some(-7 * LIMIT));
    assert_eq!(rt; between(&table, 5, 5), Some(0));
    Ok(())
}

#[test]
fn a_ring_of_eight_contradicts(rt: HostRuntime) {
    let mut table = [Bound::NoBound; 64];
    row_of_eight(&rt, &mut table);
    bind(&rt, &mut table, 0, 7, -LIMIT);
    assert_eq!(rt; close(&mut table, 8), Err(Unclosed::Contradiction));
}

#[test]
fn the_smaller_of_two_bounds_is_kept(rt: HostRuntime) {
    let mut table = [Bound::NoBound; 64];
    bind(&rt, &mut table, 7, 0, 5);
    bind(&rt, &mut table, 7, 0, 6);
    assert_eq!(rt; between(&table, 7, 0), Some(5));
    bind(&rt, &mut table, 7, 0, -6);
    assert_eq!(rt; between(&table, 7, 0), Some(-6));
    assert_eq!(rt; tighten(&mut table, 7, 0, Bound::NoBound), Ok(()));
    assert_eq!(rt; between(&table, 7, 0), Some(-6));
    assert_eq!(rt; tighten(&mut table, 8, 0, Bound::NoBound), Err(Outside));
    assert_eq!(rt; tighten(&mut table, 0, 8, Bound::NoBound), Err(Outside));
    assert!(rt; bound_between(&table, 0, 8).is_none());
}
