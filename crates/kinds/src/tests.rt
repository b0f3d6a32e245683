// Elements at the edges of what is admitted, added, read and written.
use crate::behind::{has_fields_behind, read_behind};
use crate::bound::Bound;
use crate::kind::Kind;
use crate::pairs::Pairs;
use crate::ticks::Ticks;
use std::process::Abort;
use std::test::Fail;
use text::fault::{Cause, Fault, Place};

const PLACE: Place = Place { line: 3, field: 2 };

fn ticks(count: i64) -> Ticks {
    Ticks { count }
}

fn pair(tick: i64, place: i64) -> Pairs {
    Pairs { tick, place }
}

fn bad_field<K: Kind>(rt: &impl Abort, read: Result<K, Fault>) {
    assert_eq!(rt; read.err(), Some(PLACE.fault(Cause::BadField)));
}

#[test]
fn bounds_reach_4294967296_either_way(rt: HostRuntime) {
    assert!(rt; ticks(4_294_967_296).is_bound());
    assert!(rt; ticks(-4_294_967_296).is_bound());
    assert!(rt; !ticks(4_294_967_297).is_bound());
    assert!(rt; !ticks(-4_294_967_297).is_bound());
    assert!(rt; pair(4_294_967_296, -4_294_967_296).is_bound());
    assert!(rt; !pair(4_294_967_297, 0).is_bound());
    assert!(rt; !pair(0, -4_294_967_297).is_bound());
}

#[test]
fn stamps_reach_from_0_to_1099511627776(rt: HostRuntime) {
    assert!(rt; ticks(0).is_stamp());
    assert!(rt; !ticks(-1).is_stamp());
    assert!(rt; ticks(1_099_511_627_776).is_stamp());
    assert!(rt; !ticks(1_099_511_627_777).is_stamp());
    assert!(rt; pair(1_099_511_627_776, 4_294_967_295).is_stamp());
    assert!(rt; !pair(1_099_511_627_777, 0).is_stamp());
    assert!(rt; !pair(0, 4_294_967_296).is_stamp());
    assert!(rt; !pair(0, -1).is_stamp());
}

#[test]
fn sums_are_exact_or_absent(rt: HostRuntime) {
    assert!(rt; ticks(i64::MAX).plus(&ticks(1)).is_none());
    assert!(rt; ticks(i64::MIN).plus(&ticks(-1)).is_none());
    assert_eq!(rt; ticks(i64::MAX).plus(&ticks(i64::MIN)), Some(ticks(-1)));
    assert!(rt; pair(i64::MIN, 0).plus(&pair(-1, 0)).is_none());
    assert!(rt; pair(0, i64::MAX).plus(&pair(0, 1)).is_none());
    assert_eq!(rt; pair(7, -5).plus(&pair(1, 2)), Some(pair(8, -3)));
}

#[test]
fn pairs_go_by_tick_then_place(rt: HostRuntime) {
    assert!(rt; pair(7, 0).at_most(&pair(7, 1)));
    assert!(rt; !pair(7, 1).at_most(&pair(7, 0)));
    assert!(rt; pair(7, 1).at_most(&pair(8, -5)));
    assert!(rt; !pair(8, -5).at_most(&pair(7, 1)));
    assert!(rt; pair(7, 1).at_most(&pair(7, 1)));
}

#[test]
fn no_bound_lies_above_all(rt: HostRuntime) {
    let far = Bound::At(ticks(i64::MAX));
    let none = Bound::NoBound;
    assert!(rt; far.at_most(&none));
    assert!(rt; !none.at_most(&far));
    assert!(rt; none.at_most(&none));
    assert!(rt; none.is_admitted());
    assert!(rt; !far.is_admitted());
    assert!(rt; far.plus(&far).is_none());
    assert_eq!(rt; far.plus(&none), Some(none));
}

#[test]
fn fields_are_read_in_full(rt: HostRuntime) -> Result<(), Fail> {
    assert_eq!(rt; Ticks::field_count(), 1);
    assert_eq!(rt;
        Ticks::read(b"-9223372036854775808", PLACE)?,
        ticks(i64::MIN)
    );
    bad_field(&rt, Ticks::read(b"-9223372036854775809", PLACE));
    bad_field(&rt, Ticks::read(b"1\t2", PLACE));
    assert_eq!(rt; Pairs::field_count(), 2);
    assert_eq!(rt; Pairs::read(b"12\t-3", PLACE)?, pair(12, -3));
    bad_field(&rt, Pairs::read(b"12", PLACE));
    bad_field(&rt, Pairs::read(b"12\t-03", PLACE));
    bad_field(&rt, Pairs::read(b"12\t-3\t", PLACE));
    Ok(())
}

#[test]
fn fields_are_written_where_they_fit(rt: HostRuntime) {
    let mut out = [b'.'; 43];
    assert_eq!(rt; pair(i64::MIN, i64::MIN).write(&mut out, 3), None);
    assert_eq!(rt; ticks(i64::MIN).write(&mut out, 24), None);
    assert_eq!(rt; &out, &[b'.'; 43]);
    assert_eq!(rt; pair(i64::MIN, i64::MIN).write(&mut out, 1), Some(42));
    assert_eq!(rt; &out, b".-9223372036854775808\t-9223372036854775808.");
    assert_eq!(rt; ticks(0).write(&mut out, 42), Some(43));
    assert_eq!(rt; pair(12, -3).write(&mut out, 0), Some(5));
    assert_eq!(rt; &out, b"12\t-33372036854775808\t-92233720368547758080");
}

#[test]
fn elements_stand_behind_other_fields(rt: HostRuntime) {
    assert!(rt; has_fields_behind::<Pairs>(2, 4));
    assert!(rt; !has_fields_behind::<Pairs>(2, 3));
    assert!(rt; !has_fields_behind::<Ticks>(2, 1));
    assert_eq!(rt;
        read_behind(b"bound\t1\t2\t-7", 3, PLACE, Ticks::is_bound),
        Ok(ticks(-7))
    );
    bad_field(&rt, read_behind(b"A\t1\t-7", 2, PLACE, Ticks::is_stamp));
    bad_field(&rt, read_behind(b"A\t1", 2, PLACE, Ticks::is_stamp));
}
