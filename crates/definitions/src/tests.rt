// Definitions at the edges of what is read, and the bounds that follow from one.
use crate::loaded::Loaded;
use crate::reader::{Definition, read};
use kinds::bound::Bound;
use kinds::ticks::Ticks;
use network::table::bound_between;
use std::process::Abort;
use std::test::Fail;
use text::fault::{Cause, Fault, Place};
use text::lines::faulty_line;
use text::name::Name;
use text::parts::{count, part};
use text::writing::put;

const NONE_LOADED: Loaded = Loaded([false; 8]);

fn in_ticks(text: &[u8], loaded: &Loaded) -> Result<Definition, Fault> {
    let mut table = [Bound::NoBound; 64];
    read::<Ticks>(text, loaded, &mut table)
}

fn in_pairs(text: &[u8]) -> Result<Definition, Fault> {
    let mut table = [Bound::NoBound; 64];
    read::<kinds::pairs::Pairs>(text, &NONE_LOADED, &mut table)
}

fn has_fault(
    rt: &impl Abort,
    r: Result<Definition, Fault>,
    cause: Cause,
    line: usize,
    field: usize,
) {
    assert_eq!(rt; r.err(), Some(Place { line, field }.fault(cause)));
}

fn refused(rt: &impl Abort, text: &[u8], cause: Cause, line: usize, field: usize) {
    has_fault(rt, in_ticks(text, &NONE_LOADED), cause, line, field);
}

// Puts a definition of two variables, with `line` as its line 4, so often as said.
fn put_lines(out: &mut [u8], line: &[u8], times: usize) -> Option<usize> {
    let mut end = put(out, 0, b"chronicle\t1\nvar\tA\nvar\tB\n")?;
    for _ in 0..times {
        end = put(out, end, line)?;
        end = put(out, end, b"\n")?;
    }
    put(out, end, b"end\n")
}

// What stands after a definition is not read, so the buffer may be longer.
fn with_line(line: &[u8]) -> [u8; 128] {
    let mut text = [b'.'; 128];
    let _ = put_lines(&mut text, line, 1);
    text
}

fn line_refused(rt: &impl Abort, line: &[u8], cause: Cause, field: usize) {
    refused(rt, &with_line(line), cause, 4, field);
}

// Lines parted by slashes, each in a definition of its own.
fn lines_refused(rt: &impl Abort, lines: &[u8], cause: Cause, field: usize) {
    for k in 0..count(lines, b'/') {
        line_refused(rt, part(lines, b'/', k), cause, field);
    }
}

// How many bounds a definition has that holds such a line and is read.
fn limits_with(line: &[u8]) -> Result<usize, Fault> {
    let definition = in_ticks(&with_line(line), &NONE_LOADED)?;
    Ok(definition.limits)
}

fn has_type(rt: &impl Abort, definition: &Definition, i: usize, letters: &[u8]) {
    assert_eq!(rt;
        definition.types.get(i).as_ref().map(Name::as_bytes),
        Some(letters)
    );
}

fn between(table: &[Bound<Ticks>], from: usize, to: usize) -> Option<i64> {
    match bound_between(table, from, to) {
        Some(Bound::At(most)) => Some(most.count),
        _ => None,
    }
}

#[test]
fn bounds_follow_from_those_written(rt: HostRuntime) -> Result<(), Fail> {
    let text =
        b"chronicle\t3\nvar\tJUMP\nvar\tSEEP\nvar\tTILT\nbound\t1\t2\t6\nbound\t2\t1\t-2\nbound\t2\t3\t4\nbound\t3\t2\t-1\nend\nvar\tMORE\n";
    let mut table = [Bound::NoBound; 64];
    let definition = read::<Ticks>(text, &NONE_LOADED, &mut table)?;
    assert_eq!(rt;
        [
            definition.slot,
            definition.limits,
            definition.lines,
            definition.used,
        ],
        [3, 4, 9, 93]
    );
    has_type(&rt, &definition, 2, b"TILT");
    assert_eq!(rt; between(&table, 0, 2), Some(10));
    assert_eq!(rt; between(&table, 2, 0), Some(-3));
    assert_eq!(rt; in_ticks(&text[0..93], &NONE_LOADED)?.used, 93);
    Ok(())
}

#[test]
fn a_cycle_below_zero_is_refused_at_the_end(rt: HostRuntime) -> Result<(), Fail> {
    assert_eq!(rt; limits_with(b"bound\t1\t2\t3\nbound\t2\t1\t-3")?, 2);
    let text = with_line(b"bound\t1\t2\t3\nbound\t2\t1\t-4");
    refused(&rt, &text, Cause::Contradictory, 6, 0);
    let fault = Place { line: 6, field: 0 }.fault(Cause::Contradictory);
    assert_eq!(rt; faulty_line(&text, &fault), b"end".as_slice());
    Ok(())
}

#[test]
fn variables_and_bounds_are_counted(rt: HostRuntime) -> Result<(), Fail> {
    assert_eq!(rt;
        limits_with(b"var\tC\nvar\tD\nvar\tE\nvar\tF\nvar\tG\nvar\tH\nbound\t8\t1\t5")?,
        1
    );
    refused(
        &rt,
        &with_line(b"var\tC\nvar\tD\nvar\tE\nvar\tF\nvar\tG\nvar\tH\nvar\tI"),
        Cause::TooMany,
        10,
        0,
    );
    refused(&rt, b"chronicle\t1\nend\n", Cause::TooMany, 2, 0);
    let mut text = [b'.'; 1024];
    let _ = put_lines(&mut text, b"bound\t1\t2\t5", 64);
    assert_eq!(rt; in_ticks(&text, &NONE_LOADED)?.limits, 64);
    let _ = put_lines(&mut text, b"bound\t1\t2\t5", 65);
    refused(&rt, &text, Cause::TooMany, 68, 0);
    Ok(())
}

#[test]
fn a_bound_is_between_two_variables_above_it(rt: HostRuntime) {
    lines_refused(
        &rt,
        b"bound\t1\t3\t5\nvar\tC/bound\t3\t1\t5\nvar\tC/bound\t1\t1\t5",
        Cause::BadPair,
        0,
    );
}

#[test]
fn a_loaded_slot_is_refused(rt: HostRuntime) -> Result<(), Fail> {
    let mut loaded = NONE_LOADED;
    loaded.load(3);
    has_fault(
        &rt,
        in_ticks(b"chronicle\t3\nvar\tA\nend\n", &loaded),
        Cause::SlotLoaded,
        1,
        2,
    );
    assert_eq!(rt; in_ticks(b"chronicle\t4\nvar\tA\nend\n", &loaded)?.slot, 4);
    Ok(())
}

#[test]
fn a_text_may_stop_too_early(rt: HostRuntime) {
    refused(&rt, b"", Cause::Unfinished, 1, 0);
    refused(&rt, b"chronicle\t1\nvar\tA\n", Cause::Unfinished, 3, 0);
    refused(&rt, b"chronicle\t1\nvar\tA\nend", Cause::BadLine, 3, 0);
}

#[test]
fn a_line_has_its_word_and_number_of_fields(rt: HostRuntime) {
    refused(&rt, b"var\tA\n", Cause::BadLine, 1, 0);
    refused(&rt, b"chronicle\t1\t2\n", Cause::BadLine, 1, 0);
    lines_refused(
        &rt,
        b"/chronicle\t2/Var\tC/var/var\tC\t/bound\t1\t2/bound\t1\t2\t5\t6/end\t",
        Cause::BadLine,
        0,
    );
    // 81 bytes, then 80
    line_refused(
        &rt,
        b"var\t7777777777777777777777777777777777777777777777777777777777777777777777777777X",
        Cause::BadLine,
        0,
    );
    line_refused(
        &rt,
        b"var\t7777777777777777777777777777777777777777777777777777777777777777777777777777",
        Cause::BadField,
        2,
    );
}

#[test]
fn a_bad_field_is_named(rt: HostRuntime) {
    refused(&rt, b"chronicle\t9\n", Cause::BadField, 1, 2);
    lines_refused(
        &rt,
        b"var\t/var\tC\r/var\t\0/var\t\xc3/bound\t0\t9\tx/bound\t+1\t2\t5",
        Cause::BadField,
        2,
    );
    lines_refused(&rt, b"bound\t1\t9\tx/bound\t1\t\t5", Cause::BadField, 3);
    lines_refused(
        &rt,
        b"bound\t1\t1\t-0/bound\t1\t2\t007/bound\t1\t2\t+1/bound\t1\t2\t/bound\t1\t2\t5\r/bound\t1\t2\t5\0/bound\t1\t2\t\xb2",
        Cause::BadField,
        4,
    );
}

#[test]
fn a_bound_goes_up_to_its_limit(rt: HostRuntime) -> Result<(), Fail> {
    assert_eq!(rt;
        limits_with(b"bound\t1\t2\t4294967296\nbound\t2\t1\t-4294967296")?,
        2
    );
    lines_refused(
        &rt,
        b"bound\t1\t2\t4294967297/bound\t1\t2\t-4294967297/bound\t1\t2\t9999999999999999999999",
        Cause::BadField,
        4,
    );
    Ok(())
}

#[test]
fn the_bound_of_a_pair_has_two_fields(rt: HostRuntime) -> Result<(), Fail> {
    assert_eq!(rt; in_pairs(&with_line(b"bound\t1\t2\t5\t-6"))?.limits, 1);
    has_fault(
        &rt,
        in_pairs(&with_line(b"bound\t1\t2\t5\t-0")),
        Cause::BadField,
        4,
        4,
    );
    has_fault(
        &rt,
        in_pairs(&with_line(b"bound\t1\t2\t5")),
        Cause::BadLine,
        4,
        0,
    );
    Ok(())
}

#[test]
fn a_table_has_64_entries(rt: HostRuntime) {
    let mut table = [Bound::NoBound; 63];
    let r = read::<Ticks>(b"chronicle\t1\nvar\tA\nend\n", &NONE_LOADED, &mut table);
    has_fault(&rt, r, Cause::ShortMemory, 0, 0);
}
