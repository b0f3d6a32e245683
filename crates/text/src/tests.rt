// Texts at the edges of what is read and written.
use crate::fault::{Cause, Fault, Place};
use crate::lines::{faulty_line, line_at};
use crate::name::Name;
use crate::number::number;
use crate::parts::{TAB, count, part, parts_from};
use crate::writing::{put, put_number};
use std::process::Abort;
use std::test::Fail;

const PLACE: Place = Place { line: 3, field: 2 };

fn fault_at(cause: Cause, line: usize, field: usize) -> Fault {
    Place { line, field }.fault(cause)
}

fn whole(field: &[u8]) -> Result<i64, Fault> {
    number(field, i64::MIN, i64::MAX, PLACE)
}

fn no_number(rt: &impl Abort, field: &[u8]) {
    assert_eq!(rt; whole(field), Err(fault_at(Cause::BadField, 3, 2)));
}

fn no_line(rt: &impl Abort, text: &[u8], from: usize, expected: Fault) {
    let read = line_at(text, from, expected.place.line);
    assert_eq!(rt; read.err(), Some(expected));
}

fn no_name(rt: &impl Abort, bytes: &[u8]) {
    assert!(rt; Name::new(bytes).is_err());
    assert!(rt; Name::read(bytes, PLACE).is_err());
}

#[test]
fn a_line_has_at_most_80_bytes(rt: HostRuntime) -> Result<(), Fail> {
    let mut text = [b'x'; 82];
    text[81] = b'\n';
    no_line(&rt, &text, 0, fault_at(Cause::BadLine, 7, 0));
    let line = line_at(&text, 1, 7)?;
    assert_eq!(rt; line.len(), 80);
    Ok(())
}

#[test]
fn a_text_may_stop_or_break_off(rt: HostRuntime) -> Result<(), Fail> {
    assert_eq!(rt; line_at(b"A\r\nB", 0, 1)?, b"A\r".as_slice());
    no_line(&rt, b"A\nB", 2, fault_at(Cause::BadLine, 2, 0));
    no_line(&rt, b"A\n", 2, fault_at(Cause::Unfinished, 2, 0));
    no_line(&rt, b"A\n", 9, fault_at(Cause::Unfinished, 2, 0));
    assert_eq!(rt;
        faulty_line(b"A\nB", &fault_at(Cause::BadLine, 2, 0)),
        b"B".as_slice()
    );
    assert_eq!(rt;
        faulty_line(b"A\nB", &fault_at(Cause::BadLine, 0, 0)),
        b"".as_slice()
    );
    assert_eq!(rt;
        faulty_line(b"A\nB", &fault_at(Cause::BadLine, 3, 0)),
        b"".as_slice()
    );
    Ok(())
}

#[test]
fn fields_stand_between_tabs(rt: HostRuntime) {
    assert_eq!(rt; count(b"a\t\tb", TAB), 3);
    assert_eq!(rt; part(b"a\t\tb", TAB, 1), b"".as_slice());
    assert_eq!(rt; part(b"a\t\tb", TAB, 2), b"b".as_slice());
    assert_eq!(rt; part(b"a\t\tb", TAB, 3), b"".as_slice());
    assert_eq!(rt; parts_from(b"a\t\tb", TAB, 1), b"\tb".as_slice());
}

#[test]
fn numbers_are_written_one_way(rt: HostRuntime) -> Result<(), Fail> {
    assert_eq!(rt; whole(b"0")?, 0);
    assert_eq!(rt; whole(b"-9223372036854775808")?, i64::MIN);
    assert_eq!(rt; whole(b"9223372036854775807")?, i64::MAX);
    no_number(&rt, b"9223372036854775808");
    no_number(&rt, b"-9223372036854775809");
    no_number(
        &rt,
        b"100000000000000000000000000000000000000000000000000000000000",
    );
    assert_eq!(rt; number(b"-5", -5, 5, PLACE)?, -5);
    assert_eq!(rt; number(b"5", -5, 5, PLACE)?, 5);
    assert!(rt; number(b"-6", -5, 5, PLACE).is_err());
    assert!(rt; number(b"6", -5, 5, PLACE).is_err());
    Ok(())
}

#[test]
fn other_fields_are_no_numbers(rt: HostRuntime) {
    no_number(&rt, b"");
    no_number(&rt, b"-");
    no_number(&rt, b"-0");
    no_number(&rt, b"007");
    no_number(&rt, b"+1");
    no_number(&rt, b"1\r");
    no_number(&rt, b"1\0");
    no_number(&rt, b"\xb2");
}

#[test]
fn names_have_one_to_eight_capitals_or_digits(rt: HostRuntime) -> Result<(), Fail> {
    assert_eq!(rt; Name::read(b"A", PLACE)?.as_bytes(), b"A".as_slice());
    assert_eq!(rt;
        Name::read(b"ABCXYZ09", PLACE)?.as_bytes(),
        b"ABCXYZ09".as_slice()
    );
    no_name(&rt, b"");
    no_name(&rt, b"ABCDEFGHI");
    no_name(&rt, b"Ab");
    no_name(&rt, b"A\r");
    no_name(&rt, b"A\0");
    no_name(&rt, b"\xc1");
    Ok(())
}

#[test]
fn bytes_and_numbers_are_put_where_they_fit(rt: HostRuntime) {
    let mut out = [b'.'; 22];
    assert_eq!(rt; put_number(&mut out, 1, i64::MIN), Some(21));
    assert_eq!(rt; put(&mut out, 21, b"ab"), None);
    assert_eq!(rt; put(&mut out, usize::MAX, b"ab"), None);
    assert_eq!(rt; &out, b".-9223372036854775808.");
    assert_eq!(rt; put_number(&mut out, 0, 0), Some(1));
    assert_eq!(rt; &out[0..2], b"0-".as_slice());
}
