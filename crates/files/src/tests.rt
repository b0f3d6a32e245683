// Files at the limit, without bytes, without end, and none at all.
use crate::{TooLong, Unread, input_number, read_input};
use std::fs;
use std::test::Fail;

#[test]
fn a_file_may_be_too_long(rt: HostRuntime) -> Result<(), Fail> {
    let empty = read_input(&rt, "/dev/null");
    assert_eq!(rt; input_number(&empty), Some(0));
    assert_eq!(rt; empty?.len(), 0);
    let endless = read_input(&rt, "/dev/zero");
    assert!(rt; matches!(endless, Err(Unread::Long(TooLong))));
    assert_eq!(rt; input_number(&endless), Some(27));
    assert_eq!(rt; u8::from(TooLong), 27);
    Ok(())
}

#[test]
fn one_byte_more_is_too_long(rt: HostRuntime) -> Result<(), Fail> {
    let path = "files_tests_limit.txt";
    let full = vec![in rt.alloc(); b'A'; 65_536]?;
    fs::write(&rt, path, full.as_slice())?;
    assert_eq!(rt; read_input(&rt, path)?.len(), 65_536);
    let long = vec![in rt.alloc(); b'A'; 65_537]?;
    fs::write(&rt, path, long.as_slice())?;
    assert_eq!(rt; input_number(&read_input(&rt, path)), Some(27));
    fs::remove_file(&rt, path)?;
    Ok(())
}

#[test]
fn a_missing_file_prints_as_the_system_says(rt: HostRuntime) -> Result<(), Fail> {
    let missing = read_input(&rt, "no/such/file");
    assert_eq!(rt; input_number(&missing), None);
    let Err(unread) = missing else {
        return Err(Fail::from("a file that is not there was read"));
    };
    let said = format!(in rt.alloc(); "{unread}")?;
    assert_eq!(rt; said.as_str(), "No such file or directory (os error 2)");
    Ok(())
}
