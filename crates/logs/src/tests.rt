// Logs and merges at the edges of what they read.
use crate::ending::EndingNumbers;
use crate::merge::Merge;
use crate::source::{Next, Source};
use crate::text_log::TextLog;
use kinds::kind::Kind;
use kinds::pairs::Pairs;
use kinds::ticks::Ticks;

const CLEAN: EndingNumbers = EndingNumbers {
    number: 0,
    log: 0,
    line: 0,
    field: 0,
};

fn ticks(text: &[u8]) -> TextLog<Ticks> {
    TextLog::open(text, 7)
}

fn pairs(text: &[u8]) -> TextLog<Pairs> {
    TextLog::open(text, 255)
}

/// How a source ends, where no record waits in it.
fn ended<K: Kind>(next: Next<K>) -> Option<EndingNumbers> {
    match next {
        Ok(Some(_)) => None,
        Ok(None) => Some(EndingNumbers::from(Ok(()))),
        Err(fault) => Some(EndingNumbers::from(Err(fault))),
    }
}

/// The gauge of the record that waits; 0 where none does.
fn gauge<K: Kind>(next: Next<K>) -> u32 {
    match next {
        Ok(Some(record)) => record.gauge,
        _ => 0,
    }
}

fn fault(number: u8, line: usize, field: usize) -> EndingNumbers {
    EndingNumbers {
        number,
        log: 7,
        line,
        field,
    }
}

#[test]
fn a_text_stops_or_breaks_off(rt: HostRuntime) {
    assert_eq!(rt; ended(ticks(b"").look()), Some(CLEAN));
    let mut log = ticks(b"JUMP\t101\t100\nSEEP");
    assert_eq!(rt; gauge(log.look()), 101);
    assert_eq!(rt; log.faulty_line(), b"".as_slice());
    assert_eq!(rt; gauge(log.take()), 101);
    assert_eq!(rt; ended(log.take()), Some(fault(12, 2, 0)));
    assert_eq!(rt; ended(log.look()), Some(fault(12, 2, 0)));
    assert_eq!(rt; log.faulty_line(), b"SEEP".as_slice());
}

#[test]
fn a_line_has_at_most_80_bytes(rt: HostRuntime) {
    let mut text = [b'A'; 82];
    text[77] = b'\t';
    text[79] = b'\t';
    text[81] = b'\n';
    assert_eq!(rt; ended(ticks(&text).look()), Some(fault(12, 1, 0)));
    assert_eq!(rt; ended(ticks(&text[1..]).look()), Some(fault(11, 1, 1)));
}

#[test]
fn fields_are_read_from_the_left(rt: HostRuntime) {
    assert_eq!(rt; ended(ticks(b"a\t0\n").look()), Some(fault(12, 1, 0)));
    assert_eq!(rt; ended(ticks(b"a\t0\tx\n").look()), Some(fault(11, 1, 1)));
    assert_eq!(rt; ended(ticks(b"A\t0\tx\n").look()), Some(fault(11, 1, 2)));
    assert_eq!(rt;
        ended(ticks(b"A\t10000\tx\n").look()),
        Some(fault(11, 1, 2))
    );
    assert_eq!(rt; ended(ticks(b"A\t1\tx\n").look()), Some(fault(11, 1, 3)));
    assert_eq!(rt; gauge(ticks(b"A\t1\t5\n").look()), 1);
    assert_eq!(rt; gauge(ticks(b"A\t9999\t5\n").look()), 9999);
}

#[test]
fn stamps_are_admitted(rt: HostRuntime) {
    assert_eq!(rt; gauge(ticks(b"A\t1\t0\n").look()), 1);
    assert_eq!(rt; gauge(ticks(b"A\t1\t1099511627776\n").look()), 1);
    assert_eq!(rt;
        ended(ticks(b"A\t1\t1099511627777\n").look()),
        Some(fault(11, 1, 3))
    );
    assert_eq!(rt; ended(ticks(b"A\t1\t-1\n").look()), Some(fault(11, 1, 3)));
    assert_eq!(rt; gauge(pairs(b"A\t1\t0\t4294967295\n").look()), 1);
    let refused = EndingNumbers {
        number: 11,
        log: 255,
        line: 1,
        field: 3,
    };
    assert_eq!(rt;
        ended(pairs(b"A\t1\t0\t4294967296\n").look()),
        Some(refused)
    );
    assert_eq!(rt; ended(pairs(b"A\t1\t0\tx\n").look()), Some(refused));
}

#[test]
fn a_merge_follows_the_stamps(rt: HostRuntime) {
    let mut both = Merge::new(ticks(b"A\t1\t5\nA\t2\t7\n"), ticks(b"A\t3\t5\nA\t4\t6\n"));
    assert_eq!(rt; gauge(both.look()), 1);
    assert_eq!(rt; gauge(both.take()), 1);
    assert_eq!(rt; gauge(both.take()), 3);
    assert_eq!(rt; gauge(both.take()), 4);
    assert_eq!(rt; gauge(both.take()), 2);
    assert_eq!(rt; ended(both.take()), Some(CLEAN));
    let mut three = Merge::new(
        Merge::new(ticks(b"A\t1\t5\n"), ticks(b"")),
        ticks(b"A\t2\t4\n"),
    );
    assert_eq!(rt; gauge(three.take()), 2);
    assert_eq!(rt; gauge(three.take()), 1);
    assert_eq!(rt; ended(three.look()), Some(CLEAN));
}

#[test]
fn a_fault_ends_a_merge(rt: HostRuntime) {
    let mut first = Merge::new(ticks(b"A\t1\t5\n-"), ticks(b"A\t2\t6\n"));
    assert_eq!(rt; gauge(first.take()), 1);
    assert_eq!(rt; ended(first.take()), Some(fault(12, 2, 0)));
    let mut second = Merge::new(ticks(b"A\t1\t5\n"), ticks(b"A\t2\t4\n\n"));
    assert_eq!(rt; gauge(second.take()), 2);
    assert_eq!(rt; ended(second.look()), Some(fault(12, 2, 0)));
    assert_eq!(rt;
        ended(Merge::new(ticks(b"-"), TextLog::open(b"-", 8)).look()),
        Some(fault(12, 1, 0))
    );
}
