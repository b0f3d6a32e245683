// How a log ends: clean, or with a fault.
ghost use Rattle.std.specs.Prelude.{◌≡◌};
ghost use Rattle.logs.specs.Endings.{numbers_of};

use text::fault::Fault;

/// A fault in the log of that number.
#[derive(Clone, Copy, Debug, PartialEq, Eq)]
pub struct LogFault {
    pub log: u8,
    pub fault: Fault,
}

/// `Ok` where a log ends clean.
pub type Ending = Result<(), LogFault>;

/// An ending as numbers: that of the cause, 0 where it is clean, and the place of the fault.
#[derive(Clone, Copy, Debug, PartialEq, Eq)]
pub struct EndingNumbers {
    pub number: u8,
    pub log: u8,
    pub line: usize,
    pub field: usize,
}

impl From<Ending> for EndingNumbers {
    ghost from_gives = { λ e r. r ≡ numbers_of e };

    fn from(ending: Ending) -> EndingNumbers {
        match ending {
            Ok(()) => EndingNumbers {
                number: 0,
                log: 0,
                line: 0,
                field: 0,
            },
            Err(LogFault { log, fault }) => EndingNumbers {
                number: u8::from(fault.cause),
                log,
                line: fault.place.line,
                field: fault.place.field,
            },
        }
    }
}
