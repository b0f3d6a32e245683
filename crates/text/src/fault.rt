// What can be wrong with a text, and where.
ghost use Rattle.std.specs.Prelude.{◌≡◌, ◌∷◌, ◌++◌, Some, decimal};
ghost use Rattle.text.specs.Faults.{number_of, fault_at, fault_text};

use std::fmt;

#[derive(Clone, Copy, Debug, PartialEq, Eq)]
pub enum Cause {
    BadField,
    BadLine,
    Unfinished,
    TooMany,
    BadPair,
    SlotLoaded,
    Contradictory,
    ShortMemory,
}

/// A field of a line. Lines and fields count from 1, and 0 stands for the whole text or the whole line.
#[derive(Clone, Copy, Debug, PartialEq, Eq)]
pub struct Place {
    pub line: usize,
    pub field: usize,
}

#[derive(Clone, Copy, Debug, PartialEq, Eq)]
pub struct Fault {
    pub cause: Cause,
    pub place: Place,
}

impl From<Cause> for u8 {
    ghost from_gives = { λ cause number. number ≡ number_of cause };

    fn from(cause: Cause) -> u8 {
        match cause {
            Cause::BadField => 11,
            Cause::BadLine => 12,
            Cause::Unfinished => 13,
            Cause::TooMany => 14,
            Cause::BadPair => 15,
            Cause::SlotLoaded => 16,
            Cause::Contradictory => 17,
            Cause::ShortMemory => 28,
        }
    }
}

impl Place {
    pub fn fault(self, cause: Cause) -> Fault
        ensures { result ≡ fault_at cause self.line self.field }
    {
        Fault { cause, place: self }
    }
}

/// The number of the cause, the line and the field, with tabs between them.
impl fmt::Display for Fault {
    ghost output = { λ fault. Some (fault_text fault) };

    fn fmt<W: fmt::Write>(&self, f: &mut fmt::Formatter<W>) -> fmt::Result {
        let number = u8::from(self.cause);
        let Place { line, field } = self.place;
        write!(f, "{number}\t{line}\t{field}")
    }
}
