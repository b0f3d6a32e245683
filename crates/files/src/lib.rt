// Files that the programs read: at most 65,536 bytes each.
#![tactic(auto)]

ghost use Rattle.std.specs.Prelude.{◌≡◌, ◌≤◌, IfOk, vec_len};
ghost use Rattle.files.specs.Inputs.{Judges, input_number, refusal_number, unread_text};
ghost use Rattle.files.specs.declared.Unread.TheVariants.{Failed, Long};

use std::alloc::Global;
use std::error::Error;
use std::fs::File;
use std::io::Read;
use std::{fmt, io};

#[cfg(test)]
mod tests;

pub const MOST_BYTES: usize = 65_536;

/// The refusal of a file that has more bytes.
#[derive(Clone, Copy, Debug, PartialEq, Eq)]
pub struct TooLong;

impl From<TooLong> for u8 {
    ghost from_gives = { λ refusal number. number ≡ refusal_number refusal };

    fn from(_refusal: TooLong) -> u8 {
        27
    }
}

/// Why a file was not read.
#[derive(Clone, Copy, Debug)]
pub enum Unread {
    Failed(io::Error),
    Long(TooLong),
}

impl From<io::Error> for Unread {
    ghost from_gives = { λ error unread. unread ≡ Failed error };

    fn from(error: io::Error) -> Unread {
        Unread::Failed(error)
    }
}

impl From<TooLong> for Unread {
    ghost from_gives = { λ refusal unread. unread ≡ Long refusal };

    fn from(refusal: TooLong) -> Unread {
        Unread::Long(refusal)
    }
}

/// What a program says of it; of a failed one the system's words.
impl fmt::Display for Unread {
    ghost output = { unread_text };

    fn fmt<W: fmt::Write>(&self, f: &mut fmt::Formatter<W>) -> fmt::Result {
        match self {
            Unread::Failed(cause) => fmt::Display::fmt(cause, f),
            Unread::Long(_) => f.write_str("the file is too long"),
        }
    }
}

impl Error for Unread {}

/// 0 for a text that was read, else the number of the refusal; a file that failed has none.
pub fn input_number(read: &Result<Vec<u8>, Unread>) -> Option<u8>
    ensures { result ≡ input_number read.now }
{
    match read {
        Ok(_) => Some(0),
        Err(Unread::Long(long)) => Some(u8::from(*long)),
        Err(Unread::Failed(_)) => None,
    }
}

fn if_short(bytes: Vec<u8>) -> Result<Vec<u8>, TooLong>
    ensures { Judges bytes result }
{
    if bytes.len() > MOST_BYTES {
        return Err(TooLong);
    }
    Ok(bytes)
}

/// Reads one byte more than a file may have, so that a longer one shows.
pub fn read_input(rt: &HostRuntime, path: &str) -> Result<Vec<u8>, Unread>
    ensures { IfOk result (λ text. vec_len text ≤ 65536) }
{
    let mut bytes = Vec::new(rt.alloc());
    let mut start = File::open(rt, path)?.take(65_537);
    start.read_to_end(&mut bytes)?;
    Ok(if_short(bytes)?)
}
