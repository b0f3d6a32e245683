// Names are tested, made, read from a field and compared.
ghost use Rattle.std.specs.Prelude.{◌≡◌, ◌-◌, ◌≤◌, false, ◌++◌, length, replicate, Some, Decides, MatchResult};
ghost use Rattle.text.specs.declared.fault.Cause.TheVariants.{BadField};
ghost use Rattle.text.specs.Faults.{fault_at};
ghost use Rattle.text.specs.Names.{name_byte, name_bytes, is_name};
ghost use Rattle.text.specs.Spelled.{spelled, Spells, refusal_number};

use super::{Name, NotAName};
use crate::fault::{Cause, Fault, Place};
use std::{fmt, str};

fn is_name_byte(b: u8) -> bool
    ensures { result ≡ name_byte b }
{
    b.is_ascii_uppercase() || b.is_ascii_digit()
}

fn all_name_bytes(bytes: &[u8]) -> bool
    ensures { result ≡ name_bytes bytes.now }
{
    // A rule of the project: a loop over a name's bytes, each tested before the name is made.
    for b in bytes {
        if !is_name_byte(*b) {
            return false;
        }
    }
    true
}

fn is_name(bytes: &[u8]) -> bool
    ensures { result ≡ is_name bytes.now }
{
    (1..=8).contains(&bytes.len()) && all_name_bytes(bytes)
}

/// The bytes, and zeros after them.
fn padded(bytes: &[u8]) -> [u8; 8]
    requires { length bytes.now ≤ 8 }
    ensures { result ≡ bytes.now ++ replicate (8 - length bytes.now) 0 }
{
    let mut all = [0; 8];
    all[..bytes.len()].copy_from_slice(bytes);
    all
}

impl From<NotAName> for u8 {
    ghost from_gives = { λ refusal number. number ≡ refusal_number refusal };

    fn from(_refusal: NotAName) -> u8 {
        21
    }
}

/// The letters of the name.
impl fmt::Display for Name {
    ghost output = { λ name. Some (spelled name) };

    fn fmt<W: fmt::Write>(&self, f: &mut fmt::Formatter<W>) -> fmt::Result {
        f.write_str(str::from_utf8(self.as_bytes()).unwrap())
    }
}

impl Name {
    pub fn new(bytes: &[u8]) -> Result<Name, NotAName>
        ensures { MatchResult result (Spells bytes.now) (λ _. is_name bytes.now ≡ false) }
    {
        if !is_name(bytes) {
            return Err(NotAName);
        }
        Ok(Name {
            bytes: padded(bytes),
            len: bytes.len(),
        })
    }

    /// The name in a field.
    pub fn read(field: &[u8], place: Place) -> Result<Name, Fault>
        ensures { MatchResult result (Spells field.now) (λ f. (is_name field.now ≡ false) × (f ≡ fault_at BadField place.line place.field)) }
    {
        Name::new(field).map_err(|_| place.fault(Cause::BadField))
    }

    pub fn as_bytes(&self) -> &[u8]
        ensures { result.now ≡ spelled self.now }
    {
        &self.bytes[..self.len]
    }

    pub fn same(&self, other: &Name) -> bool
        ensures { Decides result (spelled self.now ≡ spelled other.now) }
    {
        self == other
    }
}
