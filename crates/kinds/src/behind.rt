// The element of a kind in the fields of a line that follow its first few.
ghost use Rattle.std.specs.Prelude.{◌≡◌, ◌+◌, ◌<◌, Bool, length, drop, ◌==◌};
ghost use Rattle.std.specs.Fn.{FnOnceReturnsAt};
ghost use Rattle.text.specs.declared.fault.Cause.TheVariants.{BadField};
ghost use Rattle.text.specs.Faults.{fault_at};
ghost use Rattle.text.specs.Split.{split};
ghost use Rattle.kinds.specs.Fields.{Reads, admitted};

use crate::kind::Kind;
use text::fault::{Cause, Fault, Place};
use text::parts::{TAB, parts_from};

// Whether `count` fields are those before an element and the element's own.
pub fn has_fields_behind<K: Kind>(before: usize, count: usize) -> bool
    ensures { result ≡ (count == before + K.fields) }
{
    count.checked_sub(before) == Some(K::field_count())
}

// Reads the element behind the first fields of a line, and admits it where the caller's test does.
pub fn read_behind<K: Kind, F: FnOnce(&K) -> bool>(
    line: &[u8],
    before: usize,
    place: Place,
    admits: F,
) -> Result<K, Fault>
    requires { F.IsAlwaysCallable admits }
    ensures { (test : K.G → Bool) → ((k : K) (r : Bool) → FnOnceReturnsAt F.FnOnce admits k r → r ≡ test (K.value k)) → before < length (split 9 line.now) → Reads K.value (admitted test (K.means (drop before (split 9 line.now)))) (fault_at BadField place.line place.field) result }
{
    let read = K::read(parts_from(line, TAB, before), place)?;
    if !admits(&read) {
        return Err(place.fault(Cause::BadField));
    }
    Ok(read)
}
