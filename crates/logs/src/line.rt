// One line of a log: the record that it holds, or its fault.
ghost use Rattle.std.specs.Prelude.{◌≡◌, ◌<◌, length};
ghost use Rattle.std.specs.Option.{ok_or};
ghost use Rattle.text.specs.declared.fault.Cause.TheVariants.{BadField};
ghost use Rattle.text.specs.Faults.{fault_at};
ghost use Rattle.text.specs.Split.{split};
ghost use Rattle.logs.specs.LogLines.{gauge_of, fields_say, line_says, Says};

use crate::record::Record;
use kinds::behind::{has_fields_behind, read_behind};
use kinds::kind::Kind;
use text::fault::{Cause, Fault, Place};
use text::name::Name;
use text::number::number;
use text::parts::{TAB, count, part};

/// The largest number of a gauge; the smallest is 1.
pub const LAST_GAUGE: i64 = 9_999;

fn read_gauge(field: &[u8], place: Place) -> Result<u32, Fault>
    ensures { result ≡ ok_or (gauge_of field.now) (fault_at BadField place.line place.field) }
{
    let n = number(field, 1, LAST_GAUGE, place)?;
    // A conversion that may fail would name an error that cannot come.
    Ok(n as u32)
}

/// The fields of a line, from the left.
fn read_fields<K: Kind>(text: &[u8], line: usize) -> Result<Record<K>, Fault>
    ensures { 2 < length (split 9 text.now) → Says K.value (fields_say K.fields K.means K.stamp line (split 9 text.now)) result }
{
    let name = Name::read(part(text, TAB, 0), Place { line, field: 1 })?;
    let gauge = read_gauge(part(text, TAB, 1), Place { line, field: 2 })?;
    let stamp = read_behind(text, 2, Place { line, field: 3 }, K::is_stamp)?;
    Ok(Record { name, gauge, stamp })
}

/// What a line of a log says: the number of its fields, then the fields.
pub fn read_line<K: Kind>(text: &[u8], line: usize) -> Result<Record<K>, Fault>
    ensures { Says K.value (line_says K.fields K.means K.stamp line (split 9 text.now)) result }
{
    if !has_fields_behind::<K>(2, count(text, TAB)) {
        return Err(Place { line, field: 0 }.fault(Cause::BadLine));
    }
    read_fields(text, line)
}
