// Whole numbers of 64 bits as fields: one or two of them read and written.
ghost use Rattle.std.specs.Prelude.{◌≡◌, ◌≤◌, [], length, take, Some, slice_index_or};
ghost use Rattle.std.specs.Option.{ok_or};
ghost use Rattle.text.specs.declared.fault.Cause.TheVariants.{BadField};
ghost use Rattle.text.specs.Faults.{fault_at};
ghost use Rattle.text.specs.Split.{split};
ghost use Rattle.text.specs.Writing.{place_after, pasted};
ghost use Rattle.std.specs.Fmt.{signed_decimal};
ghost use Rattle.kinds.specs.PairOrder.{pair};
ghost use Rattle.kinds.specs.Fields.{long, tick_means, pair_means, pair_text};

use text::fault::{Fault, Place};
use text::number::number;
use text::parts;
use text::writing::{put, put_number};

// Reads the field at k, counted from 0.
pub fn read_field(text: &[u8], k: usize, place: Place) -> Result<i64, Fault>
    ensures { result ≡ ok_or (long (slice_index_or (split 9 text.now) k [])) (fault_at BadField place.line place.field) }
{
    number(parts::part(text, parts::TAB, k), i64::MIN, i64::MAX, place)
}

// The most bytes that two numbers take: each 20, and the tab between them.
pub const WIDEST_PAIR: usize = 41;

// Writes two numbers at the start of a buffer that has room for any, and says where they end.
pub fn put_pair(buffer: &mut [u8], first: i64, second: i64) -> Option<usize>
    requires { 41 ≤ length buffer.old }
    ensures end { result ≡ Some (length (pair_text first second)) }
    ensures short { length (pair_text first second) ≤ 41 }
    ensures text { take (length (pair_text first second)) buffer.new ≡ pair_text first second }
{
    let tab = put_number(buffer, 0, first)?;
    let start = put(buffer, tab, b"\t")?;
    put_number(buffer, start, second)
}

// Writes a number as one field, which is read back.
pub fn write_long(out: &mut [u8], start: usize, z: i64) -> Option<usize>
    ensures place { result ≡ place_after out.old start (signed_decimal z) }
    ensures after { out.new ≡ pasted out.old start (signed_decimal z) }
    ensures read_back { tick_means (split 9 (signed_decimal z)) ≡ Some z }
{
    put_number(out, start, z)
}

// Writes two numbers as two fields, which are read back.
pub fn write_pair(out: &mut [u8], start: usize, first: i64, second: i64) -> Option<usize>
    ensures place { result ≡ place_after out.old start (pair_text first second) }
    ensures after { out.new ≡ pasted out.old start (pair_text first second) }
    ensures read_back { pair_means (split 9 (pair_text first second)) ≡ Some (pair first second) }
{
    let mut text = [0u8; WIDEST_PAIR];
    let end = put_pair(&mut text, first, second)?;
    put(out, start, &text[0..end])
}
