// Lines of a text: one is read where it begins, and the line of a fault is found again.
ghost use Rattle.std.specs.Prelude.{◌≡◌, drop, nat_le};
ghost use Rattle.text.specs.Lines.{Answers, line_of, line_text};
ghost use Rattle.text.specs.Split.{split};

use crate::fault::{Cause, Fault, Place};
use crate::parts;
use crate::parts::LINE_FEED;

/// The most bytes that a line has before its line feed.
pub const LONGEST: usize = 80;

fn is_short(len: usize) -> bool
    ensures { result ≡ nat_le len 80 }
{
    len <= LONGEST
}

/// The first line of a text, as line `number`.
fn first_line(text: &[u8], number: usize) -> Result<&[u8], Fault>
    ensures { Answers (line_of number (split 10 text.now)) result }
{
    let place = Place {
        line: number,
        field: 0,
    };
    let end = parts::find(text, LINE_FEED);
    if text.is_empty() {
        return Err(place.fault(Cause::Unfinished));
    }
    if end >= text.len() {
        return Err(place.fault(Cause::BadLine));
    }
    if is_short(end) {
        Ok(&text[..end])
    } else {
        Err(place.fault(Cause::BadLine))
    }
}

/// The text from byte `from` on. Past its end it is empty.
fn text_from(text: &[u8], from: usize) -> &[u8]
    ensures { result.now ≡ drop from text.now }
{
    text.get(from..).unwrap_or(&[])
}

// Text, place and number stay three arguments: a log keeps them as its cursor, a definition's reader as locals.

/// The line that begins at byte `from`, as line `number`.
pub fn line_at(text: &[u8], from: usize, number: usize) -> Result<&[u8], Fault>
    ensures { Answers (line_of number (split 10 (drop from text.now))) result }
{
    first_line(text_from(text, from), number)
}

/// The line that a fault stands on, as part of the caller's text.
// Line 0 stands for none: the empty answer is then one that lies in the text's own memory (`ref_ptr.0` names it).
pub fn faulty_line<'a>(text: &'a [u8], fault: &Fault) -> &'a [u8]
    ensures line { result.now ≡ line_text (split 10 text.now) fault.now.place.line }
    ensures inside { fault.now.place.line ≡ 0 → result.ref_ptr.0 ≡ text.entry.ref_ptr.0 }
{
    if fault.place.line == 0 {
        return &text[..0];
    }
    parts::part(text, LINE_FEED, fault.place.line - 1)
}
