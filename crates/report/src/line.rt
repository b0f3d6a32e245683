// A line of a report, and the refusal to write it.
ghost use Rattle.std.specs.Prelude.{◌≡◌};
ghost use Rattle.report.specs.Lines.{refusal_number};

use crate::letter::Letter;
use lent::list::Lent;

// The events of the row are the first `width` numbers of the choice: lines lie in lent memory, so the array is fixed.
#[derive(Clone, Copy, Debug, PartialEq, Eq)]
pub struct Line<K> {
    pub letter: Letter,
    pub slot: u8,
    pub width: u8,
    pub choice: [u32; 8],
    pub stamp: K,
}

// The lines of a call, in memory that its caller lends.
pub type Report<'a, K> = Lent<'a, Line<K>>;

// There is no room for the text of a line.
#[derive(Clone, Copy, Debug, PartialEq, Eq)]
pub struct TextShort;

impl From<TextShort> for u8 {
    ghost from_gives = { λ refusal number. number ≡ refusal_number refusal };

    fn from(_refusal: TextShort) -> u8 {
        29
    }
}
