// The text of a line.
ghost use Rattle.std.specs.Prelude.{◌≡◌, ◌≤◌, [], ◌∷◌, ◌++◌, length};
ghost use Rattle.std.specs.Option.{ok_or};
ghost use Rattle.text.specs.Writing.{place_after, pasted};
ghost use Rattle.report.specs.Lines.{text_short};
ghost use Rattle.report.specs.Texts.{head_text, line_text};

use crate::head::{chosen, head_of};
use crate::letter::Letter;
use crate::line::{Line, TextShort};
use crate::pieces::put_pieces;
use kinds::kind::Kind;

// Writes a line with these events, at most eight, where it fits.
fn put_line<K: Kind>(
    out: &mut [u8],
    start: usize,
    letter: Letter,
    slot: u8,
    events: &[u32],
    stamp: &K,
) -> Option<usize>
    requires { length events.now ≤ 8 }
    ensures place { result ≡ place_after out.old start (head_text letter slot events.now ++ (K.written stamp.now ++ (10 ∷ []))) }
    ensures after { out.new ≡ pasted out.old start (head_text letter slot events.now ++ (K.written stamp.now ++ (10 ∷ []))) }
{
    put_pieces(out, start, head_of(letter, slot, events).as_slice(), stamp)
}

impl<K: Kind> Line<K> {
    // Writes the text from `start` on where it fits, and says where it ends; else writes nothing.
    pub fn write(&self, out: &mut [u8], start: usize) -> Result<usize, TextShort>
        ensures place { result ≡ ok_or (place_after out.old start (line_text K.written self.now)) text_short }
        ensures after { out.new ≡ pasted out.old start (line_text K.written self.now) }
    {
        let events = chosen(&self.choice, self.width);
        put_line(out, start, self.letter, self.slot, events, &self.stamp).ok_or(TextShort)
    }
}
