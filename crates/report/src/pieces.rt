// A line's pieces in the caller's buffer: all of them or none.
ghost use Rattle.std.specs.Prelude.{◌≡◌, [], ◌∷◌, ◌++◌};
ghost use Rattle.text.specs.Writing.{place_after, pasted};

use kinds::kind::Kind;
use text::writing::put;

// Writes the head, the stamp and a line feed where they fit, and says where they end; else writes nothing.
pub fn put_pieces<K: Kind>(out: &mut [u8], start: usize, head: &[u8], stamp: &K) -> Option<usize>
    ensures place { result ≡ place_after out.old start (head.now ++ (K.written stamp.now ++ (10 ∷ []))) }
    ensures after { out.new ≡ pasted out.old start (head.now ++ (K.written stamp.now ++ (10 ∷ []))) }
{
    let len = out.len();
    if start > len {
        return None;
    }
    if head.len() >= len - start {
        return None;
    }
    let behind_head = start + head.len();
    // Short of the last byte, so that the line feed has room wherever the stamp has.
    let end = stamp.write(&mut out[0..len - 1], behind_head)?;
    put(out, start, head);
    out[end] = b'\n';
    Some(end + 1)
}
