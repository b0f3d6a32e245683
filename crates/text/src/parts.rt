// Parts of a text between the bytes of one value, as fields between tabs and lines between line feeds.
ghost use Rattle.std.specs.Prelude.{◌≡◌, ◌<◌, ◌≤◌, [], length, drop, slice_index_or};
ghost use Rattle.text.specs.Split.{split, first_place};

pub const TAB: u8 = b'\t';

pub const LINE_FEED: u8 = b'\n';

/// Where `b` stands first, or the length where it does not stand: the part before `b` then ends there in either case.
pub fn find(bytes: &[u8], b: u8) -> usize
    ensures place { result ≡ first_place b bytes.now }
    ensures within { result ≤ length bytes.now }
{
    bytes.iter().position(|x| *x == b).unwrap_or(bytes.len())
}

/// How many parts there are: one more than bytes `b`.
pub fn count(bytes: &[u8], b: u8) -> usize
    ensures { result ≡ length (split b bytes.now) }
{
    1 + bytes.iter().filter(|x| **x == b).count()
}

/// The text from part `k` on, counted from 0; nothing where there are no more than `k` parts.
pub fn parts_from(bytes: &[u8], b: u8, k: usize) -> &[u8]
    ensures rest { k < length (split b bytes.now) → split b result.now ≡ drop k (split b bytes.now) }
    ensures first { slice_index_or (split b result.now) 0 [] ≡ slice_index_or (split b bytes.now) k [] }
    ensures past { length (split b bytes.now) ≤ k → result.now ≡ [] }
{
    let mut rest = bytes;
    for _ in 0..k {
        let end = find(rest, b);
        if end == rest.len() {
            return &bytes[..0];
        }
        rest = &rest[end + 1..];
    }
    rest
}

/// The first part, up to `b`.
fn first_part(bytes: &[u8], b: u8) -> &[u8]
    ensures { result.now ≡ slice_index_or (split b bytes.now) 0 [] }
{
    &bytes[..find(bytes, b)]
}

/// Part `k`, counted from 0; nothing where there are no more than `k` parts.
pub fn part(bytes: &[u8], b: u8, k: usize) -> &[u8]
    ensures { result.now ≡ slice_index_or (split b bytes.now) k [] }
{
    first_part(parts_from(bytes, b, k), b)
}
