// Bytes and numbers written into a caller's buffer.
ghost use Rattle.std.specs.Prelude.{◌≡◌};
ghost use Rattle.std.specs.Fmt.{signed_decimal};
ghost use Rattle.text.specs.Writing.{place_after, pasted};

// Buffer and place stay two arguments: a caller that writes on has only the place to carry.

/// Writes `bytes` from `start` on and says where they end, or writes nothing where they do not fit.
pub fn put(out: &mut [u8], start: usize, bytes: &[u8]) -> Option<usize>
    ensures place { result ≡ place_after out.old start bytes.now }
    ensures after { out.new ≡ pasted out.old start bytes.now }
{
    if start > out.len() {
        return None;
    }
    if bytes.len() > out.len() - start {
        return None;
    }
    let end = start + bytes.len();
    out[start..end].copy_from_slice(bytes);
    Some(end)
}

/// Writes a number in decimal, as `put` writes bytes.
pub fn put_number(out: &mut [u8], start: usize, z: i64) -> Option<usize>
    ensures place { result ≡ place_after out.old start (signed_decimal z) }
    ensures after { out.new ≡ pasted out.old start (signed_decimal z) }
{
    put(out, start, itoa::Buffer::new().format(z).as_bytes())
}
