// The front of lent memory: the elements of `items` before `len`, which may lie past the end.
ghost use Rattle.std.specs.Prelude.{◌≡◌, take};

pub fn front<T: Copy>(items: &[T], len: usize) -> &[T]
    ensures { result.now ≡ take len items.now }
{
    &items[..len.min(items.len())]
}
