// A sink that only counts: how many more items there would be room for, and whether there were too many.
ghost use Rattle.std.specs.Prelude.{◌≡◌, false};
ghost use Rattle.lent.specs.Counting.{places, lacking, counted, counted_adds};

use crate::sink::Sink;

#[derive(Clone, Copy, Debug, PartialEq, Eq)]
pub struct Room {
    // absent once more was put than there was room for
    left: Option<usize>,
}

impl Room {
    pub fn new(left: usize) -> Room
        ensures left { places result ≡ left }
        ensures short { lacking result ≡ false }
    {
        Room { left: Some(left) }
    }

    pub fn left(&self) -> usize
        ensures { result ≡ places self.now }
    {
        self.left.unwrap_or(0)
    }

    pub fn is_short(&self) -> bool
        ensures { result ≡ lacking self.now }
    {
        self.left.is_none()
    }
}

impl<T> Sink<T> for Room {
    ghost took = { counted };

    ghost adds = { counted_adds };

    fn put(&mut self, item: &T) {
        self.left = self.left.and_then(|n| n.checked_sub(1));
    }
}
