// A list in lent memory.
ghost use Rattle.std.specs.Prelude.{◌≡◌, ◌-◌, ◌≤◌, [], length, take};
ghost use Rattle.std.specs.List.{slice_get};
ghost use Rattle.lent.specs.Lists.{memory, held, Pushes, Replaces};

use crate::front::front;

// The first `len` elements of the memory; the rest is free.
// Memory is lent: no list of the library's own.
#[derive(Drop)]
pub struct Lent<'a, T> {
    items: &'a mut [T],
    len: usize,
}

// There is no room for another element.
#[derive(Clone, Copy, Debug, PartialEq, Eq)]
pub struct Full;

impl<'a, T: Copy> Lent<'a, T> {
    // An empty list, over memory of any length.
    pub fn new(lent: &'a mut [T]) -> Lent<'a, T>
        ensures empty { held result ≡ [] }
        ensures over { memory result ≡ lent.old }
    {
        Lent {
            items: lent,
            len: 0,
        }
    }

    pub fn capacity(&self) -> usize
        ensures { result ≡ length (memory self.now) }
    {
        self.items.len()
    }

    pub fn as_slice(&self) -> &[T]
        ensures { result.now ≡ held self.now }
    {
        front(&*self.items, self.len)
    }

    pub fn len(&self) -> usize
        ensures count { result ≡ length (held self.now) }
        ensures within { result ≤ length (memory self.now) }
    {
        self.as_slice().len()
    }

    // How many more elements the memory has room for.
    pub fn room(&self) -> usize
        ensures { result ≡ length (memory self.now) - length (held self.now) }
    {
        self.capacity() - self.len()
    }

    pub fn get(&self, i: usize) -> Option<T>
        ensures { result ≡ slice_get (held self.now) i }
    {
        self.as_slice().get(i).copied()
    }

    // Adds an element at the end; refused, with nothing changed, where the memory is full.
    pub fn push(&mut self, item: T) -> Result<(), Full>
        ensures { Pushes self.old item result self.new }
    {
        let len = self.len();
        if len == self.capacity() {
            return Err(Full);
        }
        self.items[len] = item;
        self.len = len + 1;
        Ok(())
    }

    // Puts an element in the place of the one at i, or changes nothing where there is none.
    pub fn set(&mut self, i: usize, item: T)
        ensures { Replaces self.old i item self.new }
    {
        if i < self.len() {
            self.items[i] = item;
        }
    }

    // Keeps the first n elements at most.
    pub fn truncate(&mut self, n: usize)
        ensures held { held self.new ≡ take n (held self.old) }
        ensures memory { memory self.new ≡ memory self.old }
    {
        self.len = self.len.min(n);
    }

    pub fn clear(&mut self)
        ensures held { held self.new ≡ [] }
        ensures memory { memory self.new ≡ memory self.old }
    {
        self.truncate(0);
    }
}
