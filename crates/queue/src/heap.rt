// The queue: a heap over lent memory.
ghost use Rattle.std.specs.Prelude.{◌≡◌, ◌≤◌, [], ◌∷◌, ◌++◌, length, Decides};
ghost use Rattle.std.specs.List.Sorted.{IsPermutation};
ghost use Rattle.queue.specs.Heaps.{Heaped, first, Leads};
ghost use Rattle.queue.specs.Held.{memory, held, Stores, Takes};

use crate::front::{heapify_front, raise_last, remove_front};
use crate::ranked::Ranked;
use lent::front::front;
pub use lent::list::Full;

// The first `len` elements of the memory; the rest is free.
// It lies over the lent slice itself, not over a list: the steps of a heap swap inside that slice.
// `new`, `clear` and `settle` leave a heap in order, `push` and `take` keep it so, and only `append` does not.
#[derive(Drop)]
pub struct Heap<'a, T> {
    items: &'a mut [T],
    len: usize,
}

impl<'a, T: Ranked> Heap<'a, T> {
    // An empty heap, over memory of any length.
    pub fn new(lent: &'a mut [T]) -> Heap<'a, T>
        ensures empty { held result ≡ [] }
        ensures over { memory result ≡ lent.old }
        ensures heaped { Heaped T.leq (held result) }
    {
        Heap {
            items: lent,
            len: 0,
        }
    }

    pub fn capacity(&self) -> usize
        ensures { result ≡ length (memory self.now) }
    {
        self.items.len()
    }

    // The elements in the heap's own order.
    fn as_slice(&self) -> &[T]
        ensures { result.now ≡ held self.now }
    {
        front(&*self.items, self.len)
    }

    pub fn len(&self) -> usize
        ensures count { result ≡ length (held self.now) }
        ensures within { result ≤ length (memory self.now) }
    {
        self.as_slice().len()
    }

    pub fn is_empty(&self) -> bool
        ensures { Decides result (length (held self.now) ≡ 0) }
    {
        self.len() == 0
    }

    // The element that comes no later than any, where the heap is in order; absent where it is empty.
    pub fn least(&self) -> Option<T>
        ensures first { result ≡ first (held self.now) }
        ensures leads { Heaped T.leq (held self.now) → Leads T.leq (held self.now) result }
    {
        self.as_slice().first().copied()
    }

    pub fn clear(&mut self)
        ensures empty { held self.new ≡ [] }
        ensures memory { memory self.new ≡ memory self.old }
        ensures heaped { Heaped T.leq (held self.new) }
    {
        self.len = 0;
    }

    // Adds an element at the end, whatever its place, and is refused as `push` is: `settle` is to follow before the order counts.
    pub fn append(&mut self, item: T) -> Result<(), Full>
        ensures { Stores self.old self.new result (λ ys. ys ≡ held self.old ++ (item ∷ [])) }
    {
        let len = self.len();
        if len == self.capacity() {
            return Err(Full);
        }
        self.items[len] = item;
        self.len = len + 1;
        Ok(())
    }

    // Brings all elements into order, in linear time.
    pub fn settle(&mut self)
        ensures shuffled { IsPermutation (held self.old) (held self.new) }
        ensures heaped { Heaped T.leq (held self.new) }
        ensures capacity { length (memory self.new) ≡ length (memory self.old) }
    {
        let len = self.len();
        heapify_front(&mut *self.items, len);
    }

    // Adds an element in its place; refused, with nothing changed, where the memory is full.
    pub fn push(&mut self, item: T) -> Result<(), Full>
        ensures { Stores self.old self.new result (λ ys. IsPermutation (item ∷ held self.old) ys × (Heaped T.leq (held self.old) → Heaped T.leq ys)) }
    {
        self.append(item)?;
        let len = self.len();
        raise_last(&mut *self.items, len);
        Ok(())
    }

    // Removes the element that `least` answers.
    pub fn take(&mut self) -> Option<T>
        ensures first { result ≡ first (held self.old) }
        ensures takes { Takes self.old self.new result }
        ensures leads { Heaped T.leq (held self.old) → Leads T.leq (held self.old) result × Heaped T.leq (held self.new) }
    {
        let first = self.least()?;
        let len = self.len();
        remove_front(&mut *self.items, len);
        self.len = len - 1;
        Some(first)
    }
}
