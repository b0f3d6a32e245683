// Steps over the front of lent memory, the elements of `items` before `len`.
// Over a slice of their own: the proof of a method forgets the elements of a field once part of it was lent.
// For callers a front of n places is said too, where n may lie past the end of the memory.
ghost use Rattle.std.specs.Prelude.{◌≡◌, ℕ, ◌-◌, ◌<◌, ◌≤◌, List, [], ◌∷◌, ◌++◌, length, take, Some};
ghost use Rattle.std.specs.List.Sorted.{IsPermutation};
ghost use Rattle.queue.specs.Heaps.{Heaped, first};

use crate::ranked::Ranked;
use crate::sifts::{heapify, remove_first, sift_up};

// Makes a heap of the front.
pub fn heapify_front<T: Ranked>(items: &mut [T], len: usize)
    requires { len ≤ length items.old }
    ensures shuffled { (n : ℕ) → len ≡ length (take n items.old) → IsPermutation (take n items.old) (take n items.new) }
    ensures heaped { (n : ℕ) → len ≡ length (take n items.old) → Heaped T.leq (take n items.new) }
    ensures memory { length items.new ≡ length items.old }
{
    heapify(&mut items[..len]);
}

// Lets x, the last of the front, rise to its place among the others, xs.
pub fn raise_last<T: Ranked>(items: &mut [T], len: usize)
    requires some { 0 < len }
    requires within { len ≤ length items.old }
    ensures shuffled { (n : ℕ) (xs : List T) (x : T) → len ≡ length (take n items.old) → take n items.old ≡ xs ++ (x ∷ []) → IsPermutation (x ∷ xs) (take n items.new) }
    ensures heaped { (n : ℕ) (xs : List T) (x : T) → len ≡ length (take n items.old) → take n items.old ≡ xs ++ (x ∷ []) → Heaped T.leq xs → Heaped T.leq (take n items.new) }
    ensures memory { length items.new ≡ length items.old }
{
    sift_up(&mut items[..len]);
}

// Takes the first element x out of the front: the others are then before its last place.
pub fn remove_front<T: Ranked>(items: &mut [T], len: usize)
    requires some { 0 < len }
    requires within { len ≤ length items.old }
    ensures shuffled { (n : ℕ) (x : T) → len ≡ length (take n items.old) → Some x ≡ first (take n items.old) → IsPermutation (take n items.old) (x ∷ take (len - 1) items.new) }
    ensures heaped { (n : ℕ) → len ≡ length (take n items.old) → Heaped T.leq (take n items.old) → Heaped T.leq (take (len - 1) items.new) }
    ensures memory { length items.new ≡ length items.old }
{
    remove_first(&mut items[..len]);
}
