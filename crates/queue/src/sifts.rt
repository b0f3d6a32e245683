// The steps of a binary heap over the slice that holds it: one element rises or sinks to its place.
ghost use Rattle.std.specs.Prelude.{◌≡◌, ◌+◌, ◌-◌, ◌*◌, ◌<◌, ◌∷◌, length, take, Some};
ghost use Rattle.std.specs.List.Sorted.{IsPermutation};
ghost use Rattle.queue.specs.Heaps.{Heaped, HeapedFrom, first};
ghost use Rattle.queue.specs.Steps.{Tells, Foremost};

use crate::ranked::Ranked;

// Whether the element at i comes no later than the one at j.
fn in_order<T: Ranked>(items: &[T], i: usize, j: usize) -> bool
    requires first { i < length items.now }
    requires second { j < length items.now }
    ensures { Tells T.leq i j items.now result }
{
    items[i].at_most(&items[j])
}

// The child of a parent that comes no later than its other one.
fn foremost_child<T: Ranked>(items: &[T], parent: usize) -> usize
    requires { parent * 2 + 1 < length items.now }
    ensures { Foremost T.leq parent result items.now }
{
    let left = parent * 2 + 1;
    // Joined with the test below by `||`, what that answers was lost to the proof.
    if left + 1 == items.len() {
        return left;
    }
    if in_order(items, left, left + 1) {
        left
    } else {
        left + 1
    }
}

// Lets the last element rise to its place among the others.
pub fn sift_up<T: Ranked>(items: &mut [T])
    requires { 0 < length items.old }
    ensures shuffled { IsPermutation items.old items.new }
    ensures heaped { Heaped T.leq (take (length items.old - 1) items.old) → Heaped T.leq items.new }
{
    let mut place = items.len() - 1;
    // The places are those of a path in a tree, each half the one before it: no range steps so.
    while 0 < place {
        let parent = (place - 1) / 2;
        if in_order(items, parent, place) {
            return;
        }
        items.swap(parent, place);
        place = parent;
    }
}

// Lets the element at `root` sink to its place among the parents from there on.
fn sift_down<T: Ranked>(items: &mut [T], root: usize)
    ensures shuffled { IsPermutation items.old items.new }
    ensures heaped { HeapedFrom T.leq (root + 1) items.old → HeapedFrom T.leq root items.new }
{
    let mut place = root;
    // A path in a tree, as above, which turns where the elements say.
    while place < items.len() / 2 {
        let child = foremost_child(items, place);
        if in_order(items, place, child) {
            return;
        }
        items.swap(place, child);
        place = child;
    }
}

// Makes a heap of all elements, from the last parent up: in linear time.
pub fn heapify<T: Ranked>(items: &mut [T])
    ensures shuffled { IsPermutation items.old items.new }
    ensures heaped { Heaped T.leq items.new }
{
    for root in (0..items.len() / 2).rev() {
        sift_down(items, root);
    }
}

// Takes the first element x out: the others are then a heap before the last place.
pub fn remove_first<T: Ranked>(items: &mut [T])
    requires { 0 < length items.old }
    ensures shuffled { (x : T) → Some x ≡ first items.old → IsPermutation items.old (x ∷ take (length items.old - 1) items.new) }
    ensures heaped { Heaped T.leq items.old → Heaped T.leq (take (length items.old - 1) items.new) }
{
    let last = items.len() - 1;
    items[0] = items[last];
    sift_down(&mut items[..last], 0);
}
