// Heaps of jobs that are ranked by when they are due.
ghost use Rattle.std.specs.Prelude.{nat_le};
ghost use Rattle.queue.specs.Keys.{by_key, numbers};

use crate::heap::{Full, Heap};
use crate::ranked::Ranked;
use std::test::Fail;

#[derive(Clone, Copy, Debug, PartialEq, Eq)]
struct Job {
    due: u8,
    name: u8,
}

impl Ranked for Job {
    ghost leq = { λ x y. nat_le x.due y.due };

    ghost ranks = { by_key (λ x. x.due) nat_le numbers };

    fn at_most(&self, other: &Job) -> bool {
        self.due <= other.due
    }
}

fn due_at(due: u8) -> Job {
    Job { due, name: 0 }
}

#[test]
fn is_full_at_its_capacity(rt: HostRuntime) {
    let mut memory = [due_at(0); 2];
    let mut heap = Heap::new(&mut memory);
    assert_eq!(rt; heap.push(due_at(7)), Ok(()));
    assert_eq!(rt; heap.push(due_at(5)), Ok(()));
    assert_eq!(rt; heap.push(due_at(1)), Err(Full));
    assert_eq!(rt; heap.append(due_at(1)), Err(Full));
    assert_eq!(rt; heap.len(), 2);
    assert_eq!(rt; heap.capacity(), 2);
    assert_eq!(rt; heap.least(), Some(due_at(5)));
}

#[test]
fn takes_in_order(rt: HostRuntime) -> Result<(), Fail> {
    let mut memory = [due_at(0); 4];
    let mut heap = Heap::new(&mut memory);
    heap.push(due_at(4))?;
    heap.push(due_at(9))?;
    heap.push(due_at(2))?;
    heap.push(due_at(4))?;
    assert_eq!(rt; heap.take(), Some(due_at(2)));
    assert_eq!(rt; heap.take(), Some(due_at(4)));
    assert_eq!(rt; heap.take(), Some(due_at(4)));
    assert_eq!(rt; heap.take(), Some(due_at(9)));
    assert_eq!(rt; heap.take(), None);
    Ok(())
}

#[test]
fn equals_are_all_kept(rt: HostRuntime) -> Result<(), Fail> {
    let mut memory = [due_at(0); 2];
    let mut heap = Heap::new(&mut memory);
    heap.push(Job { due: 3, name: 1 })?;
    heap.push(Job { due: 3, name: 2 })?;
    let first = heap.take().ok_or("nothing to take")?;
    let second = heap.take().ok_or("nothing more to take")?;
    assert_eq!(rt; first.due, second.due);
    assert_ne!(rt; first.name, second.name);
    Ok(())
}

#[test]
fn settles_what_was_appended(rt: HostRuntime) -> Result<(), Fail> {
    let mut memory = [due_at(0); 4];
    let mut heap = Heap::new(&mut memory);
    heap.push(due_at(1))?;
    heap.clear();
    assert!(rt; heap.is_empty());
    heap.append(due_at(8))?;
    heap.append(due_at(6))?;
    heap.append(due_at(7))?;
    heap.settle();
    assert_eq!(rt; heap.take(), Some(due_at(6)));
    assert_eq!(rt; heap.take(), Some(due_at(7)));
    assert_eq!(rt; heap.take(), Some(due_at(8)));
    Ok(())
}

#[test]
fn stands_over_no_memory(rt: HostRuntime) {
    let mut memory: [Job; 0] = [];
    let mut heap = Heap::new(&mut memory);
    assert_eq!(rt; heap.push(due_at(1)), Err(Full));
    heap.settle();
    assert_eq!(rt; heap.least(), None);
    assert_eq!(rt; heap.take(), None);
}
