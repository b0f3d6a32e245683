// Lists of numbers, and sinks filled through their trait.
ghost use Rattle.std.specs.Prelude.{[], ◌∷◌};

use crate::list::{Full, Lent};
use crate::room::Room;
use crate::sink::Sink;
use std::test::Fail;

fn put_both<S: Sink<u8>>(sink: &mut S, first: &u8, second: &u8)
    ensures { S.took sink.old (first.now ∷ second.now ∷ []) sink.new }
{
    sink.put(first);
    sink.put(second);
}

#[test]
fn holds_what_was_pushed(rt: HostRuntime) {
    let mut memory = [0u8; 3];
    let mut list = Lent::new(&mut memory);
    assert_eq!(rt; list.push(5), Ok(()));
    assert_eq!(rt; list.push(7), Ok(()));
    assert_eq!(rt; list.len(), 2);
    assert_eq!(rt; list.room(), 1);
    assert_eq!(rt; list.get(0), Some(5));
    assert_eq!(rt; list.get(1), Some(7));
    assert_eq!(rt; list.get(2), None);
}

#[test]
fn is_full_at_its_capacity(rt: HostRuntime) {
    let mut memory = [0u8; 1];
    let mut list = Lent::new(&mut memory);
    assert_eq!(rt; list.push(5), Ok(()));
    assert_eq!(rt; list.push(7), Err(Full));
    assert_eq!(rt; list.capacity(), 1);
    assert_eq!(rt; list.get(0), Some(5));
}

#[test]
fn sets_only_what_it_holds(rt: HostRuntime) -> Result<(), Fail> {
    let mut memory = [0u8; 2];
    let mut list = Lent::new(&mut memory);
    list.push(5)?;
    list.set(0, 6);
    list.set(1, 9);
    assert_eq!(rt; list.get(0), Some(6));
    assert_eq!(rt; list.get(1), None);
    list.push(7)?;
    assert_eq!(rt; list.get(1), Some(7));
    Ok(())
}

#[test]
fn is_cut_short(rt: HostRuntime) -> Result<(), Fail> {
    let mut memory = [0u8; 3];
    let mut list = Lent::new(&mut memory);
    list.push(5)?;
    list.push(6)?;
    list.push(7)?;
    list.truncate(4);
    assert_eq!(rt; list.len(), 3);
    list.truncate(1);
    assert_eq!(rt; list.len(), 1);
    assert_eq!(rt; list.get(0), Some(5));
    list.clear();
    assert_eq!(rt; list.len(), 0);
    Ok(())
}

#[test]
fn sinks_take_what_they_have_room_for(rt: HostRuntime) {
    let mut memory = [0u8; 3];
    let mut list = Lent::new(&mut memory);
    put_both(&mut list, &1, &2);
    put_both(&mut list, &3, &4);
    assert_eq!(rt; list.len(), 3);
    assert_eq!(rt; list.get(2), Some(3));
    let mut room = Room::new(3);
    put_both(&mut room, &1, &2);
    assert_eq!(rt; room.left(), 1);
    assert!(rt; !room.is_short());
    put_both(&mut room, &3, &4);
    assert_eq!(rt; room.left(), 0);
    assert!(rt; room.is_short());
}

#[test]
fn its_slice_is_what_it_holds(rt: HostRuntime) -> Result<(), Fail> {
    let mut memory = [9u8; 3];
    let mut list = Lent::new(&mut memory);
    assert!(rt; list.as_slice().is_empty());
    list.push(5)?;
    list.push(7)?;
    assert_eq!(rt; list.as_slice(), [5, 7].as_slice());
    Ok(())
}
