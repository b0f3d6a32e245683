// A chronicle that is being read: what each line adds to it, or the fault of slot, count or pair.
ghost use Rattle.std.specs.Prelude.{◌≡◌, true, not, ◌&&◌, ◌==◌, nat_lt};
ghost use Rattle.definitions.specs.Chronicles.{Chronicle};
ghost use Rattle.definitions.specs.Reading.{blank, with_slot, with_type, with_limit, ended, accepted};
ghost use Rattle.network.specs.Tables.{Beyond};
ghost use Rattle.text.specs.Spelled.{spelled};
ghost use Rattle.definitions.specs.Items.{limit_by, said_by};
ghost use Rattle.definitions.specs.Drafts.{Empty, Drafted, Admits, Agrees};

use crate::item::{Item, Limit};
use crate::loaded::Loaded;
use crate::types::Types;
use kinds::bound::Bound;
use kinds::kind::Kind;
use network::table::tighten;
use text::fault::{Cause, Fault, Place};
use text::name::Name;

pub const MOST_LIMITS: usize = 64;

// Its bounds lie in a lent table.
#[derive(Drop)]
pub struct Draft<'a, K> {
    pub slot: usize,
    pub types: Types,
    pub limits: usize,
    table: &'a mut [Bound<K>],
}

fn has_room(limits: usize) -> bool
    ensures { result ≡ nat_lt limits 64 }
{
    limits < MOST_LIMITS
}

// Two different ones of so many variables.
fn is_pair(from: usize, to: usize, variables: usize) -> bool
    ensures { result ≡ (nat_lt from variables && (nat_lt to variables && not (from == to))) }
{
    from < variables && to < variables && from != to
}

impl<'a, K: Kind> Draft<'a, K> {
    // A chronicle of no line, over an empty table.
    pub fn new(table: &'a mut [Bound<K>]) -> Draft<'a, K>
        ensures over { result.table.ghost_name ≡ table.entry.ghost_name }
        ensures same { result.table.now ≡ table.old }
        ensures drafts { Empty K.group K.value table.old → Drafted K.group K.value K.bound result blank }
    {
        Draft {
            slot: 0,
            types: Types::new(),
            limits: 0,
            table,
        }
    }

    fn open(&mut self, loaded: &Loaded, slot: usize, line: usize) -> Result<(), Fault>
        ensures kept { self.new.table ≡ self.old.table }
        ensures adds { (d : Chronicle K.G) → Drafted K.group K.value K.bound self.old d → Agrees (with_slot loaded.now.0 line d slot) (Drafted K.group K.value K.bound self.new) result }
    {
        if loaded.is_loaded(slot) {
            return Err(Place { line, field: 2 }.fault(Cause::SlotLoaded));
        }
        self.slot = slot;
        Ok(())
    }

    fn add_variable(&mut self, name: Name, line: usize) -> Result<(), Fault>
        ensures kept { self.new.table ≡ self.old.table }
        ensures adds { (d : Chronicle K.G) → Drafted K.group K.value K.bound self.old d → Agrees (with_type line d (spelled name)) (Drafted K.group K.value K.bound self.new) result }
    {
        self.types
            .push(name)
            .map_err(|_| Place { line, field: 0 }.fault(Cause::TooMany))
    }

    // The bound goes into the table, where it counts if it is the smallest between its variables.
    fn add_limit(&mut self, limit: &Limit<K>, line: usize) -> Result<(), Fault>
        ensures over { self.new.table.ghost_name ≡ self.old.table.ghost_name }
        ensures kept { Beyond self.old.table.now self.new.table.now }
        ensures adds { (d : Chronicle K.G) → Drafted K.group K.value K.bound self.old d → K.bound (K.value limit.now.most) ≡ true → Agrees (with_limit line d (limit_by K.value limit.now)) (Drafted K.group K.value K.bound self.new) result }
    {
        let place = Place { line, field: 0 };
        if !has_room(self.limits) {
            return Err(place.fault(Cause::TooMany));
        }
        if !is_pair(limit.from, limit.to, self.types.len()) {
            return Err(place.fault(Cause::BadPair));
        }
        tighten(self.table, limit.from, limit.to, Bound::At(limit.most)).map_err(|_| place.fault(
            Cause::BadPair,
        ))?;
        self.limits += 1;
        Ok(())
    }

    fn end(&self, line: usize) -> Result<(), Fault>
        ensures { (d : Chronicle K.G) → Drafted K.group K.value K.bound self.now d → Agrees (ended line d) (Drafted K.group K.value K.bound self.now) result }
    {
        if self.types.len() == 0 {
            return Err(Place { line, field: 0 }.fault(Cause::TooMany));
        }
        Ok(())
    }

    // What a line adds.
    pub fn accept(&mut self, loaded: &Loaded, item: &Item<K>, line: usize) -> Result<(), Fault>
        ensures over { self.new.table.ghost_name ≡ self.old.table.ghost_name }
        ensures kept { Beyond self.old.table.now self.new.table.now }
        ensures adds { (d : Chronicle K.G) → Drafted K.group K.value K.bound self.old d → Admits K.bound (said_by K.value item.now) → Agrees (accepted loaded.now.0 line d (said_by K.value item.now)) (Drafted K.group K.value K.bound self.new) result }
    {
        match item {
            Item::Opening(slot) => self.open(loaded, *slot, line),
            Item::Variable(name) => self.add_variable(*name, line),
            Item::Bounding(limit) => self.add_limit(limit, line),
            Item::Closing => self.end(line),
        }
    }
}
