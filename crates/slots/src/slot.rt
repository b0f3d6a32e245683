// One slot: empty, or loaded with the type names of a chronicle's variables.
ghost use Rattle.std.specs.Prelude.{◌≡◌, is_some, Some, None, Decides};
ghost use Rattle.text.specs.Spelled.{spelled};
ghost use Rattle.definitions.specs.TypeNames.{type_names};
ghost use Rattle.slots.specs.Variables.{types_of, width, HasType};

use definitions::types::Types;
use text::name::Name;

#[derive(Clone, Copy, Debug, PartialEq, Eq)]
pub struct Slot {
    types: Option<Types>,
}

impl Slot {
    pub fn empty() -> Slot
        ensures { types_of result ≡ None }
    {
        Slot { types: None }
    }

    pub fn is_loaded(&self) -> bool
        ensures { result ≡ is_some (types_of self.now) }
    {
        self.types.is_some()
    }

    pub fn fill(&mut self, types: Types)
        ensures { types_of self.new ≡ Some (type_names types) }
    {
        self.types = Some(types);
    }

    pub fn vacate(&mut self)
        ensures { types_of self.new ≡ None }
    {
        self.types = None;
    }

    // The number of variables; an empty slot has none.
    pub fn width(&self) -> usize
        ensures { result ≡ width (types_of self.now) }
    {
        self.types.as_ref().map_or(0, |types| types.len())
    }

    // Whether variable i, counted from 0, is of that type.
    pub fn has_type(&self, i: usize, name: &Name) -> bool
        ensures { Decides result (HasType (types_of self.now) i (spelled name.now)) }
    {
        self.types
            .as_ref()
            .and_then(|types| types.get(i))
            .is_some_and(|own| own.same(name))
    }
}
