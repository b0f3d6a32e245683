// Type names are added one by one, and read by the variable's number.
ghost use Rattle.std.specs.Prelude.{◌≡◌, ℕ, ◌<◌, ◌≤◌, true, [], ◌∷◌, ◌++◌, length, if◌then◌else◌, is_ok, MatchOption, nat_lt, slice_index_or};
ghost use Rattle.text.specs.Spelled.{spelled};
ghost use Rattle.definitions.specs.TypeNames.{type_names};

use super::{Types, TypesFull};
use text::name::Name;

impl Types {
    pub fn new() -> Types
        ensures { type_names result ≡ [] }
    {
        Types {
            names: [None; 8],
            count: 0,
        }
    }

    pub fn len(&self) -> usize
        ensures { result ≡ length (type_names self.now) }
    {
        self.count
    }

    // One more name; where there are eight, they stay.
    pub fn push(&mut self, name: Name) -> Result<(), TypesFull>
        ensures room { is_ok result ≡ nat_lt (length (type_names self.old)) 8 }
        ensures after { type_names self.new ≡ (if is_ok result then type_names self.old ++ (spelled name ∷ []) else type_names self.old) }
    {
        if self.count >= 8 {
            return Err(TypesFull);
        }
        self.names[self.count] = Some(name);
        self.count += 1;
        Ok(())
    }

    // The type name of variable i, counted from 0.
    pub fn get(&self, i: usize) -> Option<Name>
        ensures { MatchOption result (length (type_names self.now) ≤ i) (λ n. (i < length (type_names self.now)) × (spelled n ≡ slice_index_or (type_names self.now) i [])) }
    {
        if i >= self.count {
            return None;
        }
        self.names[i]
    }
}
