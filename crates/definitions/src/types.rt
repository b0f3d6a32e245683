// The type names of a chronicle's variables, at most eight.
ghost use Rattle.std.specs.Prelude.{◌≡◌, ℕ, ◌<◌, ◌≤◌, true, length, is_some, None, slice_index_or};

use text::name::Name;

mod methods;

/// The refusal of a ninth type name.
#[derive(Clone, Copy, Debug, PartialEq, Eq)]
pub struct TypesFull;

// The names fill a fixed array from the front: no list of the library's own, which would take memory.
#[derive(Clone, Copy, Debug, PartialEq, Eq)]
pub struct Types {
    names: [Option<Name>; 8],
    count: usize,
    ghost sized: { length names ≡ 8 },
    ghost fits: { count ≤ 8 },
    ghost filled: { (i : ℕ) → i < count → is_some (slice_index_or names i None) ≡ true },
}
