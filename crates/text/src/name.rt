// A name of a variable: one to eight bytes, each a capital letter or a digit.
ghost use Rattle.std.specs.Prelude.{◌≡◌, ◌-◌, ◌≤◌, true, length, take, drop, replicate};
ghost use Rattle.text.specs.Names.{is_name};

mod methods;

// A fixed array with its length: names lie in slots, and no call takes memory of its own.
#[derive(Clone, Copy, Debug, PartialEq, Eq)]
pub struct Name {
    bytes: [u8; 8],
    len: usize,
    ghost sized: { length bytes ≡ 8 },
    ghost fits: { len ≤ 8 },
    ghost named: { is_name (take len bytes) ≡ true },
    ghost zeros: { drop len bytes ≡ replicate (8 - len) 0 },
}

/// The refusal of bytes that are no name.
#[derive(Clone, Copy, Debug, PartialEq, Eq)]
pub struct NotAName;
