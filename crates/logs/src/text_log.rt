// A log in a text that the caller lends, read one line ahead.
ghost use Rattle.std.specs.Prelude.{◌≤◌, length};

use ahead::Ahead;

mod ahead;
mod calls;

#[derive(Drop)]
pub struct TextLog<'a, K> {
    text: &'a [u8],
    log: u8,
    ahead: Ahead<K>,
    ghost within: { ahead.cursor ≤ length text.now },
    ghost counted: { ahead.lines ≤ ahead.cursor },
}
