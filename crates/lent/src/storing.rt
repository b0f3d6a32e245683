// A list as a sink: what finds no room is left out.
ghost use Rattle.lent.specs.Storing.{stored, stored_adds};

use crate::list::Lent;
use crate::sink::Sink;

impl<'a, T: Copy> Sink<T> for Lent<'a, T> {
    ghost took = { stored };

    ghost adds = { stored_adds };

    fn put(&mut self, item: &T) {
        let _ = self.push(*item);
    }
}
