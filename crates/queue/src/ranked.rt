// What an element of a queue is: a value with a place in an order.
ghost use Rattle.std.specs.Prelude.{◌≡◌, Bool};
ghost use Rattle.queue.specs.Ranks.{Ranks};

pub trait Ranked: Copy {
    // the first comes no later than the second; two different values may rank alike
    ghost leq: { Self → Self → Bool };

    ghost ranks: { Ranks leq };

    fn at_most(&self, other: &Self) -> bool
        ensures { result ≡ leq self.now other.now };
}
