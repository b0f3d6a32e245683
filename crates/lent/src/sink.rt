// Where items are put, one by one.
ghost use Rattle.std.specs.Prelude.{List, [], ◌∷◌};
ghost use Rattle.lent.specs.Taking.{Adds};

pub trait Sink<T> {
    // the state after these items were put, in this order
    ghost took: { Self → List T → Self → Type 0 };

    ghost adds: { Adds took };

    fn put(&mut self, item: &T)
        ensures { took self.old (item.now ∷ []) self.new };
}
