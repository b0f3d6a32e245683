// What a log source is: the records that wait in it and its ending, by ghost members, and two calls that answer by them.
ghost use Rattle.std.specs.Prelude.{◌≡◌, List, drop};
ghost use Rattle.kinds.specs.declared.kind.Kind.{Ghosts as Meaning};
ghost use Rattle.logs.specs.Endings.{Ending};
ghost use Rattle.logs.specs.Events.{Event, first, meant};

use crate::ending::LogFault;
use crate::record::Record;
use kinds::kind::Kind;

/// What comes next in a source: a record that waits, none at a clean ending, or the fault that it ends with.
pub type Next<K> = Result<Option<Record<K>>, LogFault>;

pub trait Source<K: Kind> {
    // the records that wait, first to last, and how the source ends after them
    ghost waiting: { (kind : Meaning K) → Self → List (Event kind.G) };

    ghost ending: { (kind : Meaning K) → Self → Ending };

    /// The first record that waits, or the ending if none waits.
    fn look(&self) -> Next<K>
        ensures { meant K.value result ≡ first (waiting K.Kind self.now) (ending K.Kind self.now) };

    /// The same, and the record no longer waits.
    fn take(&mut self) -> Next<K>
        ensures next { meant K.value result ≡ first (waiting K.Kind self.old) (ending K.Kind self.old) }
        ensures left { waiting K.Kind self.new ≡ drop 1 (waiting K.Kind self.old) }
        ensures same { ending K.Kind self.new ≡ ending K.Kind self.old };
}
