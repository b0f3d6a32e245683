// What a kind of stamp is: its meaning by ghost members, and the operations on its machine values.
ghost use Rattle.std.specs.Prelude.{◌≡◌, ℕ, ◌+◌, ◌≤◌, Bool, true, List, is_some, Some, None, Option};
ghost use Rattle.kinds.specs.Ordered.{Ordered};
ghost use Rattle.kinds.specs.Weights.{Weighed};
ghost use Rattle.text.specs.declared.fault.Cause.TheVariants.{BadField};
ghost use Rattle.text.specs.Faults.{fault_at};
ghost use Rattle.text.specs.Split.{split};
ghost use Rattle.text.specs.Writing.{place_after, pasted};
ghost use Rattle.kinds.specs.Fields.{Reads, Takes};

use text::fault::{Fault, Place};

pub trait Kind: Copy {
    // the elements, and the order and sums of them
    ghost G: { Type 0 };

    ghost group: { Ordered G };

    // what a machine value stands for
    ghost value: { Self → G };

    // which elements are admitted as a bound, which as a stamp, and how heavy an element is
    ghost bound: { G → Bool };

    ghost stamp: { G → Bool };

    ghost weight: { G → ℕ };

    ghost weighed: { Weighed group weight bound stamp };

    // as text: how many fields an element takes, which element given fields mean, and what is written of a value
    ghost fields: { ℕ };

    ghost means: { List (List ℕ) → Option G };

    ghost takes: { Takes fields means };

    ghost written: { Self → List ℕ };

    fn zero() -> Self
        ensures { value result ≡ group.zero };

    fn at_most(&self, other: &Self) -> bool
        ensures { result ≡ group.leq (value self.now) (value other.now) };

    fn is_bound(&self) -> bool
        ensures { result ≡ bound (value self.now) };

    fn is_stamp(&self) -> bool
        ensures { result ≡ stamp (value self.now) };

    // The sum, exact where it is present, and present while the two weights total at most 2^24.
    fn plus(&self, other: &Self) -> Option<Self>
        ensures exact { (s : Self) → result ≡ Some s → value s ≡ group.plus (value self.now) (value other.now) }
        ensures present { weight (value self.now) + weight (value other.now) ≤ 16777216 → is_some result ≡ true };

    fn field_count() -> usize
        ensures { result ≡ fields };

    // The element that the tab parted fields of a text mean.
    fn read(text: &[u8], place: Place) -> Result<Self, Fault>
        ensures { Reads value (means (split 9 text.now)) (fault_at BadField place.line place.field) result };

    // Writes the tab parted fields where they fit, and says where they end; else writes nothing. They are read back.
    fn write(&self, out: &mut [u8], start: usize) -> Option<usize>
        ensures place { result ≡ place_after out.old start (written self.now) }
        ensures after { out.new ≡ pasted out.old start (written self.now) }
        ensures read_back { means (split 9 (written self.now)) ≡ Some (value self.now) };
}
