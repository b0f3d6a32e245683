// Which of the eight slots are loaded. Slots count from 1.
ghost use Rattle.std.specs.Prelude.{◌≡◌, ◌-◌, true, ◌&&◌, if◌then◌else◌, nat_le, nat_lt, slice_set};
ghost use Rattle.definitions.specs.Reading.{is_loaded};

#[derive(Clone, Copy, Debug, Default, PartialEq, Eq, PartialOrd, Ord, Hash)]
pub struct Loaded(pub [bool; 8]);

impl Loaded {
    pub fn is_loaded(&self, slot: usize) -> bool
        ensures { result ≡ is_loaded self.now.0 slot }
    {
        let at = slot.saturating_sub(1);
        self.0.get(at).copied().unwrap_or(false)
    }

    // Marks a slot as loaded; outside 1 to 8 there is none to mark.
    pub fn load(&mut self, slot: usize)
        ensures { self.new.0 ≡ (if nat_lt 0 slot && nat_le slot 8 then slice_set self.old.0 (slot - 1) true else self.old.0) }
    {
        if (1..=8).contains(&slot) {
            self.0[slot - 1] = true;
        }
    }
}
