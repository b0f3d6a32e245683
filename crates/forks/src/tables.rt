// The closed bounds of one slot among the lent entries.
ghost use Rattle.std.specs.Prelude.{◌≡◌, ◌/◌, ◌<◌, ◌≤◌, ◌⊎◌, [], length};
ghost use Rattle.slots.specs.Loads.{slot_table};

use kinds::bound::Bound;
use kinds::kind::Kind;

// Slots count from 1; none where the entries are too few for the slot.
pub fn table_of<K: Kind>(entries: &[Bound<K>], slot: usize) -> &[Bound<K>]
    ensures part { 1 ≤ slot → slot ≤ length entries.now / 64 → result.now ≡ slot_table slot entries.now }
    ensures none { (slot < 1) ⊎ (length entries.now / 64 < slot) → result.now ≡ [] }
{
    if slot < 1 || slot > entries.len() / 64 {
        return &entries[..0];
    }
    let start = 64 * (slot - 1);
    &entries[start..start + 64]
}
