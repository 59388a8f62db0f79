// Access marks in a finished index: bit 63 of a slot's word, or the top bit of its control byte.
ghost use Rattle.std.specs.Prelude.{◌≡◌, ◌%◌, ◌<◌, length, nat_le, slice_index};
ghost use Rattle.hash_parts.specs.ZeroBytes.{bytes_of};
ghost use Rattle.sets.specs.Lookup.{slot_accessed, slot_cleared, slot_marked};

use index::packed::{clear_control, mark_control};
use index::word::BUCKET_SLOTS;

#[tactic(auto, unfolding(crate::specs::Lookup::slot_marked))]
pub(crate) fn mark_accessed(index: &mut [u64], packed: bool, slot: usize)
    requires { slot < length index.old }
    ensures { index.new ≡ slot_marked packed index.old slot }
{
    if packed {
        let bucket = slot / BUCKET_SLOTS;
        index[bucket] = mark_control(index[bucket], slot);
        return;
    }
    index[slot] = index::word::mark_accessed(index[slot]);
}

// Clears a mark and says whether it was set.
#[tactic(auto, unfolding(crate::specs::Lookup::slot_cleared, crate::specs::Lookup::slot_accessed))]
pub(crate) fn clear_accessed(index: &mut [u64], packed: bool, slot: usize) -> bool
    requires { slot < length index.old }
    ensures { (result ≡ slot_accessed packed index.old slot) × (index.new ≡ slot_cleared packed index.old slot) }
{
    if packed {
        let bucket = slot / BUCKET_SLOTS;
        let control = index[bucket];
        index[bucket] = clear_control(control, slot);
        return control_accessed(control, slot);
    }
    let word = index[slot];
    index[slot] = index::word::clear_accessed(word);
    index::word::is_accessed(word)
}

fn control_accessed(control: u64, slot: usize) -> bool
    ensures { result ≡ nat_le 128 (slice_index (bytes_of 8 control) (slot % 8)) }
{
    (control >> (((slot % 8) * 8) as u64)) % 256 >= 128
}
