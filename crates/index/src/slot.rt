// A slot of a finished index, read from words by value, in either layout.
ghost use Rattle.std.specs.Prelude.{◌≡◌};
ghost use Rattle.index.specs.Slot.{word_slot};

use crate::word::{index_location, index_tag};

// What the layout keeps of the tag, and the stored location: the location plus 1, or 0. An empty slot
// has neither.
pub type IndexSlot = Option<(u64, u64)>;

// A slot of the word layout.
pub(crate) fn word_slot(word: u64) -> IndexSlot
    ensures { result ≡ word_slot word }
{
    if word == 0 {
        return None;
    }
    Some((index_tag(word), index_location(word)))
}
