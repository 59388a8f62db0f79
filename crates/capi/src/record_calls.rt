// Records outside of any set: the size of one, and the one at a position of lent bytes. Any setting
// will do, but its words must be those of a setting.
ghost use Rattle.std.specs.Prelude.{◌≡◌};
ghost use Rattle.std.proofs.Common.{lit<};
ghost use Rattle.capi.specs.Calls.{told};
ghost use Rattle.capi.specs.Records.{exported_record_at, exported_size, read_words};

use crate::answers::tell;
use crate::load::fitting_setting;
use crate::words::{MALFORMED, ToWords};
use records::record::{RecordRef, Records};
use sets::builder::SegmentCacheBuilder;

const READ_WORDS: usize = 9;

// How many bytes a record of these lengths takes.
#[tactic(auto, using(crate::proofs::Replies::size_back), unfolding(crate::specs::Records::exported_size))]
#[unsafe(no_mangle)]
pub extern "C" fn segment_cache_encoded_record_bytes(
    setting: &[u64],
    key_bytes: usize,
    value_bytes: usize,
    size: &mut [u64],
) -> u64
    ensures { told result size.new ≡ exported_size setting.now key_bytes value_bytes size.old }
{
    if size.len() != 1 {
        return MALFORMED;
    }
    let answer = fitting_setting(setting).and_then(|config| {
        SegmentCacheBuilder::encoded_record_bytes(config, key_bytes, value_bytes)
    });
    tell(answer, size)
}

// The nine words of the record at a position of lent bytes: 1, the position, bytes before the key,
// place and length of key and value, deadline, and end; or nine zeros. Going on at the end reaches the
// next record without an index.
#[tactic(auto, unfolding(crate::specs::Records::exported_record_at))]
#[unsafe(no_mangle)]
pub extern "C" fn segment_cache_record_at(
    setting: &[u64],
    records: &[u8],
    position: usize,
    record: &mut [u64],
) -> u64
    ensures { told result «record».new ≡ exported_record_at setting.now records.now position «record».old }
{
    if record.len() != READ_WORDS {
        return MALFORMED;
    }
    let answer = fitting_setting(setting).map(|config| {
        let records = Records {
            bytes: records,
            expiry: config.expiry,
        };
        records.record_at(position)
    });
    tell(answer, record)
}

// 1, the position, bytes before the key, place and length of key and value, deadline, and end.
impl ToWords<READ_WORDS> for RecordRef {
    ghost words_of = { read_words };

    ghost fits = { lit< tt };

    fn to_words(self) -> [u64; READ_WORDS] {
        [
            1,
            self.location as u64,
            self.key_offset as u64,
            self.key.at as u64,
            self.key.len as u64,
            self.value.at as u64,
            self.value.len as u64,
            u64::from(self.expires_at),
            self.end as u64,
        ]
    }
}
