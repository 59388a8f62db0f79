// Records outside of any set.
ghost use Rattle.std.specs.Prelude.{◌≡◌};
ghost use Rattle.capi.specs.Calls.{told};
ghost use Rattle.capi.specs.Records.{exported_record_at, exported_size};

// How many bytes a record of these lengths takes.
#[unsafe(no_mangle)]
pub extern "C" fn segment_cache_encoded_record_bytes(
    setting: &[u64],
    key_bytes: usize,
    value_bytes: usize,
    size: &mut [u64],
) -> u64
    ensures { told result size.new ≡ exported_size setting.now key_bytes value_bytes size.old }
{
    capi::record_calls::segment_cache_encoded_record_bytes(setting, key_bytes, value_bytes, size)
}

// The nine words of the record at a position of lent bytes: 1, the position, bytes before the key,
// place and length of key and value, deadline, and end; or nine zeros. Going on at the end reaches the
// next record without an index.
#[unsafe(no_mangle)]
pub extern "C" fn segment_cache_record_at(
    setting: &[u64],
    records: &[u8],
    position: usize,
    record: &mut [u64],
) -> u64
    ensures { told result «record».new ≡ exported_record_at setting.now records.now position «record».old }
{
    capi::record_calls::segment_cache_record_at(setting, records, position, record)
}
