// Stored records: length prefixes in unsigned LEB128, the writer and the reader of a record.
#![tactic(auto)]

pub mod record;
pub mod varint;
