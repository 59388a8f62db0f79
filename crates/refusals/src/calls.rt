//! The calls of a case. A build announces seven records, in areas that they need. The source of a rebuild has one
//! record of five bytes at 0: two of header, key "a", value "AB". Only a reused push reads it; the other calls
//! have an arena of zeros. Areas are arrays and arguments come one by one, as C has them: the program asks the
//! calls that are made for C, and needs no memory but its own.
ghost use Rattle.std.specs.Prelude.{◌<◌, ◌↔◌, IsOk};

use crate::case::{Case, Word};
use anyhow::bail;
use capi::answers::{RECORD_WORDS, SPAN_WORDS};
use capi::build_calls::{segment_cache_finish, segment_cache_open};
use capi::rebuild_calls::{segment_cache_rebuild_finish, segment_cache_rebuild_open};
use capi::stats_calls::segment_cache_stats;
use capi_get::segment_cache_get;
use capi_next_entry::segment_cache_next_entry;
use capi_peek::segment_cache_peek;
use capi_probe::segment_cache_probe;
use capi_push::segment_cache_push;
use capi_push_copied::segment_cache_push_copied;
use capi_push_reused::segment_cache_push_reused;
use capi_take_accessed::segment_cache_take_accessed;

/// The source's record, and bytes of others behind it.
const ARENA: &[u8; 16] = b"\x01\x02aABACb\0\0\0\0\0\0\0\0";

/// The calls that a case makes.
#[derive(Clone, Copy)]
pub(crate) enum Calls {
    Open,
    Push,
    Finish,
    Set,
    Stats,
    RebuildOpen,
    Rebuild,
    PushReused,
    PushCopied,
    RebuildFinish,
}

impl Calls {
    /// In the order of their numbers.
    const ALL: [Calls; 10] = [
        Calls::Open,
        Calls::Push,
        Calls::Finish,
        Calls::Set,
        Calls::Stats,
        Calls::RebuildOpen,
        Calls::Rebuild,
        Calls::PushReused,
        Calls::PushCopied,
        Calls::RebuildFinish,
    ];
}

impl TryFrom<u64> for Calls {
    type Error = anyhow::Error;

    ghost try_from_gives = { λ number result. IsOk result ↔ (number < 10) };

    fn try_from(number: u64) -> anyhow::Result<Calls> {
        match Calls::ALL.get(number as usize) {
            Some(calls) => Ok(*calls),
            None => bail!("no calls have number {number}"),
        }
    }
}

impl Case {
    pub(crate) fn open(&self) -> u64 {
        segment_cache_open(
            &self.words[..6],
            self.word(Word::Records) as usize,
            &mut [0; 13],
            &mut [0; 8],
            &mut [0],
            &[0; 256],
            &[0; 256],
            &[0; 16],
        )
    }

    pub(crate) fn push(&self) -> u64 {
        let mut builder = self.words;
        segment_cache_push(
            &mut builder[..13],
            1,
            b"a",
            b"b",
            self.lent(Word::Lifetime, &self.lifetime()),
            self.lent_mut(Word::Index, &mut [0; 8]),
            self.lent_mut(Word::Filter, &mut [0]),
            self.lent_mut(Word::Arena, &mut [0; 16]),
            &mut [0; 2],
        )
    }

    pub(crate) fn finish(&self) -> u64 {
        segment_cache_finish(
            &self.words[..13],
            4_096,
            self.lent_mut(Word::Index, &mut [self.word(Word::IndexWord); 8]),
            self.lent_mut(Word::Starts, &mut [0; 256]),
            self.lent_mut(Word::Lengths, &mut [0; 256]),
            self.lent_mut(Word::Scratch, &mut [0]),
            &[0; 16],
            &mut [0; 15],
        )
    }

    /// A set's index is empty, so none of the calls finds a record. Those that may change a mark come first.
    pub(crate) fn ask_set(&self) -> [u64; 6] {
        let set = &self.words[..15];
        let mut index = [0; 8];
        let index = self.lent_mut(Word::Index, &mut index);
        let filter = self.lent(Word::Filter, &[0]);
        let starts = self.lent(Word::Starts, &[0; 256]);
        let lengths = self.lent(Word::Lengths, &[0; 256]);
        let arena = self.lent(Word::Arena, &[0; 10]);
        let span = &mut [0; SPAN_WORDS];
        let mark = &mut [0];
        let record = &mut [0; RECORD_WORDS];
        [
            segment_cache_get(set, 1, b"a", 0, index, filter, starts, lengths, arena, span),
            segment_cache_take_accessed(set, 1, b"a", index, filter, starts, lengths, arena, mark),
            segment_cache_peek(set, 1, b"a", 0, index, filter, starts, lengths, arena, span),
            segment_cache_probe(
                set, 1, b"a", 0, index, filter, starts, lengths, arena, record,
            ),
            segment_cache_next_entry(set, 0, 0, index, starts, lengths, arena, record),
            self.stats(),
        ]
    }

    pub(crate) fn stats(&self) -> u64 {
        segment_cache_stats(&self.words[..15], &mut [0; 8])
    }

    /// Every segment but one is kept. The flags are one more than any case lends, so that none need be dropped.
    pub(crate) fn rebuild_open(&self) -> u64 {
        let mut flags = [1; 258];
        flags[self.word(Word::Dropped) as usize % 258] = 0;
        segment_cache_rebuild_open(
            &self.words[..15],
            self.lent(Word::Starts, &self.starts()),
            self.lent(Word::Lengths, &self.lengths()),
            self.lent(Word::Arena, &[0; 16]),
            self.word(Word::Records) as usize,
            self.word(Word::CopiedBytes) as usize,
            self.lent(Word::Flags, &flags),
            0,
            &mut [0; 22],
            self.lent_mut(Word::Index, &mut [0; 8]),
            self.lent_mut(Word::Filter, &mut [0]),
            self.lent_mut(Word::NewStarts, &mut [0; 256]),
            self.lent_mut(Word::NewLengths, &mut [0; 256]),
        )
    }

    /// Each call has the words of the case, not what the call before made of them.
    pub(crate) fn ask_rebuild(&self) -> [u64; 3] {
        [
            self.push_reused(),
            self.push_copied(),
            self.rebuild_finish(),
        ]
    }

    /// Key and value are parts of the arena.
    pub(crate) fn push_reused(&self) -> u64 {
        let mut rebuild = self.words;
        segment_cache_push_reused(
            &mut rebuild[..22],
            1,
            self.part(Word::KeyFrom, Word::KeyTo, ARENA),
            self.part(Word::ValueFrom, Word::ValueTo, ARENA),
            self.word(Word::Location) as usize,
            self.word(Word::HeaderBytes) as usize,
            self.lent_mut(Word::Index, &mut self.index()),
            self.lent_mut(Word::Filter, &mut [0]),
            self.lent(Word::Starts, &self.starts()),
            self.lent(Word::Lengths, &self.lengths()),
            self.lent(Word::Arena, ARENA),
            &mut [0; 2],
        )
    }

    /// The record to copy has four bytes.
    pub(crate) fn push_copied(&self) -> u64 {
        let mut rebuild = self.words;
        segment_cache_push_copied(
            &mut rebuild[..22],
            2,
            b"b",
            b"C",
            self.lent(Word::Lifetime, &self.lifetime()),
            self.lent_mut(Word::Index, &mut self.index()),
            self.lent_mut(Word::Filter, &mut [0]),
            self.lent(Word::Starts, &self.starts()),
            self.lent(Word::Lengths, &self.lengths()),
            self.lent_mut(Word::Arena, &mut [0; 16]),
            &mut [0; 2],
        )
    }

    pub(crate) fn rebuild_finish(&self) -> u64 {
        segment_cache_rebuild_finish(
            &self.words[..22],
            self.lent_mut(Word::Index, &mut [0; 8]),
            self.lent_mut(Word::Starts, &mut self.starts()),
            self.lent_mut(Word::Lengths, &mut self.lengths()),
            self.lent_mut(Word::Scratch, &mut [0]),
            self.lent(Word::Arena, &[0; 16]),
            &mut [0; 15],
            &mut [0; 4],
        )
    }
}
