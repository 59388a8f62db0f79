// The areas that are lent to a set, and the calls that builder and set answer in them.
use hash_parts::duration::Duration;
use hash_parts::error::SegmentCacheBuildError;
use hash_parts::setting::SegmentCacheConfig;
use index::segments::MAX_RECORD_SEGMENTS;
use index::view::SegmentAreas;
use records::record::value_slice;
use sets::builder::{PushedRecord, SegmentCacheBuilder};
use sets::cache::FrozenSegmentCache;
use std::io;

// As many as the largest of the sets has buckets.
const SCRATCH_WORDS: usize = 37;

#[derive(Drop)]
pub(crate) struct TrialAreas<const INDEX: usize, const FILTER: usize, const ARENA: usize> {
    pub index: [u64; INDEX],
    pub filter: [u64; FILTER],
    pub segments: TrialSegments<ARENA>,
}

// What holds the records.
#[derive(Drop)]
pub(crate) struct TrialSegments<const ARENA: usize> {
    pub starts: [u64; MAX_RECORD_SEGMENTS],
    pub lengths: [u64; MAX_RECORD_SEGMENTS],
    pub arena: [u8; ARENA],
}

impl<const ARENA: usize> TrialSegments<ARENA> {
    pub(crate) fn areas(&self) -> SegmentAreas<'_> {
        SegmentAreas {
            starts: &self.starts,
            lengths: &self.lengths,
            arena: &self.arena,
        }
    }
}

impl<const INDEX: usize, const FILTER: usize, const ARENA: usize> TrialAreas<INDEX, FILTER, ARENA> {
    // Areas whose every word and byte is this one.
    pub(crate) fn filled(byte: u8) -> Self {
        let word = u64::from(byte);
        Self {
            index: [word; INDEX],
            filter: [word; FILTER],
            segments: TrialSegments {
                starts: [word; MAX_RECORD_SEGMENTS],
                lengths: [word; MAX_RECORD_SEGMENTS],
                arena: [byte; ARENA],
            },
        }
    }

    pub(crate) fn open(
        &mut self,
        config: SegmentCacheConfig,
        entry_count: usize,
    ) -> Result<SegmentCacheBuilder, SegmentCacheBuildError> {
        SegmentCacheBuilder::try_new(
            config,
            entry_count,
            &mut self.index,
            &mut self.filter,
            self.segments.areas(),
        )
    }

    // Pushes a record, and says where it stands; a refusal is shown.
    pub(crate) fn push(
        &mut self,
        rt: &impl Print,
        builder: &mut SegmentCacheBuilder,
        hash: u64,
        key: &[u8],
        value: &[u8],
        ttl: Option<Duration>,
    ) -> io::Result<Option<PushedRecord>> {
        let pushed = builder.push(
            hash,
            key,
            value,
            ttl,
            &mut self.index,
            &mut self.filter,
            &mut self.segments.arena,
        );
        if let Err(refusal) = pushed {
            show_refusal(rt, refusal)?;
        }
        Ok(pushed.ok())
    }

    pub(crate) fn finish(
        &mut self,
        builder: SegmentCacheBuilder,
        target: usize,
    ) -> Result<FrozenSegmentCache, SegmentCacheBuildError> {
        builder.finish(
            target,
            &mut self.index,
            &mut self.segments.starts,
            &mut self.segments.lengths,
            &mut [0; SCRATCH_WORDS],
            &self.segments.arena,
        )
    }

    // Shows the value of a key.
    pub(crate) fn get(
        &mut self,
        rt: &impl Print,
        set: FrozenSegmentCache,
        hash: u64,
        key: &[u8],
        tick: u64,
    ) -> io::Result<()> {
        match set.get_at_tick(
            hash,
            key,
            tick,
            &mut self.index,
            &self.filter,
            self.segments.areas(),
        ) {
            Ok(Some(span)) => {
                print!(rt; "value")?;
                show_bytes(rt, value_slice(&self.segments.arena, span))
            }
            Ok(None) => println!(rt; "nothing"),
            Err(refusal) => show_refusal(rt, refusal),
        }
    }
}

// A line of bytes in hexadecimal, each with a space before it.
pub(crate) fn show_bytes(rt: &impl Print, bytes: &[u8]) -> io::Result<()> {
    show::bytes(rt, bytes)?;
    println!(rt; "")
}

// A number under its name, or why there is none.
pub(crate) fn show_number(
    rt: &impl Print,
    name: &str,
    answer: Result<usize, SegmentCacheBuildError>,
) -> io::Result<()> {
    match answer {
        Ok(number) => println!(rt; "{name} {number}"),
        Err(refusal) => show_refusal(rt, refusal),
    }
}

pub(crate) fn show_refusal(rt: &impl Print, refusal: SegmentCacheBuildError) -> io::Result<()> {
    println!(rt; "refusal {}", refusal.number())
}
