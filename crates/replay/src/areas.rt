//! The areas of the sets, and the calls that are lent them. Areas are arrays and arguments come one by one, as C
//! has them: the program asks the calls that are made for C, and needs no memory but its own.
ghost use Rattle.std.specs.Prelude.{◌<◌, length};
ghost use Rattle.replay.specs.declared.line.TheConstants.{TOLD};

use crate::checksum::{with_segments, with_words};
use crate::line::{Kind, Line, TOLD, Told};
use capi::answers::{RECORD_WORDS, SPAN_WORDS};
use capi::build_calls::{segment_cache_finish, segment_cache_open};
use capi::rebuild_calls::{segment_cache_rebuild_finish, segment_cache_rebuild_open};
use capi::stats_calls::{
    segment_cache_index_load_bps, segment_cache_modeled_overhead_bytes,
    segment_cache_modeled_retained_bytes, segment_cache_stats,
};
use capi::words::{BUILDER_WORDS, REBUILD_WORDS, SET_WORDS};
use capi_get::segment_cache_get;
use capi_next_entry::segment_cache_next_entry;
use capi_peek::segment_cache_peek;
use capi_probe::segment_cache_probe;
use capi_push::segment_cache_push;
use capi_push_copied::segment_cache_push_copied;
use capi_push_reused::segment_cache_push_reused;
use capi_take_accessed::segment_cache_take_accessed;
use std::slice::from_mut;

pub(crate) type Arena = [u8; 131_072];

/// What the program has for a set, and for the build or the rebuild that makes it.
#[derive(Clone, Copy)]
pub(crate) struct Areas {
    builder: [u64; BUILDER_WORDS],
    rebuild: [u64; REBUILD_WORDS],
    set: [u64; SET_WORDS],
    index: [u64; 1_024],
    filter: [u64; 1_024],
    /// Where the segments start, and how long they are.
    starts: [u64; 256],
    sizes: [u64; 256],
}

/// Makes the call of a line on the areas of the set that it makes or asks, by the line's first number: one that
/// an open makes, or one of three rebuilds. A rebuild is opened from the areas that the second number says. By a
/// match: the calls take different arguments, and closures in one table would have to take all of them.
pub(crate) fn make_call(line: &Line, sets: &mut [Areas; 4], arena: &mut Arena) -> Told {
    let made = line.numbers[0] as usize % 4;
    let areas = &mut sets[made];
    match line.kind {
        Kind::Open => areas.open(line, arena),
        Kind::Push => areas.push(line, arena),
        Kind::Finish => areas.finish(line, arena),
        Kind::Stats => areas.stats(),
        Kind::RebuildOpen => {
            let source = sets[line.numbers[1] as usize % 4];
            sets[made].rebuild_open(line, &source, arena)
        }
        Kind::PushReused => areas.push_reused(line, arena),
        Kind::PushCopied => areas.push_copied(line, arena),
        Kind::RebuildFinish => areas.rebuild_finish(arena),
        Kind::Checksum => told(areas.checksum(line, arena), &[]),
        Kind::Get | Kind::Peek => areas.look_up::<SPAN_WORDS>(line, arena),
        Kind::Probe | Kind::Walk => areas.look_up::<RECORD_WORDS>(line, arena),
        Kind::Take | Kind::Unreadable => areas.look_up::<1>(line, arena),
    }
}

impl Areas {
    pub(crate) const EMPTY: Areas = Areas {
        builder: [0; BUILDER_WORDS],
        rebuild: [0; REBUILD_WORDS],
        set: [0; SET_WORDS],
        index: [0; 1_024],
        filter: [0; 1_024],
        starts: [0; 256],
        sizes: [0; 256],
    };

    fn open(&mut self, line: &Line, arena: &Arena) -> Told {
        self.builder = [0; BUILDER_WORDS];
        let refusal = segment_cache_open(
            &line.numbers[2..],
            line.numbers[1] as usize,
            &mut self.builder,
            &mut self.index,
            &mut self.filter,
            &self.starts,
            &self.sizes,
            arena,
        );
        told(refusal, &self.builder[8..10])
    }

    fn rebuild_open(&mut self, line: &Line, source: &Areas, arena: &Arena) -> Told {
        self.rebuild = [0; REBUILD_WORDS];
        let refusal = segment_cache_rebuild_open(
            &source.set,
            &source.starts,
            &source.sizes,
            arena,
            line.numbers[2] as usize,
            line.numbers[3] as usize,
            line.key,
            line.numbers[4],
            &mut self.rebuild,
            &mut self.index,
            &mut self.filter,
            &mut self.starts,
            &mut self.sizes,
        );
        told(refusal, &self.rebuild[8..10])
    }

    fn finish(&mut self, line: &Line, arena: &Arena) -> Told {
        self.set = [0; SET_WORDS];
        let refusal = segment_cache_finish(
            &self.builder,
            line.numbers[1] as usize,
            &mut self.index,
            &mut self.starts,
            &mut self.sizes,
            &mut [0; 128],
            arena,
            &mut self.set,
        );
        told(refusal, &[self.set[9], self.set[11]])
    }

    fn rebuild_finish(&mut self, arena: &Arena) -> Told {
        let mut totals = [0; 4];
        self.set = [0; SET_WORDS];
        let refusal = segment_cache_rebuild_finish(
            &self.rebuild,
            &mut self.index,
            &mut self.starts,
            &mut self.sizes,
            &mut [0; 128],
            arena,
            &mut self.set,
            &mut totals,
        );
        let mut told = told(refusal, &totals);
        told[5] = self.set[9];
        told
    }

    fn push(&mut self, line: &Line, arena: &mut Arena) -> Told {
        let mut place = [0; 2];
        let refusal = segment_cache_push(
            &mut self.builder,
            line.numbers[1],
            line.key,
            line.value,
            line.lifetime(),
            &mut self.index,
            &mut self.filter,
            arena,
            &mut place,
        );
        told(refusal, &place)
    }

    fn push_copied(&mut self, line: &Line, arena: &mut Arena) -> Told {
        let mut place = [0; 2];
        let refusal = segment_cache_push_copied(
            &mut self.rebuild,
            line.numbers[1],
            line.key,
            line.value,
            line.lifetime(),
            &mut self.index,
            &mut self.filter,
            &self.starts,
            &self.sizes,
            arena,
            &mut place,
        );
        told(refusal, &place)
    }

    fn push_reused(&mut self, line: &Line, arena: &Arena) -> Told {
        let mut place = [0; 2];
        let refusal = segment_cache_push_reused(
            &mut self.rebuild,
            line.numbers[1],
            line.key,
            line.value,
            line.numbers[3] as usize,
            line.numbers[4] as usize,
            &mut self.index,
            &mut self.filter,
            &self.starts,
            &self.sizes,
            arena,
            &mut place,
        );
        told(refusal, &place)
    }

    /// The second number is the hash, or the slot at which a walk goes on, and the third the tick. A line that
    /// is no lookup is told what no call answers. By a match: take and walk have fewer arguments than the others, and
    /// get and take mark the index.
    fn look_up<const WORDS: usize>(&mut self, line: &Line, arena: &Arena) -> Told
        requires { WORDS < TOLD }
    {
        let [_, hash, tick, ..] = line.numbers;
        let (slot, key) = (hash as usize, line.key);
        let (set, index) = (&self.set[..], &mut self.index[..]);
        let (filter, starts, sizes) = (&self.filter[..], &self.starts[..], &self.sizes[..]);
        let mut words = [0; WORDS];
        let to = &mut words[..];
        let refusal = match line.kind {
            Kind::Get => segment_cache_get(
                set, hash, key, tick, index, filter, starts, sizes, arena, to,
            ),
            Kind::Peek => segment_cache_peek(
                set, hash, key, tick, index, filter, starts, sizes, arena, to,
            ),
            Kind::Take => segment_cache_take_accessed(
                set, hash, key, index, filter, starts, sizes, arena, to,
            ),
            Kind::Probe => segment_cache_probe(
                set, hash, key, tick, index, filter, starts, sizes, arena, to,
            ),
            Kind::Walk => segment_cache_next_entry(
                set, slot, tick, index, starts, sizes, arena, to,
            ),
            _ => u64::MAX,
        };
        told(refusal, &words)
    }

    /// Index words, filter words, and of each segment its start, its length and its bytes.
    fn checksum(&self, line: &Line, arena: &Arena) -> u64 {
        let [_, index, filter, segments, ..] = line.numbers;
        let sum = with_words(with_words(0, &self.index, index), &self.filter, filter);
        with_segments(sum, &self.starts, &self.sizes, segments, arena)
    }

    /// The eight numbers of the statistics, then those of the three methods.
    fn stats(&self) -> Told {
        let mut stats = [0; 8];
        let mut told = told(segment_cache_stats(&self.set, &mut stats), &stats);
        segment_cache_modeled_retained_bytes(&stats, from_mut(&mut told[9]));
        segment_cache_modeled_overhead_bytes(&stats, from_mut(&mut told[10]));
        segment_cache_index_load_bps(&stats, from_mut(&mut told[11]));
        told
    }
}

fn told(refusal: u64, words: &[u64]) -> Told
    requires { length words.now < TOLD }
{
    let mut told = [0; TOLD];
    told[0] = refusal;
    told[1..1 + words.len()].copy_from_slice(words);
    told
}
