// What each command does to the set that the program builds and asks, and what it prints.
ghost use Rattle.std.specs.Prelude.{◌≡◌};
ghost use Rattle.passage.specs.Stage.{answered_by, after_closing, after_getting, after_opening, after_putting, close_step, get_step, open_step, put_step};

use crate::areas::Areas;
use hash_parts::duration::Duration;
use hash_parts::error::SegmentCacheBuildError;
use hash_parts::setting::SegmentCacheConfig;
use index::view::SegmentAreas;
use index::word::BUCKET_SLOTS;
use passage_lines::reply::{Reply, Word};
use records::record::Span;
use sets::builder::SegmentCacheBuilder;
use sets::cache::FrozenSegmentCache;

// What a command prints: a line, or the line of a value that stands in the arena.
#[derive(Clone, Copy)]
pub(crate) enum Answer {
    Line(Reply),
    Value(Span),
}

// To a line of another form, or out of turn.
pub(crate) const BAD: Answer = Answer::Line(Reply::Bad);

// An open is in turn until one was good, put and close while a builder is open, get once the set is
// finished. Each command is bad and changes nothing where it is out of turn.
#[derive(Clone, Copy)]
pub(crate) enum Stage {
    Fresh,
    Building(SegmentCacheBuilder),
    Finished(FrozenSegmentCache),
}

impl Stage {
    #[tactic(auto, using(crate::proofs::Turns::open_out, crate::proofs::Turns::open_slots), unfolding(crate::specs::Stage::answer_text, crate::specs::Stage::open_step, passage_lines::specs::Reply::reply_text))]
    pub(crate) fn open(
        &mut self,
        records: usize,
        config: SegmentCacheConfig,
        areas: &mut Areas,
    ) -> Answer
        ensures { answered_by self.new result areas.new ≡ after_opening areas.old (open_step self.old records config areas.old.index areas.old.filter areas.old.starts areas.old.lengths areas.old.arena) }
    {
        let Stage::Fresh = self else {
            return BAD;
        };
        let segments = SegmentAreas {
            starts: &areas.starts,
            lengths: &areas.lengths,
            arena: &areas.arena,
        };
        match SegmentCacheBuilder::try_new(
            config,
            records,
            &mut areas.index,
            &mut areas.filter,
            segments,
        ) {
            Err(error) => refused(Word::Open, error),
            Ok(builder) => {
                *self = Stage::Building(builder);
                let buckets = builder.bucket_count;
                accepted(Word::Open, buckets, buckets * BUCKET_SLOTS)
            }
        }
    }

    #[tactic(auto, using(crate::proofs::Turns::put_out), unfolding(crate::specs::Stage::answer_text, crate::specs::Stage::put_step, passage_lines::specs::Reply::reply_text))]
    pub(crate) fn put(
        &mut self,
        hash: u64,
        key: &[u8],
        value: &[u8],
        ttl: Option<Duration>,
        areas: &mut Areas,
    ) -> Answer
        ensures { answered_by self.new result areas.new ≡ after_putting areas.old (put_step self.old hash key.now value.now ttl areas.old.index areas.old.filter areas.old.arena) }
    {
        let Stage::Building(builder) = self else {
            return BAD;
        };
        match builder.push(
            hash,
            key,
            value,
            ttl,
            &mut areas.index,
            &mut areas.filter,
            &mut areas.arena,
        ) {
            Err(error) => refused(Word::Put, error),
            Ok(pushed) => accepted(Word::Put, pushed.slot, pushed.location),
        }
    }

    #[tactic(auto, using(crate::proofs::Turns::close_out), unfolding(crate::specs::Stage::answer_text, crate::specs::Stage::close_step, passage_lines::specs::Reply::reply_text))]
    pub(crate) fn close(&mut self, target: usize, areas: &mut Areas) -> Answer
        ensures { answered_by self.new result areas.new ≡ after_closing areas.old (close_step self.old target areas.old.index areas.old.starts areas.old.lengths areas.old.scratch areas.old.arena) }
    {
        let Stage::Building(builder) = *self else {
            return BAD;
        };
        match builder.finish(
            target,
            &mut areas.index,
            &mut areas.starts,
            &mut areas.lengths,
            &mut areas.scratch,
            &areas.arena,
        ) {
            Err(error) => refused(Word::Close, error),
            Ok(set) => {
                *self = Stage::Finished(set);
                accepted(Word::Close, set.segments, set.record_bytes)
            }
        }
    }

    #[tactic(auto, using(crate::proofs::Turns::get_out), unfolding(crate::specs::Stage::answer_text, crate::specs::Stage::get_step, passage_lines::specs::Reply::reply_text))]
    pub(crate) fn get(self, hash: u64, key: &[u8], tick: u64, areas: &mut Areas) -> Answer
        ensures { answered_by self result areas.new ≡ after_getting self areas.old (get_step self hash key.now tick areas.old.index areas.old.filter areas.old.starts areas.old.lengths areas.old.arena) }
    {
        let Stage::Finished(set) = self else {
            return BAD;
        };
        let segments = SegmentAreas {
            starts: &areas.starts,
            lengths: &areas.lengths,
            arena: &areas.arena,
        };
        match set.get_at_tick(hash, key, tick, &mut areas.index, &areas.filter, segments) {
            Err(error) => refused(Word::Get, error),
            Ok(None) => Answer::Line(Reply::Missing),
            Ok(Some(value)) => Answer::Value(value),
        }
    }
}

fn accepted(word: Word, first: usize, second: usize) -> Answer
    ensures { result ≡ Answer.Line (Reply.Accepted word first second) }
{
    Answer::Line(Reply::Accepted {
        word,
        first,
        second,
    })
}

fn refused(word: Word, error: SegmentCacheBuildError) -> Answer
    ensures { result ≡ Answer.Line (Reply.Refused word error) }
{
    Answer::Line(Reply::Refused { word, error })
}
