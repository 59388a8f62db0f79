// A worked example through the calls of builder and set: the arena's bytes, the answers, and the index;
// then the set as a file.
use crate::areas::{TrialAreas, show_bytes};
use crate::file;
use hash_parts::duration::Duration;
use hash_parts::setting::SegmentCacheConfig;
use sets::builder::SegmentCacheBuilder;
use sets::cache::FrozenSegmentCache;
use std::io;

impl<const ARENA: usize> TrialAreas<8, 0, ARENA> {
    // Two pushes; then the arena's bytes are shown.
    fn fill(&mut self, rt: &impl Print, builder: &mut SegmentCacheBuilder) -> io::Result<()> {
        let life = Duration {
            secs: 9,
            nanos: 500_000_000,
        };
        self.push(rt, builder, 1, b"a", b"AB", Some(life))?;
        self.push(rt, builder, 2, b"b", b"", None)?;
        print!(rt; "arena:")?;
        show_bytes(rt, self.segments.arena.get(..builder.filled).unwrap_or(&[]))
    }

    pub(crate) fn ask(&mut self, rt: &impl Print, set: FrozenSegmentCache) -> io::Result<()> {
        self.get(rt, set, 1, b"a", 9)?;
        self.get(rt, set, 1, b"a", 10)?;
        self.get(rt, set, 2, b"b", 70_000)
    }

    // The first words of the index.
    pub(crate) fn show_index(&self, rt: &impl Print) -> io::Result<()> {
        println!(rt; "control word {:x}", self.index[0])?;
        println!(rt; "index word 1 {:x}", self.index[1])?;
        println!(rt; "index word 2 {:x}", self.index[2])
    }
}

pub(crate) fn run(rt: &impl Print) -> io::Result<()> {
    let mut areas: TrialAreas<8, 0, 16> = TrialAreas::filled(0);
    let config = SegmentCacheConfig::with_relative_expiry(Duration { secs: 1, nanos: 0 });
    let Ok(mut builder) = areas.open(config, 2) else {
        return Ok(());
    };
    areas.fill(rt, &mut builder)?;
    let Ok(set) = areas.finish(builder, 4_096) else {
        return Ok(());
    };
    areas.ask(rt, set)?;
    areas.show_index(rt)?;
    file::run(rt, set, &areas)
}
