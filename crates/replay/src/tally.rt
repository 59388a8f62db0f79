//! Counting the calls by kind, and telling differences.
use crate::line::{Kind, Told};
use std::io;

const SHOWN_DIFFERENCES: u64 = 10;

#[derive(Clone, Copy)]
pub(crate) struct Tally {
    counts: [u64; 15],
    differences: u64,
}

impl Tally {
    pub(crate) const START: Tally = Tally {
        counts: [0; 15],
        differences: 0,
    };

    pub(crate) fn count(&mut self, kind: Kind) {
        let count = &mut self.counts[kind as usize];
        *count = count.saturating_add(1);
    }

    /// What the Rust told at a line, and the port; only the first differences are shown.
    pub(crate) fn compare(
        &mut self,
        rt: &impl Print,
        number: usize,
        rust: &Told,
        port: &Told,
    ) -> io::Result<()> {
        for (at, (rust, port)) in rust.iter().zip(port).enumerate() {
            if rust != port {
                if self.differences < SHOWN_DIFFERENCES {
                    println!(rt; "line {number}: word {at}, Rust {rust}, port {port}")?;
                }
                self.differences = self.differences.saturating_add(1);
                break;
            }
        }
        Ok(())
    }

    pub(crate) fn show(&self, rt: &impl Print) -> io::Result<()> {
        for (kind, name) in &Kind::ALL {
            println!(rt; "{name:16} {}", self.counts[*kind as usize])?;
        }
        println!(rt; "{:16} {}", "differences", self.differences)
    }
}
