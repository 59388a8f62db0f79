//! Refusals at the boundaries of each number: 9, 11 and 12, which the program passage cannot reach, and others
//! beside them. The cases are lines of standard input: each names what is changed in words that pass, and how.
//! A line of the output has the name, and the number of each call's answer: 0 where the call is accepted.
#![tactic(auto)]

use crate::calls::Calls;
use crate::case::{Case, Word};
use show::input::{cut, read_full};
use std::io;

mod calls;
mod case;

const TABLE_BYTES: usize = 16_384;

fn main(rt: HostRuntime) -> io::Result<()> {
    let mut table = [0; TABLE_BYTES];
    let length = read_full(&mut rt.stdin(), &mut table);
    ask_all(&rt, &table[..length])
}

/// A line that begins with `#` is a comment. One that begins with `=` has the words that pass for the lines below it. The changes
/// of a line begin two bytes behind the start of its colon, whatever the byte between is.
fn ask_all(rt: &impl Print, table: &[u8]) -> io::Result<()> {
    let mut passing = Case::default();
    for line in table.split(|byte| *byte == b'\n') {
        if line.is_empty() || line.starts_with(b"#") {
            continue;
        }
        let (name, changes) = cut(line, b':');
        let changes = changes.get(1..).unwrap_or(&[]);
        if line.starts_with(b"=") {
            passing = Case::default().changed(changes);
        } else {
            ask(rt, name, passing.changed(changes))?;
        }
    }
    Ok(())
}

/// By a match and not by a table of closures: what the calls answer has one, three or six numbers.
fn ask(rt: &impl Print, name: &[u8], case: Case) -> io::Result<()> {
    let Ok(calls) = Calls::try_from(case.word(Word::Calls)) else {
        return show(rt, name, &[u64::MAX]);
    };
    match calls {
        Calls::Open => show(rt, name, &[case.open()]),
        Calls::Push => show(rt, name, &[case.push()]),
        Calls::Finish => show(rt, name, &[case.finish()]),
        Calls::Set => show(rt, name, &case.ask_set()),
        Calls::Stats => show(rt, name, &[case.stats()]),
        Calls::RebuildOpen => show(rt, name, &[case.rebuild_open()]),
        Calls::Rebuild => show(rt, name, &case.ask_rebuild()),
        Calls::PushReused => show(rt, name, &[case.push_reused()]),
        Calls::PushCopied => show(rt, name, &[case.push_copied()]),
        Calls::RebuildFinish => show(rt, name, &[case.rebuild_finish()]),
    }
}

fn show(rt: &impl Print, name: &[u8], answers: &[u64]) -> io::Result<()> {
    rt.write_all(name)?;
    for answer in answers {
        print!(rt; " {answer}")?;
    }
    println!(rt)
}
