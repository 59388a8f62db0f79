// Answering a line of the input.
ghost use Rattle.std.specs.Prelude.{◌≡◌, ◌≤◌, length, unwrap_or};
ghost use Rattle.texts.specs.Output.{appended, output};
ghost use Rattle.passage.specs.Answer.{get_text, line_step, put_texts};
ghost use Rattle.passage.specs.Stage.{answer_text, answered_by};

use crate::areas::{Areas, KeyAndValue};
use crate::stage::{Answer, BAD, Stage};
use hash_parts::duration::Duration;
use passage_lines::command::{Command, parse_line};
use passage_lines::hex::decode_hex;
use passage_lines::reply::{put_reply, put_value};
use records::record::value_slice;

// What a line does and prints. The areas for key and value hold their bytes while the line is answered. By a
// match: each command has fields of its own, and closures in one table would have to take all of them.
#[tactic(auto, unfolding(crate::specs::Answer::line_step, crate::specs::Stage::answer_text, passage_lines::specs::Reply::reply_text))]
pub(crate) fn answer_line(
    stage: &mut Stage,
    line: &[u8],
    bytes: &mut KeyAndValue,
    areas: &mut Areas,
) -> Answer
    ensures { answered_by stage.new result areas.new ≡ line_step stage.old line.now (length bytes.old.key) (length bytes.old.value) areas.old }
{
    match parse_line(line) {
        Command::Open { records, config } => stage.open(records, config, areas),
        Command::Put {
            hash,
            key,
            value,
            ttl,
        } => put_line(
            stage,
            hash,
            value_slice(line, key),
            value_slice(line, value),
            ttl,
            bytes,
            areas,
        )
        .unwrap_or(BAD),
        Command::Close { target } => stage.close(target, areas),
        Command::Get { hash, key, tick } => {
            get_line(*stage, hash, value_slice(line, key), tick, bytes, areas).unwrap_or(BAD)
        }
        Command::Bad => BAD,
    }
}

// None where key or value has no room, which is bad.
#[tactic(auto, unfolding(crate::specs::Stage::answer_text, passage_lines::specs::Reply::reply_text))]
fn put_line(
    stage: &mut Stage,
    hash: u64,
    key_text: &[u8],
    value_text: &[u8],
    ttl: Option<Duration>,
    bytes: &mut KeyAndValue,
    areas: &mut Areas,
) -> Option<Answer>
    ensures { answered_by stage.new (unwrap_or result BAD) areas.new ≡ put_texts stage.old hash ttl key_text.now value_text.now (length bytes.old.key) (length bytes.old.value) areas.old }
{
    let key_len = decode_hex(key_text, &mut bytes.key)?;
    let value_len = decode_hex(value_text, &mut bytes.value)?;
    let key = &bytes.key[..key_len];
    let value = &bytes.value[..value_len];
    Some(stage.put(hash, key, value, ttl, areas))
}

#[tactic(auto, unfolding(crate::specs::Stage::answer_text, passage_lines::specs::Reply::reply_text))]
fn get_line(
    stage: Stage,
    hash: u64,
    key_text: &[u8],
    tick: u64,
    bytes: &mut KeyAndValue,
    areas: &mut Areas,
) -> Option<Answer>
    ensures { answered_by stage (unwrap_or result BAD) areas.new ≡ get_text stage hash tick key_text.now (length bytes.old.key) areas.old }
{
    let key_len = decode_hex(key_text, &mut bytes.key)?;
    Some(stage.get(hash, &bytes.key[..key_len], tick, areas))
}

// Writes the line of an answer from a position on, and gives the position after it, which the next call takes;
// where the line does not fit it writes nothing.
#[tactic(auto, unfolding(crate::specs::Stage::answer_text))]
pub(crate) fn put_answer(out: &mut [u8], at: usize, answer: Answer, arena: &[u8]) -> usize
    ensures line_after { output result out.new ≡ appended at (answer_text arena.now answer) out.old }
    ensures end_inside { at ≤ length out.old → result ≤ length out.old }
{
    match answer {
        Answer::Line(reply) => put_reply(out, at, reply),
        Answer::Value(span) => put_value(out, at, value_slice(arena, span)),
    }
}
