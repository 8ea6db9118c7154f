// A table built from its description, and what is promised of it.
#![tactic(auto)]

ghost use Rattle.std.specs.Prelude.{◌≡◌, take, IfOk};
ghost use Rattle.io.specs.Counts as io;
ghost use Rattle.table.specs.Numbers as definition;

use bytes_front::Counts;
use description_draft::lines::{begins, nth_section};
use description_draft::wrongs::{Fault, Wrong};
use description_sections::walking::{Walk, walked};
use table::{Answer, Discovery, Hfi, Security, Ssns};

// How many sections of a kind there are; the 256th is one too many.
fn count_of(text: &[u8], kind: u8) -> Result<u8, Fault> {
    let mut count: u8 = 0;
    for (number, line) in (1..).zip(text.split(|b| *b == b'\n')) {
        if begins(line, kind) {
            count = count.checked_add(1).ok_or(Wrong::TooMany.at(number))?;
        }
    }
    Ok(count)
}

// How many records each list has.
fn counts_of(text: &[u8]) -> Result<Counts, Fault> {
    Ok(Counts {
        hfi: count_of(text, Hfi::ID)?,
        ssns: count_of(text, Ssns::ID)?,
        security: count_of(text, Security::ID)?,
        discovery: count_of(text, Discovery::ID)?,
    })
}

// The line of the section that an answer speaks of, or the last line.
fn line_of(text: &[u8], answer: Answer, last: usize) -> usize {
    nth_section(text, answer.kind, answer.position.saturating_sub(1)).unwrap_or(last)
}

// All sections are told: the table's end, and how many bytes it has.
fn finish(text: &[u8], walk: Walk, out: &mut [u8]) -> Result<usize, Fault>
    ensures { IfOk result (λ n. io.IsPrefixLen n out.new × ((definition.check (take n out.new)).number ≡ 0)) }
{
    let last = walk.line;
    let state = walk.state;
    if state.turn != 7 {
        return Err(Wrong::Incomplete.at(last));
    }
    let step = builder::finish(out, state);
    let a = step.answer;
    if a.number != 0 {
        return Err(Wrong::Refused(a).at(line_of(text, a, last)));
    }
    Ok(state.used)
}

// `room` is lent for what the objects of one section say. Whatever the text, a table of so many bytes is accepted.
pub fn build(text: &[u8], room: &mut [u8], out: &mut [u8]) -> Result<usize, Fault>
    ensures { IfOk result (λ n. io.IsPrefixLen n out.new × ((definition.check (take n out.new)).number ≡ 0)) }
{
    let counts = counts_of(text)?;
    let mut walk = walked(text, counts, room, out)?;
    walk.close(counts, room, out)?;
    finish(text, walk, out)
}
