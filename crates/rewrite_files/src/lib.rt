// The one form of a table by value, and whether two tables say the same.
#![tactic(auto)]

ghost use Rattle.std.specs.Prelude.{◌≡◌, true, ◌↔◌, take};
ghost use Rattle.io.specs.Counts.{IsPrefixLen};
ghost use Rattle.table.specs.Meaning.{limit, form, meaning};
ghost use Rattle.table.specs.Rewriting.{rewrite_answer};

use table::{Answer, LIMIT};

pub mod files; // the same of files that the program's arguments name

// Where done, the form is the first `len` of `bytes`, which is no longer than a table can be.
#[derive(Clone, Copy)]
pub struct Form {
    pub answer: Answer,
    pub len: usize,
    pub bytes: [u8; LIMIT],
}

pub fn form_of(t: &[u8]) -> Form
    ensures { (result.answer ≡ rewrite_answer t.now limit) × IsPrefixLen result.len result.bytes × (result.answer.number ≡ 0 → take result.len result.bytes ≡ form (meaning t.now)) }
{
    let mut bytes = io::large_buffer();
    let made = rewriter::rewrite(t, &mut bytes);
    let answer = made.answer;
    Form {
        answer,
        len: made.len,
        bytes,
    }
}

// What the rewriter answers to each of two tables; where both are done, whether they say the same.
#[derive(Clone, Copy)]
pub struct Compared {
    pub first: Answer,
    pub second: Answer,
    pub same: bool,
}

pub fn compare(t: &[u8], u: &[u8]) -> Compared
    ensures { (result.first ≡ rewrite_answer t.now limit) × (result.second ≡ rewrite_answer u.now limit) × (result.first.number ≡ 0 → result.second.number ≡ 0 → (result.same ≡ true) ↔ (meaning t.now ≡ meaning u.now)) }
{
    let first = form_of(t);
    let second = form_of(u);
    let m = first.len;
    let n = second.len;
    let ours = first.bytes;
    let theirs = second.bytes;
    let same = check::same(&ours[..m], &theirs[..n]);
    let a = first.answer;
    let b = second.answer;
    Compared {
        first: a,
        second: b,
        same,
    }
}
