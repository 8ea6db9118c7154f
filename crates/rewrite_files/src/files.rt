// What is done with the files that the program's arguments name, and what is printed of it.
use crate::{compare, form_of};
use std::env::Env;
use std::fs::Files;
use table::Answer;
use tool::{MOST, print_answer, print_bytes};

fn print_length(len: usize) {
    tool::print(&text::decimal(len as u64));
    print_bytes(b" bytes\n");
}

// The form of one file's table into another file, and its length; of a table that is refused the answer alone.
pub fn rewrite_file<R: Env + Files>(rt: &R, from: usize, to: usize) {
    let mut table = [0u8; MOST];
    let Some(n) = tool::read_file(rt, from, &mut table) else {
        return;
    };
    let form = form_of(&table[..n]);
    let answer = form.answer;
    if answer.number != 0 {
        print_answer(answer);
        return;
    }
    let len = form.len;
    let bytes = form.bytes;
    if tool::write_file(rt, to, &bytes[..len]) {
        print_length(len);
    }
}

fn print_refusal(which: &[u8], a: Answer) {
    if a.number != 0 {
        print_bytes(which);
        print_bytes(b" refused\n");
        print_answer(a);
    }
}

fn print_compared(t: &[u8], u: &[u8]) {
    let found = compare(t, u);
    let first = found.first;
    let second = found.second;
    print_refusal(b"first", first);
    print_refusal(b"second", second);
    if first.number != 0 {
        return;
    }
    if second.number != 0 {
        return;
    }
    if found.same {
        print_bytes(b"same\n");
    } else {
        print_bytes(b"different\n");
    }
}

// Both are read before either is judged, so that one run names both files that cannot be read.
pub fn compare_files<R: Env + Files>(rt: &R, first: usize, second: usize) {
    let mut ours = [0u8; MOST];
    let mut theirs = [0u8; MOST];
    let one = tool::read_file(rt, first, &mut ours);
    let other = tool::read_file(rt, second, &mut theirs);
    if let (Some(m), Some(n)) = (one, other) {
        print_compared(&ours[..m], &theirs[..n]);
    }
}
