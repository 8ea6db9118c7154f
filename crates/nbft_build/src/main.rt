// `nbft_build SPEC OUT`: a table built from its description, and its length. Where the description is wrong, a line on standard error says
// which of its lines and why; where the builder refuses what it says, number, kind and position too, and the words.
#![tactic(auto)]

use description::build;
use description_draft::wrongs::{Fault, Wrong, write_words};
use std::env::Env;
use std::fs::Files;
use tool::{STDERR_FILENO, complain};

// A description has comments, and four characters for a byte that is escaped.
const LONGEST: usize = 300000;

// As compilers say it: the file, the line, and what is wrong there.
fn print_fault<R: Env>(rt: &R, argument: usize, fault: Fault) {
    let mut path = io::buffer();
    let n = tool::argument_bytes(rt, argument, &mut path);
    complain(&path[..n], b":");
    io::print_decimal(STDERR_FILENO, fault.line as u64);
    io::write_all(STDERR_FILENO, b": ");
    write_words(STDERR_FILENO, fault.wrong);
    io::write_all(STDERR_FILENO, b"\n");
    if let Wrong::Refused(answer) = fault.wrong {
        tool::print_answer(answer);
    }
}

fn build_file<R: Env + Files>(rt: &R, from: usize, to: usize) {
    let mut spec = [0u8; LONGEST];
    let mut room = io::large_buffer();
    let mut out = io::large_buffer();
    let Some(n) = tool::read_file(rt, from, &mut spec) else {
        return;
    };
    match build(&spec[..n], &mut room, &mut out) {
        Ok(len) => write_table(rt, to, &out, len),
        Err(fault) => print_fault(rt, from, fault),
    }
}

fn write_table<R: Env + Files>(rt: &R, to: usize, out: &[u8], len: usize) {
    if len <= out.len() {
        if tool::write_file(rt, to, &out[0..len]) {
            tool::print(&text::decimal(len as u64));
            tool::print_bytes(b" bytes\n");
        }
    }
}

// Whether OUT has the description's name: it would be replaced by the table.
fn is_one_name<R: Env>(rt: &R) -> bool {
    let mut name = io::buffer();
    let n = tool::argument_bytes(rt, 2, &mut name);
    tool::argument_is(rt, 1, &name[..n])
}

fn main(rt: HostRuntime) {
    if tool::helped(&rt, b"usage: nbft_build SPEC OUT\n") {
        return;
    }
    if tool::argument_count(&rt) == 3 {
        if is_one_name(&rt) {
            complain(b"OUT is the description, and not replaced", b"\n");
            return;
        }
        build_file(&rt, 1, 2);
        return;
    }
    complain(b"usage: nbft_build SPEC OUT", b"\n");
}
