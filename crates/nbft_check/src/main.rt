// `nbft_check FILE`: whether the file holds a good table, and if not, its first fault. One line of
// numbers for programs, one of words for people. What hinders the check goes to standard error.
#![tactic(auto)]

use std::env::Env;
use std::fs::Files;
use tool::MOST;

fn check_file<R: Env + Files>(rt: &R, argument: usize) {
    let mut table = [0u8; MOST];
    if let Some(len) = tool::read_file(rt, argument, &mut table) {
        tool::print_answer(reader::check(&table[..len]));
    }
}

fn main(rt: HostRuntime) {
    if tool::helped(&rt, b"usage: nbft_check FILE\n") {
        return;
    }
    if tool::argument_count(&rt) == 2 {
        check_file(&rt, 1);
        return;
    }
    tool::complain(b"usage: nbft_check FILE", b"\n");
}
