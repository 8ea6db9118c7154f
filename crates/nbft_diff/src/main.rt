// `nbft_diff FILE FILE`: what two tables say differently, a line for each difference, and nothing where they say the same. Of a table that is refused
// number, kind and position of its first fault instead, and on standard error the file's name and the words.
#![tactic(auto)]

ghost use Rattle.reader.specs.Accepted.{Accepted};

use changes_records::places::{END, first, lines_at, next};
use std::env::Env;
use std::fs::Files;
use table::Answer;
use tool::MOST;

// The name of the file that an argument names, and why it is refused.
fn complain_of<R: Env>(rt: &R, argument: usize, a: Answer) {
    let mut path = io::buffer();
    let n = tool::argument_bytes(rt, argument, &mut path);
    let words = tool::answer_words(a);
    tool::complain(&path[..n], b": ");
    tool::complain(words.as_bytes(), b"");
}

fn print_refusal<R: Env>(rt: &R, argument: usize, a: Answer) {
    if a.number != 0 {
        tool::print(&tool::answer_line(a));
        complain_of(rt, argument, a);
    }
}

// A line for each difference of two accepted tables, place by place.
fn print_changes(t: &[u8], u: &[u8])
    requires { Accepted t.now × Accepted u.now }
{
    let mut out = io::large_buffer();
    let mut w = first();
    // From state to state: no index is counted.
    while w.list != END {
        let n = lines_at(t, u, w, &mut out);
        tool::print_bytes(&out[..n]);
        w = next(t, u, w);
    }
}

// Both tables are judged before anything is said of either.
fn print_compared<R: Env>(rt: &R, t: &[u8], u: &[u8]) {
    let one = reader::check(t);
    let other = reader::check(u);
    print_refusal(rt, 1, one);
    print_refusal(rt, 2, other);
    if one.number != 0 {
        return;
    }
    if other.number != 0 {
        return;
    }
    print_changes(t, u);
}

// Both files are read before either is judged, so that one run names both that cannot be read.
fn compare_files<R: Env + Files>(rt: &R) {
    let mut ours = [0u8; MOST];
    let mut theirs = [0u8; MOST];
    let one = tool::read_file(rt, 1, &mut ours);
    let other = tool::read_file(rt, 2, &mut theirs);
    if let (Some(m), Some(n)) = (one, other) {
        print_compared(rt, &ours[..m], &theirs[..n]);
    }
}

fn main(rt: HostRuntime) {
    if tool::helped(&rt, b"usage: nbft_diff FILE FILE\n") {
        return;
    }
    if tool::argument_count(&rt) == 3 {
        compare_files(&rt);
        return;
    }
    tool::complain(b"usage: nbft_diff FILE FILE", b"\n");
}
