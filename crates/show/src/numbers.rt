// Lists of positions: one that leads, if one does, and behind it those of a list that are not the same.
use crate::bytes::{print_line_start, put, wider};
use text::{Text, decimals};
use tool::{print, print_bytes};

// Goes over the one that leads and over the others, in their order.
fn each_number<F: FnMut(u64)>(lead: Option<u64>, x: &[u8], mut take: F)
    requires { F.IsAlwaysCallable take }
{
    if let Some(n) = lead {
        take(n);
    }
    for b in x {
        let n = u64::from(*b);
        if lead != Some(n) {
            take(n);
        }
    }
}

// How many there are.
pub fn count_numbers(lead: Option<u64>, x: &[u8]) -> usize {
    let mut count = 0;
    each_number(lead, x, |_| count = wider(count, 1));
    count
}

// A number for people, behind a comma unless it is the first; its width.
fn put_number(n: u64, first: bool, out: bool) -> usize {
    if first {
        return put(&text::decimal(n), out);
    }
    let mut text = Text::of(b",");
    decimals::put_number(&mut text, n);
    put(&text, out)
}

// All of them for people; their width.
pub fn put_numbers(lead: Option<u64>, x: &[u8], out: bool) -> usize {
    let mut width = 0;
    each_number(
        lead,
        x,
        |n| width = wider(width, put_number(n, width == 0, out)),
    );
    width
}

// The start of a part of a list: behind a comma unless it is the first, and on a line of its own.
pub fn print_part_start(first: bool, depth: usize) {
    if !first {
        print_bytes(b",");
    }
    print_line_start(depth);
}

// A list in JSON, a number to a line.
pub fn print_numbers(lead: Option<u64>, x: &[u8], depth: usize) {
    print_bytes(b"[");
    let mut none = true;
    each_number(lead, x, |n| {
        print_part_start(none, depth);
        print(&text::decimal(n));
        none = false;
    });
    print_list_end(none, depth);
}

// The end of a list whose parts stand at a depth: on a line of its own unless the list is empty.
pub fn print_list_end(none: bool, depth: usize) {
    if none {
        print_bytes(b"]");
        return;
    }
    if depth != 0 {
        print_line_start(depth - 1);
    }
    print_bytes(b"]");
}
