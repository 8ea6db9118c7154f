// A table as JSON: an object, a line for each key, two blanks for each level. What is shown stands in the rows of show_table.
ghost use Rattle.std.specs.Prelude.{◌≤◌};
ghost use Rattle.reader.specs.Accepted.{Accepted};

use crate::bytes::{print_line_start, print_quoted};
use crate::numbers::{print_list_end, print_part_start};
use crate::records::{cell_at, is_used, kind_of, last_position};
use crate::values::{is_absent, print_value};
use show_table::forms::Form;
use show_table::names::key_at;
use show_table::{end_row, first_row, row_at};
use table::{Answer, Control};
use tool::{print, print_bytes};

// The depth of the keys of a table, of those in its parts, and of those in the records of a list.
const OUTER: usize = 2;

const INNER: usize = 3;

const LISTED_AT: usize = 4;

fn print_key(i: usize, first: bool, depth: usize) {
    print_part_start(first, depth);
    print_bytes(b"\"");
    print(&key_at(i));
    print_bytes(b"\":");
}

fn print_member(t: &[u8], position: usize, i: usize, first: bool, depth: usize)
    requires { Accepted t.now × (depth ≤ 4) }
{
    let cell = cell_at(t, position, i);
    if is_absent(cell) {
        return;
    }
    print_key(i, first, depth);
    print_value(cell, depth + 1);
}

// A record as an object whose keys stand at a depth.
fn print_record(t: &[u8], section: u8, position: usize, depth: usize)
    requires { Accepted t.now × (1 ≤ depth) × (depth ≤ 4) }
{
    print_bytes(b"{");
    let from = first_row(section);
    for i in from..end_row(section) {
        print_member(t, position, i, i == from, depth);
    }
    print_line_start(depth - 1);
    print_bytes(b"}");
}

// The positions of a list that are used, or those that are not; `print_one` prints each.
fn print_positions<F: Fn(usize)>(t: &[u8], kind: u8, used: bool, depth: usize, print_one: F)
    requires table { Accepted t.now }
    requires printed { F.IsAlwaysCallable print_one }
{
    print_bytes(b"[");
    let mut none = true;
    for position in 1..=last_position(t, kind) {
        if is_used(t, kind, position) == used {
            print_part_start(none, depth);
            print_one(position);
            none = false;
        }
    }
    print_list_end(none, depth);
}

// The used records of a list, as objects.
fn print_list(t: &[u8], kind: u8)
    requires { Accepted t.now }
{
    print_positions(
        t,
        kind,
        true,
        INNER,
        |position| print_record(t, kind, position, LISTED_AT),
    );
}

// The unused positions of a list, as numbers.
fn print_unused(t: &[u8], kind: u8)
    requires { Accepted t.now }
{
    print_positions(
        t,
        kind,
        false,
        LISTED_AT,
        |position| print(&text::decimal(position as u64)),
    );
}

// The unused positions of each list, by the list's key.
fn print_all_unused(t: &[u8])
    requires { Accepted t.now }
{
    print_bytes(b"{");
    let mut none = true;
    for i in first_row(Control::ID)..end_row(Control::ID) {
        let row = row_at(i);
        if row.form == Form::Listed {
            print_key(i, none, INNER);
            print_unused(t, kind_of(row.weight));
            none = false;
        }
    }
    print_line_start(OUTER);
    print_bytes(b"}");
}

fn print_part(t: &[u8], i: usize)
    requires { Accepted t.now }
{
    let row = row_at(i);
    print_key(i, false, OUTER);
    match row.form {
        Form::Single => print_record(t, row.kind, 0, INNER),
        Form::Listed => print_list(t, kind_of(row.weight)),
        _ => print_all_unused(t),
    }
}

fn print_table(t: &[u8])
    requires { Accepted t.now }
{
    for i in first_row(Control::ID)..end_row(Control::ID) {
        print_part(t, i);
    }
}

// The words without the end of their line.
fn print_words(line: &[u8]) {
    if let Some((_, words)) = line.split_last() {
        print_quoted(words);
    }
}

fn print_number_of(key: &[u8], n: u64) {
    print_line_start(INNER);
    print_bytes(key);
    print(&text::decimal(n));
    print_bytes(b",");
}

fn print_refused(a: Answer) {
    print_bytes(b",");
    print_line_start(OUTER);
    print_bytes(b"\"refused\":{");
    print_number_of(b"\"number\":", u64::from(a.number));
    print_number_of(b"\"kind\":", u64::from(a.kind));
    print_number_of(b"\"position\":", a.position as u64);
    print_line_start(INNER);
    print_bytes(b"\"words\":");
    print_words(tool::answer_words(a).as_bytes());
    print_line_start(OUTER);
    print_bytes(b"}");
}

// What a good table says, or why it is refused.
fn print_said(t: &[u8]) {
    let a = reader::check(t);
    if a.number != 0 {
        print_refused(a);
        return;
    }
    print_table(t);
}

// What is known of a file, good or refused, as an object of a list.
pub fn print_file(name: &[u8], t: &[u8]) {
    print_line_start(1);
    print_bytes(b"{");
    print_line_start(OUTER);
    print_bytes(b"\"filename\":");
    print_quoted(name);
    print_said(t);
    print_line_start(1);
    print_bytes(b"}");
}
