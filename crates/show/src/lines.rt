// For people, record by record: what the tables leave out, a line for each row that says something, or for every row where all is asked for.
ghost use Rattle.reader.specs.Accepted.{Accepted};

use crate::cells::{put_cell, says_something};
use crate::records::{Cell, cell_at, first_position, is_used, last_position};
use show_table::forms::View;
use show_table::names::{key_at, title_at};
use show_table::{end_row, first_row};
use tool::{print, print_bytes};

fn has_line(cell: Cell<'_>, all: bool) -> bool {
    match cell.row.view {
        View::Detail => all,
        View::Lines => all || says_something(cell),
        _ => false,
    }
}

// The record's name, by that of its part of the table.
fn print_heading(part: usize, position: usize) {
    print_bytes(b"\n");
    print(&key_at(part));
    if position != 0 {
        print_bytes(b" ");
        print(&text::decimal(position as u64));
    }
    print_bytes(b":\n");
}

// What row `i` says of a record, behind the row's title.
fn print_line(t: &[u8], position: usize, i: usize)
    requires { Accepted t.now }
{
    print_bytes(b"  ");
    print(&title_at(i));
    print_bytes(b": ");
    put_cell(cell_at(t, position, i), true);
    print_bytes(b"\n");
}

// The lines of a record, and in front of the first of them its heading.
fn print_record(t: &[u8], part: usize, section: u8, position: usize, all: bool)
    requires { Accepted t.now }
{
    let mut none = true;
    for i in first_row(section)..end_row(section) {
        if has_line(cell_at(t, position, i), all) {
            if none {
                print_heading(part, position);
            }
            print_line(t, position, i);
            none = false;
        }
    }
}

// The records of a section, which is part `part` of the table.
pub fn print_records(t: &[u8], part: usize, section: u8, all: bool)
    requires { Accepted t.now }
{
    for position in first_position(section)..=last_position(t, section) {
        if is_used(t, section, position) {
            print_record(t, part, section, position, all);
        }
    }
}
