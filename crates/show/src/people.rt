// For people: a table of each part that has records, with columns as wide as what stands in them, and behind the tables the records one by one.
ghost use Rattle.std.specs.Prelude.{◌<◌};
ghost use Rattle.reader.specs.Accepted.{Accepted};

use crate::bytes::{pad, print_rule, put};
use crate::cells::put_cell;
use crate::lines::print_records;
use crate::records::{cell_at, first_position, is_used, kind_of, last_position};
use show_table::forms::{Form, View};
use show_table::names::title_at;
use show_table::{end_row, first_row, row_at};
use table::Control;
use tool::{print, print_bytes};

// No table has more columns.
const MOST_COLUMNS: usize = 16;

// The lines of a table: the columns' names, the rule below them, and the records, each by its position.
#[derive(Clone, Copy)]
enum Line {
    Titles,
    Rule,
    Cells(usize),
}

// The row of column `k` of a section, if it has as many.
fn column_row(section: u8, k: usize) -> Option<usize>
    requires { k < 16 }
{
    (first_row(section)..end_row(section)).find(|i| row_at(*i).view == View::Column(k))
}

fn cell_width(t: &[u8], section: u8, position: usize, i: usize) -> usize
    requires { Accepted t.now }
{
    if is_used(t, section, position) {
        return put_cell(cell_at(t, position, i), false);
    }
    0
}

// As wide as the widest of the title and the cells of a row.
fn column_width(t: &[u8], section: u8, i: usize) -> usize
    requires { Accepted t.now }
{
    let mut width = put(&title_at(i), false);
    for position in first_position(section)..=last_position(t, section) {
        width = width.max(cell_width(t, section, position, i));
    }
    width
}

// The width of column `k`; 0 where a section has fewer.
fn width_of(t: &[u8], section: u8, k: usize) -> usize
    requires { Accepted t.now × (k < 16) }
{
    match column_row(section, k) {
        Some(i) => column_width(t, section, i),
        None => 0,
    }
}

// The widths of columns, each at the place of its number.
fn widths_of(t: &[u8], section: u8) -> [usize; MOST_COLUMNS]
    requires { Accepted t.now }
{
    std::array::from_fn(|k| width_of(t, section, k))
}

fn print_separator(k: usize, line: Line) {
    if k == 0 {
        return;
    }
    match line {
        Line::Rule => print_bytes(b"+"),
        _ => print_bytes(b"|"),
    }
}

// What stands in the column of row `i`.
fn print_column(t: &[u8], i: usize, width: usize, line: Line)
    requires { Accepted t.now }
{
    match line {
        Line::Titles => pad(put(&title_at(i), true), width),
        Line::Rule => print_rule(width),
        Line::Cells(position) => pad(put_cell(cell_at(t, position, i), true), width),
    }
}

// One line of a table.
fn print_columns(t: &[u8], section: u8, widths: &[usize; MOST_COLUMNS], line: Line)
    requires { Accepted t.now }
{
    for (k, width) in widths.iter().enumerate() {
        if let Some(i) = column_row(section, k) {
            print_separator(k, line);
            print_column(t, i, *width, line);
        }
    }
    print_bytes(b"\n");
}

fn print_unused(position: usize, width: usize) {
    pad(put(&text::decimal(position as u64), true), width);
    print_bytes(b"|unused\n");
}

// The lines of a section's table; of a position that is not used, that it is not.
fn print_table(t: &[u8], section: u8)
    requires { Accepted t.now }
{
    let widths = widths_of(t, section);
    print_columns(t, section, &widths, Line::Titles);
    print_columns(t, section, &widths, Line::Rule);
    for position in first_position(section)..=last_position(t, section) {
        if is_used(t, section, position) {
            print_columns(t, section, &widths, Line::Cells(position));
        } else {
            print_unused(position, widths[0]);
        }
    }
}

// The section that a row of the table shows.
fn section_of(i: usize) -> Option<u8> {
    let row = row_at(i);
    match row.form {
        Form::Single => Some(row.kind),
        Form::Listed => Some(kind_of(row.weight)),
        _ => None,
    }
}

// Goes over the rows of the table that show a section, each with that section.
fn each_section<F: Fn(usize, u8)>(print_one: F)
    requires { F.IsAlwaysCallable print_one }
{
    for i in first_row(Control::ID)..end_row(Control::ID) {
        if let Some(section) = section_of(i) {
            print_one(i, section);
        }
    }
}

// The table of a section, which row `i` of the whole shows. A heading above no records would say nothing.
fn print_part(t: &[u8], i: usize, section: u8)
    requires { Accepted t.now }
{
    if last_position(t, section) < first_position(section) {
        return;
    }
    if i != first_row(Control::ID) {
        print_bytes(b"\n");
    }
    print(&title_at(i));
    print_bytes(b":\n\n");
    print_table(t, section);
}

// The tables of all sections, and then their records one by one.
fn print_good(t: &[u8], all: bool)
    requires { Accepted t.now }
{
    each_section(|i, section| print_part(t, i, section));
    each_section(|i, section| print_records(t, i, section, all));
}

// Any bytes: what a good table says; else number, kind and position of its first fault, and the words.
pub fn print_people(t: &[u8], all: bool) {
    let a = reader::check(t);
    if a.number != 0 {
        tool::print_answer(a);
        return;
    }
    print_good(t, all);
}
