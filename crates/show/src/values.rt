// The value of a row in JSON.

use crate::bytes::{Style, first_zero, print_quoted, put_bytes};
use crate::numbers::{count_numbers, print_numbers};
use crate::records::{
    Cell, field_of, is_present, is_there, number_of, object_of, other_number, text_in,
};
use show_table::forms::Form;
use show_values::kinds::{is_left_out, is_null, is_quoted};
use table::Field;
use text::Text;
use tool::{print, print_bytes};

// Whether the key of a row is left out.
pub fn is_absent(cell: Cell<'_>) -> bool {
    if cell.row.form == Form::Text {
        return !is_present(cell);
    }
    is_left_out(cell.row.form, number_of(cell))
}

fn print_text(text: &Text, quoted: bool) {
    if quoted {
        print_bytes(b"\"");
        print(text);
        print_bytes(b"\"");
        return;
    }
    print(text);
}

fn print_field(cell: Cell<'_>) {
    let n = number_of(cell);
    if is_null(cell.row.form, n, is_there(cell)) {
        print_bytes(b"null");
        return;
    }
    print_text(&text_in(cell), is_quoted(cell.row.form));
}

fn print_name(f: Field) {
    if let Some(name) = f.bytes.get(..f.len) {
        print_quoted(name);
    }
}

// An object as characters, or null.
fn print_characters(cell: Cell<'_>) {
    if is_present(cell) {
        print_quoted(object_of(cell));
        return;
    }
    print_bytes(b"null");
}

// What is long enough for an address is one.
fn print_reached(x: &[u8]) {
    if 16 <= x.len() {
        print_text(&text_addresses::address(&x[0..16]), true);
        return;
    }
    print_quoted(x);
}

fn print_service(x: &[u8]) {
    let end = first_zero(x);
    print_quoted(&x[0..end]);
}

fn print_digits(x: &[u8]) {
    if x.is_empty() {
        print_bytes(b"null");
        return;
    }
    print_bytes(b"\"");
    put_bytes(x, Style::Digits, true);
    print_bytes(b"\"");
}

// The object of a row; `depth` is that of its key.
fn print_object(cell: Cell<'_>, depth: usize) {
    let x = object_of(cell);
    let lead = Some(other_number(cell));
    match cell.row.form {
        Form::Reached => print_reached(x),
        Form::Service => print_service(x),
        Form::Bytes => print_digits(x),
        Form::Hfis => print_numbers(lead, x, depth),
        Form::HfiCount => print(&text::decimal(count_numbers(lead, x) as u64)),
        _ => print_numbers(None, x, depth),
    }
}

// Whether a way of printing is one of objects that are no characters.
pub fn is_object_form(form: Form) -> bool {
    matches!(
        form,
        Form::Reached | Form::Service | Form::Bytes | Form::Hfis | Form::HfiCount | Form::Positions
    )
}

pub fn print_value(cell: Cell<'_>, depth: usize) {
    if is_object_form(cell.row.form) {
        print_object(cell, depth);
        return;
    }
    match cell.row.form {
        Form::Position => print(&text::decimal(cell.position as u64)),
        Form::Name => print_name(field_of(cell)),
        Form::Text | Form::BytesText => print_characters(cell),
        _ => print_field(cell),
    }
}
