// The value of a row for people. Each is printed where it is asked for, and its width returned in any case.
ghost use Rattle.std.specs.Prelude.{◌<◌, ◌≤◌, length};

use crate::bytes::{Style, before_final_zero, put, put_bytes};
use crate::numbers::put_numbers;
use crate::records::{
    Cell, field_of, is_present, is_there, number_of, object_of, other_number, text_in,
};
use crate::values::is_object_form;
use show_table::forms::Form;
use show_values::choices::bits_of;
use show_values::kinds::is_null;
use table::Field;
use text::Text;

fn put_word(word: &[u8], out: bool) -> usize
    requires { length word.now ≤ 16 }
{
    put(&Text::of(word), out)
}

// Whether a choice of a field, which counts by the row's weight, is any but 0: one of two for a bit, one of four for two bits.
fn is_set(cell: Cell<'_>, modulus: u64) -> bool
    requires { 0 < modulus }
{
    bits_of(number_of(cell), cell.row.weight, modulus) != 0
}

fn put_flag(set: bool, out: bool) -> usize {
    if set {
        return put_word(b"yes", out);
    }
    put_word(b"no", out)
}

fn put_name(f: Field, out: bool) -> usize {
    match f.bytes.get(..f.len) {
        Some(name) => put_bytes(name, Style::Characters, out),
        None => 0,
    }
}

// An empty text is present: for people too it must not look like one that is absent.
fn put_characters(cell: Cell<'_>, out: bool) -> usize {
    let x = object_of(cell);
    if is_present(cell) && x.is_empty() {
        return put_word(b"\"\"", out);
    }
    put_bytes(x, Style::Characters, out)
}

// What is long enough for an address is one.
fn put_reached(x: &[u8], out: bool) -> usize {
    if 16 <= x.len() {
        return put(&text_addresses::address(&x[0..16]), out);
    }
    put_bytes(x, Style::Characters, out)
}

fn put_service(x: &[u8], out: bool) -> usize {
    let end = before_final_zero(x);
    put_bytes(&x[0..end], Style::Characters, out)
}

fn put_object(cell: Cell<'_>, out: bool) -> usize {
    let x = object_of(cell);
    match cell.row.form {
        Form::Reached => put_reached(x, out),
        Form::Service => put_service(x, out),
        Form::Bytes => put_bytes(x, Style::Digits, out),
        Form::Hfis => put_numbers(Some(other_number(cell)), x, out),
        _ => put_numbers(None, x, out),
    }
}

// What is not there is no number, and not 0 either.
fn put_field(cell: Cell<'_>, out: bool) -> usize {
    let n = number_of(cell);
    if is_null(cell.row.form, n, is_there(cell)) {
        return put_word(b"none", out);
    }
    if cell.row.form == Form::OrOut && n == 0 {
        return put_word(b"none", out);
    }
    put(&text_in(cell), out)
}

pub fn put_cell(cell: Cell<'_>, out: bool) -> usize {
    if is_object_form(cell.row.form) {
        return put_object(cell, out);
    }
    match cell.row.form {
        Form::Position => put(&text::decimal(cell.position as u64), out),
        Form::Flag => put_flag(is_set(cell, 2), out),
        Form::Name => put_name(field_of(cell), out),
        Form::Text | Form::BytesText => put_characters(cell, out),
        _ => put_field(cell, out),
    }
}

fn is_object_or_text(form: Form) -> bool {
    matches!(form, Form::Text | Form::BytesText) || is_object_form(form)
}

// Nothing, 0, and the address of zeros.
fn is_silent(text: &Text) -> bool {
    matches!(text.as_bytes(), [] | [b'0'] | [b':', b':'])
}

// Whether a row says anything of a record: what is absent, zero or not set does not.
pub fn says_something(cell: Cell<'_>) -> bool {
    if is_object_or_text(cell.row.form) {
        return put_cell(cell, false) != 0;
    }
    match cell.row.form {
        Form::Flag => is_set(cell, 2),
        Form::Primary | Form::Availability | Form::Wanted | Form::Chosen => is_set(cell, 4),
        _ => !is_silent(&text_in(cell)),
    }
}
