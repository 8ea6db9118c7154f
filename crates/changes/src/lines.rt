// The lines of a comparison, each made whole: columns with a space between them, and a line end.
ghost use Rattle.std.specs.Prelude.{◌≡◌, [], ◌∷◌, ◌++◌, ◌+◌, ◌≤◌, ◌<◌, length};
ghost use Rattle.table.specs.Bytes.{val};
ghost use Rattle.text.specs.Ascii.{ascii};
ghost use Rattle.text.specs.Numerals.{numeral};
ghost use Rattle.changes.specs.Changes.{differ_at, fields, objects, only_on, spaced, text_of, used_on, value_of};

use bytes_wire::wide;
use text::Text;
use text::decimals::put_number;
use text_hex::put_hexes;

// Where two rows of bytes first differ; the shorter length where one begins the other.
pub fn differ_at(one: &[u8], other: &[u8]) -> usize
    ensures { (result ≡ differ_at one.now other.now) × (result ≤ length one.now) }
{
    for at in 0..one.len() {
        if at == other.len() {
            return other.len();
        }
        if one[at] != other[at] {
            return at;
        }
    }
    one.len()
}

// A number and one byte behind it. The bound says what `put_number` does not: no number of a line has more than five digits.
fn put_column(text: &mut Text, n: usize, behind: u8)
    requires { (n < 65536) × (length text.old + 21 ≤ 128) }
    ensures { (length text.new ≤ length text.old + 6) × (text.new ≡ text.old ++ (numeral n ++ (behind ∷ []))) }
{
    put_number(text, n as u64);
    text.push(behind);
}

// The kind and the position, with which every line begins.
fn place_columns(kind: u8, position: usize) -> Text
    requires { position < 65536 }
    ensures { (length result ≤ 12) × (result ≡ spaced (numeral kind) (numeral position ++ ascii " ")) }
{
    let mut text = Text::new();
    put_column(&mut text, usize::from(kind), b' ');
    put_column(&mut text, position, b' ');
    text
}

// The number that a short field spells. The bytes are read from the last, the highest, down to the first.
fn number_of(x: &[u8]) -> usize
    requires { length x.now ≤ 4 }
    ensures { result ≡ val x.now }
{
    let len = x.len();
    let mut number: usize = 0;
    for i in (0..len).rev() {
        number = wide(x[i]) + 256 * number;
    }
    number
}

// A field's value: a number where it has at most four bytes.
fn put_value(text: &mut Text, x: &[u8])
    requires { (length text.old + 32 ≤ 128) × (length x.now ≤ 16) }
    ensures { (length text.new ≤ length text.old + 32) × (text.new ≡ text.old ++ value_of x.now) }
{
    if x.len() <= 4 {
        put_number(text, number_of(x) as u64);
    } else {
        put_hexes(text, x);
    }
}

// A field's line, by the field's bytes on either side.
pub fn field_line(kind: u8, position: usize, offset: usize, one: &[u8], other: &[u8]) -> Text
    requires { (position < 65536) × (offset < 256) × (length one.now ≤ 16) × (length other.now ≤ 16) }
    ensures { result ≡ text_of (fields kind position offset one.now other.now) }
{
    let mut text = place_columns(kind, position);
    put_column(&mut text, offset, b' ');
    put_value(&mut text, one);
    text.push(b' ');
    put_value(&mut text, other);
    text.push(b'\n');
    text
}

// An object's line, by both lengths and where the objects first differ.
pub fn object_line(
    kind: u8,
    position: usize,
    offset: usize,
    one: usize,
    other: usize,
    at: usize,
) -> Text
    requires { (position < 65536) × (offset < 256) × (one < 65536) × (other < 65536) × (at < 65536) }
    ensures { result ≡ text_of (objects kind position offset one other at) }
{
    let mut text = place_columns(kind, position);
    put_column(&mut text, offset, b' ');
    put_column(&mut text, one, b' ');
    put_column(&mut text, other, b' ');
    put_column(&mut text, at, b'\n');
    text
}

// The line of a difference that is told by a word and the side it stands on.
fn side_line(kind: u8, position: usize, word: &[u8], side: u8) -> Text
    requires { (position < 65536) × (length word.now ≤ 4) }
    ensures { result ≡ spaced (numeral kind) (spaced (numeral position) (spaced word.now (numeral side ++ ascii "\n"))) }
{
    let mut text = place_columns(kind, position);
    text.append(word);
    text.push(b' ');
    put_column(&mut text, usize::from(side), b'\n');
    text
}

// A position or a heap record that one side alone has, and a position that one side alone uses.
pub fn only_line(kind: u8, position: usize, side: u8) -> Text
    requires { position < 65536 }
    ensures { result ≡ text_of (only_on kind position side) }
{
    side_line(kind, position, b"only", side)
}

pub fn used_line(kind: u8, position: usize, side: u8) -> Text
    requires { position < 65536 }
    ensures { result ≡ text_of (used_on kind position side) }
{
    side_line(kind, position, b"used", side)
}
