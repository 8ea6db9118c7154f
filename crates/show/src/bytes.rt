// Bytes of any number, printed sixteen at a time. What is printed has its width returned, and where nothing is to be printed, the width alone.
ghost use Rattle.std.specs.Prelude.{◌≡◌, ◌+◌, ◌≤◌, ◌<◌, length};
ghost use Rattle.show.specs.Numbered.{style_of};

use text::Text;
use tool::print;

// How bytes are printed: two digits a byte; as characters; as the characters of a JSON string.
#[derive(Clone, Copy)]
pub enum Style {
    Digits,
    Characters,
    Quoted,
}

// The style of a number; what is none of theirs is the style of a JSON string.
impl From<u8> for Style {
    ghost from_gives = { λ number style. style ≡ style_of number };

    fn from(number: u8) -> Style
        ensures { result ≡ style_of number }
    {
        match number {
            0 => Style::Digits,
            1 => Style::Characters,
            _ => Style::Quoted,
        }
    }
}

// No column is wider than a thousand; the sum stays far from its end.
const WIDEST: usize = 1000;

pub fn wider(width: usize, more: usize) -> usize {
    if WIDEST <= width {
        return width;
    }
    if WIDEST <= more {
        return WIDEST;
    }
    width + more
}

pub fn put(text: &Text, out: bool) -> usize {
    if out {
        print(text);
    }
    text.len()
}

fn piece(x: &[u8], style: Style) -> Text
    requires { length x.now ≤ 16 }
{
    match style {
        Style::Digits => text_hex::hexes(x),
        Style::Characters => text_hex::escapes(x),
        Style::Quoted => text_hex::json_escapes(x),
    }
}

pub fn put_bytes(x: &[u8], style: Style, out: bool) -> usize {
    let mut width = 0;
    for part in x.chunks(16) {
        width = wider(width, put(&piece(part, style), out));
    }
    width
}

// Of a JSON string, with its quotation marks.
pub fn print_quoted(x: &[u8]) {
    tool::print_bytes(b"\"");
    put_bytes(x, Style::Quoted, true);
    tool::print_bytes(b"\"");
}

// Where the first zero stands, or the end.
pub fn first_zero(x: &[u8]) -> usize
    ensures { result ≤ length x.now }
{
    x.iter().position(|b| *b == 0).unwrap_or(x.len())
}

// The end, or before a zero that stands last.
pub fn before_final_zero(x: &[u8]) -> usize
    ensures { result ≤ length x.now }
{
    match x {
        [front @ .., 0] => front.len(),
        _ => x.len(),
    }
}

fn print_repeated(mark: &[u8], from: usize, to: usize) {
    for _ in from..to {
        tool::print_bytes(mark);
    }
}

pub fn pad(len: usize, width: usize) {
    print_repeated(b" ", len, width);
}

pub fn print_rule(width: usize) {
    print_repeated(b"-", 0, width);
}

// A new line, and two blanks for each level.
pub fn print_line_start(depth: usize) {
    tool::print_bytes(b"\n");
    print_repeated(b"  ", 0, depth);
}
