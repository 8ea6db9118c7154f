// Bytes of unknown meaning, made printable: in a line, and in a JSON string.
ghost use Rattle.std.specs.Prelude.{◌≡◌, cond, ◌++◌, ◌+◌, ◌≤◌, length};
ghost use Rattle.text.specs.Ascii.{ascii};
ghost use Rattle.text_hex.specs.Hexadecimal.{hex_of, row_of};
ghost use Rattle.text_hex.specs.Escapes.{printable, escaped_of, json_of, escapes_of, jsons_of};

use crate::put_hex_byte;
use text::Text;

fn is_printable(b: u8) -> bool
    ensures { result ≡ printable b }
{
    0x20 <= b && b <= 0x7e
}

// A byte by its number.
fn put_code(text: &mut Text, b: u8)
    requires { length text.old + 4 ≤ 128 }
    ensures { (length text.new ≤ length text.old + 4) × (text.new ≡ text.old ++ (ascii "\\x" ++ hex_of 2 b)) }
{
    text.append(b"\\x");
    put_hex_byte(text, b);
}

fn put_escaped(text: &mut Text, b: u8)
    requires { length text.old + 4 ≤ 128 }
    ensures { (length text.new ≤ length text.old + 4) × (text.new ≡ text.old ++ escaped_of b) }
{
    if is_printable(b) && b != b'\\' {
        text.push(b);
    } else {
        put_code(text, b);
    }
}

fn put_json_escaped(text: &mut Text, b: u8)
    requires { length text.old + 6 ≤ 128 }
    ensures { (length text.new ≤ length text.old + 6) × (text.new ≡ text.old ++ json_of b) }
{
    if !is_printable(b) {
        text.append(b"\\u00");
        put_hex_byte(text, b);
    } else if b == b'"' {
        text.append(b"\\\"");
    } else if b == b'\\' {
        text.append(b"\\\\");
    } else {
        text.push(b);
    }
}

pub fn escaped(b: u8) -> Text
    ensures { result ≡ escaped_of b }
{
    let mut text = Text::new();
    put_escaped(&mut text, b);
    text
}

pub fn json_escaped(b: u8) -> Text
    ensures { result ≡ json_of b }
{
    let mut text = Text::new();
    put_json_escaped(&mut text, b);
    text
}

// A row of bytes, each as it stands in a line or in a JSON string.
fn row(x: &[u8], json: bool) -> Text
    requires { length x.now ≤ 16 }
    ensures { result ≡ row_of (λ b. cond json (json_of b) (escaped_of b)) x.now }
{
    let mut text = Text::new();
    for &b in x {
        if json {
            put_json_escaped(&mut text, b);
        } else {
            put_escaped(&mut text, b);
        }
    }
    text
}

pub fn escapes(x: &[u8]) -> Text
    requires { length x.now ≤ 16 }
    ensures { result ≡ escapes_of x.now }
{
    row(x, false)
}

pub fn json_escapes(x: &[u8]) -> Text
    requires { length x.now ≤ 16 }
    ensures { result ≡ jsons_of x.now }
{
    row(x, true)
}
