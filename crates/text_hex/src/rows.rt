// Rows of bytes in hexadecimal, in the order of the table.
ghost use Rattle.std.specs.Prelude.{◌≡◌, ◌++◌, ◌+◌, ◌*◌, ◌≤◌, length};
ghost use Rattle.text.specs.Ascii.{ascii};
ghost use Rattle.text_hex.specs.Hexadecimal.{hexes_of, uuid_of};

use crate::put_hex_byte;
use text::Text;

pub fn put_hexes(text: &mut Text, x: &[u8])
    requires { length text.old + 2 * length x.now ≤ 128 }
    ensures { (length text.new ≡ length text.old + 2 * length x.now) × (text.new ≡ text.old ++ hexes_of x.now) }
{
    for &b in x {
        put_hex_byte(text, b);
    }
}

pub fn hexes(x: &[u8]) -> Text
    requires { length x.now ≤ 16 }
    ensures { result ≡ hexes_of x.now }
{
    let mut text = Text::new();
    put_hexes(&mut text, x);
    text
}

// Bytes behind a dash.
fn put_dashed(text: &mut Text, x: &[u8])
    requires { length text.old + (2 * length x.now + 1) ≤ 128 }
    ensures { (length text.new ≡ length text.old + (2 * length x.now + 1)) × (text.new ≡ text.old ++ (ascii "-" ++ hexes_of x.now)) }
{
    text.push(b'-');
    put_hexes(text, x);
}

pub fn uuid(b: &[u8]) -> Text
    requires { length b.now ≡ 16 }
    ensures { result ≡ uuid_of b.now }
{
    let mut text = Text::new();
    put_hexes(&mut text, &b[0..4]);
    put_dashed(&mut text, &b[4..6]);
    put_dashed(&mut text, &b[6..8]);
    put_dashed(&mut text, &b[8..10]);
    put_dashed(&mut text, &b[10..16]);
    text
}
