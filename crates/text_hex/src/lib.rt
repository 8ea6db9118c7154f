// Bytes in hexadecimal, the address of a network interface, and a function of a device.
#![tactic(auto)]

pub mod escaping; // bytes of unknown meaning
pub mod rows; // rows of bytes, and UUIDs

ghost use Rattle.std.specs.Prelude.{◌≡◌, ◌++◌, ◌+◌, ◌<◌, ◌≤◌, length};
ghost use Rattle.text.specs.Ascii.{ascii};
ghost use Rattle.text_hex.specs.Hexadecimal.{hex_digit, hex_of, unpadded_of, mac_of, pci_of, short_pci_of};

pub use escaping::{escaped, escapes, json_escaped, json_escapes};
pub use rows::{hexes, put_hexes, uuid};
use text::Text;

fn hex_digit(d: u64) -> u8
    requires { d < 16 }
    ensures { result ≡ hex_digit d }
{
    if d < 10 {
        return (48 + d) as u8;
    }
    (87 + d) as u8
}

// The last k digits of a number, with zeros in front.
pub fn put_hex(text: &mut Text, k: usize, n: u64)
    requires { length text.old + k ≤ 128 }
    ensures { (length text.new ≡ length text.old + k) × (text.new ≡ text.old ++ hex_of k n) }
{
    if k == 0 {
        return;
    }
    put_hex(text, k - 1, n / 16);
    text.push(hex_digit(n % 16));
}

pub fn put_hex_byte(text: &mut Text, b: u8)
    requires { length text.old + 2 ≤ 128 }
    ensures { (length text.new ≡ length text.old + 2) × (text.new ≡ text.old ++ hex_of 2 b) }
{
    put_hex(text, 2, u64::from(b));
}

// A number below 65536 without zeros in front.
pub fn put_unpadded(text: &mut Text, n: u64)
    requires { (length text.old + 4 ≤ 128) × (n < 65536) }
    ensures { (length text.new ≤ length text.old + 4) × (text.new ≡ text.old ++ unpadded_of n) }
{
    if n < 16 {
        put_hex(text, 1, n);
    } else if n < 256 {
        put_hex(text, 2, n);
    } else if n < 4096 {
        put_hex(text, 3, n);
    } else {
        put_hex(text, 4, n);
    }
}

// A byte of an address, behind a colon.
fn put_next(text: &mut Text, b: u8)
    requires { length text.old + 3 ≤ 128 }
    ensures { (length text.new ≡ length text.old + 3) × (text.new ≡ text.old ++ (ascii ":" ++ hex_of 2 b)) }
{
    text.push(b':');
    put_hex_byte(text, b);
}

pub fn mac(b: &[u8]) -> Text
    requires { length b.now ≡ 6 }
    ensures { result ≡ mac_of b.now }
{
    let mut text = Text::new();
    put_hex_byte(&mut text, b[0]);
    put_next(&mut text, b[1]);
    put_next(&mut text, b[2]);
    put_next(&mut text, b[3]);
    put_next(&mut text, b[4]);
    put_next(&mut text, b[5]);
    text
}

pub fn pci(id: u64) -> Text
    ensures { result ≡ pci_of id }
{
    let mut text = Text::new();
    put_hex(&mut text, 4, id / 65536 % 65536);
    text.push(b':');
    put_hex(&mut text, 2, id / 256 % 256);
    text.push(b':');
    put_hex(&mut text, 2, id / 8 % 32);
    text.push(b'.');
    put_hex(&mut text, 1, id % 8);
    text
}

// As nvme-cli prints it: no zeros in front, and 0 for every segment, since it hands the routing ID on in 16 bits.
pub fn short_pci(id: u64) -> Text
    ensures { result ≡ short_pci_of id }
{
    let mut text = Text::new();
    text.append(b"0:");
    put_unpadded(&mut text, id / 256 % 256);
    text.push(b':');
    put_unpadded(&mut text, id / 8 % 32);
    text.push(b'.');
    put_unpadded(&mut text, id % 8);
    text
}
