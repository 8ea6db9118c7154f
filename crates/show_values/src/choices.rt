// Words for numbers, and values that hang on another field.
ghost use Rattle.std.specs.Prelude.{◌≡◌, ◌≤◌, ◌<◌, length, eqb};
ghost use Rattle.table.specs.Bytes.{pick};
ghost use Rattle.text.specs.Ascii.{ascii};
ghost use Rattle.show_values.specs.Values.{availability_of, bits_of, chosen_of, is_two_of, nid_of, nid_type_of, number_if_of, number_of, primary_of, server_of, transport_of, wanted_of};

use crate::number_of;
use text::Text;

// The bits of a number from a weight on.
pub fn bits_of(n: u64, weight: u64, modulus: u64) -> u64
    requires { 0 < modulus }
    ensures { result ≡ bits_of weight modulus n }
{
    if weight == 0 {
        return 0;
    }
    n / weight % modulus
}

// Two bits in words.
fn word_of(value: u64, zeroth: &[u8], first: &[u8], second: &[u8]) -> Text
    requires { (length zeroth.now ≤ 16) × (length first.now ≤ 16) × (length second.now ≤ 16) }
    ensures { result ≡ pick (eqb value 0) zeroth.now (pick (eqb value 1) first.now (pick (eqb value 2) second.now (ascii "reserved"))) }
{
    match value {
        0 => Text::of(zeroth),
        1 => Text::of(first),
        2 => Text::of(second),
        _ => Text::of(b"reserved"),
    }
}

pub fn not_indicated_text() -> Text
    ensures { result ≡ ascii "not indicated" }
{
    Text::of(b"not indicated")
}

pub fn primary_text(value: u64) -> Text
    ensures { result ≡ primary_of value }
{
    word_of(value, b"not indicated", b"unselected", b"selected")
}

pub fn availability_text(value: u64) -> Text
    ensures { result ≡ availability_of value }
{
    word_of(value, b"not indicated", b"available", b"unavailable")
}

pub fn wanted_text(value: u64) -> Text
    ensures { result ≡ wanted_of value }
{
    word_of(value, b"not supported", b"not required", b"required")
}

pub fn chosen_text(value: u64) -> Text
    ensures { result ≡ chosen_of value }
{
    word_of(value, b"nobody", b"driver", b"administrator")
}

pub fn transport_text(value: u64) -> Text
    ensures { result ≡ transport_of value }
{
    if value == 3 {
        return Text::of(b"tcp");
    }
    text::decimal(value)
}

pub fn nid_type_text(value: u64) -> Text
    ensures { result ≡ nid_type_of value }
{
    match value {
        1 => Text::of(b"eui64"),
        2 => Text::of(b"nguid"),
        3 => Text::of(b"uuid"),
        _ => text::decimal(value),
    }
}

// A namespace identifier as its type has it.
pub fn nid_text(kind: u64, x: &[u8]) -> Text
    requires { length x.now ≡ 16 }
    ensures { result ≡ nid_of kind x.now }
{
    match kind {
        1 => text_hex::hexes(&x[0..8]),
        2 => text_hex::hexes(x),
        3 => text_hex::uuid(x),
        _ => Text::new(),
    }
}

// An address that counts where a bit of another field is set.
pub fn server_text(weight: u64, x: &[u8], y: &[u8]) -> Text
    requires { (length x.now ≡ 16) × (length y.now ≡ 16) }
    ensures { result ≡ server_of weight x.now y.now }
{
    if bits_of(number_of(y), weight, 2) == 1 {
        return text_addresses::address(x);
    }
    Text::new()
}

// A number that counts where a bit of another field is set.
pub fn number_if_text(weight: u64, x: &[u8], y: &[u8]) -> Text
    requires { (length x.now ≡ 16) × (length y.now ≡ 16) }
    ensures { result ≡ number_if_of weight x.now y.now }
{
    if bits_of(number_of(y), weight, 2) == 1 {
        return text::decimal(number_of(x));
    }
    text::decimal(0)
}

// Whether two bits are 2.
pub fn is_two_text(weight: u64, x: &[u8]) -> Text
    requires { length x.now ≡ 16 }
    ensures { result ≡ is_two_of weight x.now }
{
    if bits_of(number_of(x), weight, 4) == 2 {
        return text::decimal(1);
    }
    text::decimal(0)
}
