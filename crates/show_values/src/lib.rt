// What is printed of a field, as a text: by the way of printing, the weight of a bit, and the sixteen bytes of the field and of another one.
#![tactic(auto)]

pub mod choices; // words for numbers, and values that hang on another field
pub mod kinds; // how a value stands in JSON

ghost use Rattle.std.specs.Prelude.{◌≡◌, ◌<◌, length};
ghost use Rattle.show_values.specs.Values.{bits_of, field_text, number_of};

use bytes_wire::u32_at;
use choices::{
    availability_text, bits_of, chosen_text, is_two_text, nid_text, nid_type_text,
    not_indicated_text, number_if_text, primary_text, server_text, transport_text, wanted_text,
};
use show_table::forms::Form;
use text::Text;

pub fn number_of(x: &[u8]) -> u64
    requires { length x.now ≡ 16 }
    ensures { (result ≡ number_of x.now) × (result < 4294967296) }
{
    u32_at(x, 0) as u64
}

// The bits of a field from a weight on: one where `modulus` is 2, two where it is 4.
fn bits_in(x: &[u8], weight: u64, modulus: u64) -> u64
    requires { (length x.now ≡ 16) × (0 < modulus) }
    ensures { result ≡ bits_of weight modulus (number_of x.now) }
{
    bits_of(number_of(x), weight, modulus)
}

pub fn field_text(form: Form, weight: u64, x: &[u8], y: &[u8]) -> Text
    requires { (length x.now ≡ 16) × (length y.now ≡ 16) }
    ensures { result ≡ field_text form weight x.now y.now }
{
    match form {
        Form::Signed => text::signed_decimal(number_of(x)),
        Form::Flag => text::decimal(bits_in(x, weight, 2)),
        Form::IsTwo => is_two_text(weight, x),
        Form::Primary => primary_text(bits_in(x, weight, 4)),
        Form::Availability => availability_text(bits_in(x, weight, 4)),
        Form::Wanted => wanted_text(bits_in(x, weight, 4)),
        Form::Chosen => chosen_text(bits_in(x, weight, 4)),
        Form::Transport => transport_text(number_of(x)),
        Form::Uuid => text_hex::uuid(x),
        Form::Hex => text_hex::hexes(x),
        Form::Address => text_addresses::address(x),
        Form::Server => server_text(weight, x, y),
        Form::Mac => text_hex::mac(&x[0..6]),
        Form::ShortPci => text_hex::short_pci(number_of(x)),
        Form::Pci => text_hex::pci(number_of(x)),
        Form::NotIndicated => not_indicated_text(),
        Form::NidType => nid_type_text(number_of(x)),
        Form::Nid => nid_text(number_of(y), x),
        Form::NumberIf => number_if_text(weight, x, y),
        _ => text::decimal(number_of(x)),
    }
}
