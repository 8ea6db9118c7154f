// What the numbers of an answer mean, in words, and the line that says so.
#![tactic(auto)]

ghost use Rattle.std.specs.Prelude.{◌≡◌, ◌++◌, ◌+◌, ◌≤◌, length};
ghost use Rattle.table.specs.Meaning.{limit};
ghost use Rattle.text.specs.Ascii.{ascii};
ghost use Rattle.text.specs.Numerals.{numeral};
ghost use Rattle.text_answers.specs.Words.{meaning_of, kind_of, place_of, fault_line};

use table::{Control, Discovery, Header, Hfi, Host, Security, Ssns};
use text::Text;
use text::decimals::put_number;

// A text that says how long a table may be.
fn put_limit(text: &mut Text, before: &[u8], behind: &[u8])
    requires { length text.old + length before.now + 20 + length behind.now ≤ 128 }
    ensures { (length text.new ≤ length text.old + length before.now + 20 + length behind.now) × (text.new ≡ text.old ++ (before.now ++ (numeral limit ++ behind.now))) }
{
    text.append(before);
    put_number(text, table::LIMIT as u64);
    text.append(behind);
}

fn put_meaning(text: &mut Text, number: u8)
    requires { length text.old + 69 ≤ 128 }
    ensures { (length text.new ≤ length text.old + 69) × (text.new ≡ text.old ++ ascii (meaning_of number)) }
{
    match number {
        0 => text.append(b"good"),
        1 => text.append(b"too few bytes"),
        2 => text.append(b"the signature is wrong"),
        3 => text.append(b"Length is outside what is lent"),
        4 => put_limit(text, b"Length is above ", b""),
        5 => text.append(b"the checksum is wrong"),
        6 => text.append(b"the header's major revision is wrong"),
        7 => text.append(b"the control record is wrong"),
        8 => text.append(b"a record length or a region is wrong"),
        9 => text.append(b"a version is wrong"),
        10 => text.append(b"a host that is not valid, or a wrong ID, index, type or two-bit field"),
        11 => text.append(b"a reference is wrong, outside the heap, or required and absent"),
        12 => text.append(b"a heap record breaks its rule"),
        13 => text.append(b"an index names no valid record"),
        14 => text.append(b"the output is too short"),
        15 => text.append(b"a builder call out of turn or an impossible state"),
        16 => text.append(b"no such kind, position or field"),
        17 => put_limit(text, b"the output would pass ", b" bytes"),
        18 => text.append(b"a text does not end in its only zero byte"),
        19 => text.append(b"a heap record shares a byte with another object"),
        20 => text.append(b"a secondary list is too long or names an HFI twice"),
        _ => text.append(b"a fault with no name"),
    }
}

fn put_kind(text: &mut Text, kind: u8)
    requires { length text.old + 21 ≤ 128 }
    ensures { (length text.new ≤ length text.old + 21) × (text.new ≡ text.old ++ ascii (kind_of kind)) }
{
    match kind {
        Header::ID => text.append(b"header"),
        Control::ID => text.append(b"control"),
        Host::ID => text.append(b"host"),
        Hfi::ID => text.append(b"HFI"),
        Ssns::ID => text.append(b"SSNS"),
        Security::ID => text.append(b"security"),
        Discovery::ID => text.append(b"discovery"),
        _ => text.append(b"a record with no name"),
    }
}

// Where a fault is.
fn put_place(text: &mut Text, kind: u8, position: u64)
    requires { length text.old + 44 ≤ 128 }
    ensures { (length text.new ≤ length text.old + 44) × (text.new ≡ text.old ++ place_of kind position) }
{
    text.append(b": ");
    put_kind(text, kind);
    if position != 0 {
        text.push(b' ');
        put_number(text, position);
    }
}

pub fn fault_line(number: u8, kind: u8, position: u64) -> Text
    ensures { result ≡ fault_line number kind position }
{
    let mut text = Text::new();
    put_meaning(&mut text, number);
    if number != 0 {
        put_place(&mut text, kind, position);
    }
    text.push(b'\n');
    text
}
