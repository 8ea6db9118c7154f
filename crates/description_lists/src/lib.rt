// Numbers with a mark between them, one or two bytes each, read into bytes.
#![tactic(auto)]

pub mod addresses; // Internet addresses

ghost use Rattle.std.specs.Prelude.{◌≤◌, length, IfSome};

use description_values::numbers::number_of;

// The mark, the digits, how many of them a number has at most, and whether it fills two bytes, the high one first.
#[derive(Clone, Copy)]
pub struct Parts {
    pub mark: u8,
    pub hexadecimal: bool,
    pub digits: usize,
    pub pairs: bool,
}

// Positions of a list, as in `2,3`.
pub const LISTED: Parts = Parts {
    mark: b',',
    hexadecimal: false,
    digits: 3,
    pairs: false,
};

// An interface's address, as in `52:54:00:a1:b2:01`.
pub const INTERFACE: Parts = Parts {
    mark: b':',
    hexadecimal: true,
    digits: 2,
    pairs: false,
};

// An address of version 4, as in `192.168.101.30`.
pub const QUAD: Parts = Parts {
    mark: b'.',
    hexadecimal: false,
    digits: 3,
    pairs: false,
};

// Groups of an address of version 6, as in `fe80:1`.
pub const GROUPS: Parts = Parts {
    mark: b':',
    hexadecimal: true,
    digits: 4,
    pairs: true,
};

// Some bytes to the front of those lent, if there is room; how many they are.
fn put(bytes: &[u8], into: &mut [u8]) -> Option<usize>
    ensures { IfSome result (λ n. n ≤ length into.old) }
{
    into.get_mut(..bytes.len())?.copy_from_slice(bytes);
    Some(bytes.len())
}

// One number of them.
fn part_into(text: &[u8], how: Parts, into: &mut [u8]) -> Option<usize>
    ensures { IfSome result (λ n. n ≤ length into.old) }
{
    if how.digits < text.len() {
        return None;
    }
    let value = number_of(text, how.hexadecimal)?;
    if how.pairs {
        put(&u16::try_from(value).ok()?.to_be_bytes(), into)
    } else {
        put(&[u8::try_from(value).ok()?], into)
    }
}

// All of the text: one number or more, none of them empty.
pub fn parts_into(text: &[u8], how: Parts, into: &mut [u8]) -> Option<usize>
    ensures { IfSome result (λ n. n ≤ length into.old) }
{
    let mark = how.mark;
    let mut len = 0;
    for part in text.split(|b| *b == mark) {
        len += part_into(part, how, &mut into[len..])?;
    }
    Some(len)
}
