// Internet addresses of 16 bytes: a dotted quad, which is mapped, or groups with at most one run of zeros left out.
ghost use Rattle.std.specs.Prelude.{◌+◌, ◌≤◌, length, IfSome};

use crate::{GROUPS, QUAD, parts_into};

// A dotted quad, behind ten zeros and two bytes 255.
fn quad_of(text: &[u8]) -> Option<[u8; 16]> {
    let mut four = [0; 4];
    if parts_into(text, QUAD, &mut four)? != 4 {
        return None;
    }
    let [a, b, c, d] = four;
    Some([0, 0, 0, 0, 0, 0, 0, 0, 0, 0, 255, 255, a, b, c, d])
}

// Where groups are left out: at two colons.
fn gap_in(text: &[u8]) -> Option<usize>
    ensures { IfSome result (λ gap. gap + 2 ≤ length text.now) }
{
    text.windows(2).position(|pair| pair == b"::".as_slice())
}

// Beside a gap there may be none.
fn groups_into(text: &[u8], into: &mut [u8]) -> Option<usize>
    ensures { IfSome result (λ n. n ≤ length into.old) }
{
    if text.is_empty() {
        return Some(0);
    }
    parts_into(text, GROUPS, into)
}

// All eight groups.
fn whole_of(text: &[u8]) -> Option<[u8; 16]> {
    let mut bytes = [0; 16];
    if parts_into(text, GROUPS, &mut bytes)? != 16 {
        return None;
    }
    Some(bytes)
}

// Groups before the gap and behind it; two colons stand for at least one group.
fn gapped_of(before: &[u8], behind: &[u8]) -> Option<[u8; 16]> {
    let mut bytes = [0; 16];
    let mut last = [0; 14];
    let first_len = groups_into(before, &mut bytes[..14])?;
    let last_len = groups_into(behind, &mut last[..14 - first_len])?;
    bytes[16 - last_len..].copy_from_slice(&last[..last_len]);
    Some(bytes)
}

// A dot tells a quad from groups.
fn address_of(text: &[u8]) -> Option<[u8; 16]> {
    if text.contains(&b'.') {
        return quad_of(text);
    }
    match gap_in(text) {
        Some(gap) => gapped_of(&text[..gap], &text[gap + 2..]),
        None => whole_of(text),
    }
}

// An address takes the first 16 of the lent bytes.
pub fn address_into(text: &[u8], into: &mut [u8]) -> Option<usize>
    ensures { IfSome result (λ n. n ≤ length into.old) }
{
    let bytes = address_of(text)?;
    into.get_mut(..16)?.copy_from_slice(&bytes);
    Some(16)
}
