// Characters as they are, other bytes as `\xHH`, and bytes by their digits alone.
ghost use Rattle.std.specs.Prelude.{◌<◌, ◌≤◌, length, IfSome};

use crate::numbers::number_of;

// Two digits: the byte that they write, and the text behind them.
fn two_digits(text: &[u8]) -> Option<(u8, &[u8])>
    ensures { IfSome result (λ w. length w.1.now < length text.now) }
{
    let (pair, behind) = text.split_at_checked(2)?;
    let value = number_of(pair, true)?;
    Some((u8::try_from(value).ok()?, behind))
}

// A character, or a byte behind `\x`; and the text behind it.
fn character(text: &[u8]) -> Option<(u8, &[u8])>
    ensures { IfSome result (λ w. length w.1.now < length text.now) }
{
    match text {
        [b'\\', b'x', digits @ ..] => two_digits(digits),
        [b'\\', ..] => None,
        [b, behind @ ..] => Some((*b, behind)),
        [] => None,
    }
}

// One byte in either way of writing, and the text behind it. A switch: a closure for the step would need what is ensured here at both of its calls.
fn next_byte(text: &[u8], digits: bool) -> Option<(u8, &[u8])>
    ensures { IfSome result (λ w. length w.1.now < length text.now) }
{
    if digits {
        two_digits(text)
    } else {
        character(text)
    }
}

// All of the text, as characters or as digits.
pub fn string_into(text: &[u8], digits: bool, into: &mut [u8]) -> Option<usize>
    ensures { IfSome result (λ n. n ≤ length into.old) }
{
    let mut len = 0;
    let mut rest = text;
    while !rest.is_empty() {
        let (b, behind) = next_byte(rest, digits)?;
        *into.get_mut(len)? = b;
        len += 1;
        rest = behind;
    }
    Some(len)
}
