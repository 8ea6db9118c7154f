// Numbers of at most 32 bits, in decimal or, behind `0x`, in hexadecimal.
ghost use Rattle.std.specs.Prelude.{◌≤◌, length, IfSome};

// The greatest number that a field has room for.
const GREATEST: u64 = 4294967295;

// How many digits there are to count with.
fn radix(hexadecimal: bool) -> u32
    ensures { (2 ≤ result) × (result ≤ 16) }
{
    if hexadecimal { 16 } else { 10 }
}

// All of the text is digits, and there is one.
pub fn number_of(text: &[u8], hexadecimal: bool) -> Option<u64>
    ensures { IfSome result (λ n. n ≤ 4294967295) }
{
    if text.is_empty() {
        return None;
    }
    let radix = radix(hexadecimal);
    let mut value = 0;
    for b in text {
        let digit = char::from(*b).to_digit(radix)?;
        value = value * u64::from(radix) + u64::from(digit);
        if GREATEST < value {
            return None;
        }
    }
    Some(value)
}

// Hexadecimal behind `0x`, else decimal.
fn prefixed(text: &[u8]) -> Option<u64>
    ensures { IfSome result (λ n. n ≤ 4294967295) }
{
    match text.strip_prefix(b"0x") {
        Some(digits) => number_of(digits, true),
        None => number_of(text, false),
    }
}

// A number into all of the lent bytes, the lowest first; whether they hold it.
pub fn spread(value: u64, into: &mut [u8]) -> bool {
    let mut rest = value;
    for b in into.iter_mut() {
        *b = (rest % 256) as u8;
        rest /= 256;
    }
    rest == 0
}

// A number taken into all of the lent bytes; refused where they do not hold it.
fn number_taken(value: u64, into: &mut [u8]) -> Option<usize>
    ensures { IfSome result (λ n. n ≤ length into.old) }
{
    spread(value, into).then_some(into.len())
}

// A number fills all of its field.
pub fn number_into(text: &[u8], into: &mut [u8]) -> Option<usize>
    ensures { IfSome result (λ n. n ≤ length into.old) }
{
    let value = prefixed(text)?;
    number_taken(value, into)
}

// A function of a device, as in `0000:1c:00.0`: segment, bus, device and function. A device has five bits and a function three.
pub fn function_into(text: &[u8], into: &mut [u8]) -> Option<usize>
    ensures { IfSome result (λ n. n ≤ length into.old) }
{
    if text.len() != 12 || text[4] != b':' || text[7] != b':' || text[10] != b'.' {
        return None;
    }
    let segment = number_of(&text[..4], true)?;
    let bus = number_of(&text[5..7], true)?;
    let device = number_of(&text[8..10], true)?;
    let function = number_of(&text[11..], true)?;
    if 31 < device || 7 < function {
        return None;
    }
    number_taken(segment * 65536 + bus * 256 + device * 8 + function, into)
}
