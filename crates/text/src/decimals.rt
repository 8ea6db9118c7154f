// Numbers in decimal, and the line of an answer's three numbers.
ghost use Rattle.std.specs.Prelude.{◌≡◌, ◌++◌, ◌+◌, ◌≤◌, length};
ghost use Rattle.text.specs.Numerals.{digits_of, numeral, numbers_line, signed_numeral};

use crate::Text;

// The digits before a number's last one; `most` bounds them, so that the calls end.
fn put_digits(text: &mut Text, n: u64, most: usize)
    requires { length text.old + most ≤ 128 }
    ensures { (length text.new ≤ length text.old + most) × (text.new ≡ text.old ++ digits_of most n) }
{
    if most == 0 || n == 0 {
        return;
    }
    put_digits(text, n / 10, most - 1);
    let digit = 48 + n % 10;
    text.push(digit as u8);
}

pub fn put_number(text: &mut Text, n: u64)
    requires { length text.old + 20 ≤ 128 }
    ensures { (length text.new ≤ length text.old + 20) × (text.new ≡ text.old ++ numeral n) }
{
    put_digits(text, n / 10, 19);
    text.push((48 + n % 10) as u8);
}

pub fn decimal(n: u64) -> Text
    ensures { (length result ≤ 20) × (result ≡ numeral n) }
{
    let mut text = Text::new();
    put_number(&mut text, n);
    text
}

// Four bytes that may be a signed number, as that number. What does not fit into four bytes has no sign.
pub fn signed_decimal(n: u64) -> Text
    ensures { result ≡ signed_numeral n }
{
    if n < 2147483648 || 4294967296 <= n {
        return decimal(n);
    }
    let mut text = Text::new();
    text.push(b'-');
    put_number(&mut text, 4294967296 - n);
    text
}

pub fn numbers_line(a: u64, b: u64, c: u64) -> Text
    ensures { result ≡ numbers_line a b c }
{
    let mut text = Text::new();
    put_number(&mut text, a);
    text.push(b' ');
    put_number(&mut text, b);
    text.push(b' ');
    put_number(&mut text, c);
    text.push(b'\n');
    text
}
