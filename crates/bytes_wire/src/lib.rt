// Little-endian numbers and references in a table, and the sum of a table's bytes.
#![tactic(auto)]

ghost use Rattle.std.specs.Prelude.{◌≡◌, ◌+◌, ◌%◌, ◌<◌, ◌≤◌, length};
ghost use Rattle.table.specs.Bytes.{num, total};
ghost use Rattle.table.specs.Layout.{reference_at};

use table::Region;

// A byte as a number that offsets can be computed with. As a call it asks for no proof that the byte fits.
pub fn wide(x: u8) -> usize
    ensures { (result ≡ x) × (result < 256) }
{
    usize::from(x)
}

// The bounds let a caller add offset and length without a wrap.
pub fn u16_at(t: &[u8], at: usize) -> usize
    requires { at + 2 ≤ length t.now }
    ensures { (result ≡ num t.now at 2) × (result < 65536) }
{
    wide(t[at]) + 256 * wide(t[at + 1])
}

pub fn u32_at(t: &[u8], at: usize) -> usize
    requires { at + 4 ≤ length t.now }
    ensures { (result ≡ num t.now at 4) × (result < 4294967296) }
{
    u16_at(t, at) + 65536 * u16_at(t, at + 2)
}

// The reference that stands at `at`: where what it names starts, and how long that is. No other function reads one.
pub fn reference_at(t: &[u8], at: usize) -> Region
    requires { at + 6 ≤ length t.now }
    ensures { (result ≡ reference_at t.now at) × (result.at < 4294967296) × (result.len < 65536) }
{
    Region {
        at: u32_at(t, at),
        len: u16_at(t, at + 4),
    }
}

// The sum of the bytes modulo 256, one byte after the other.
fn sum_of(bytes: &[u8]) -> u8
    ensures { result ≡ total bytes.now % 256 }
{
    let mut sum: u8 = 0;
    for byte in bytes {
        sum = sum.wrapping_add(*byte);
    }
    sum
}

// Fewer bytes than a table has that names an interface and a namespace. One sum of them takes less time than four where the compiled loop has vectors.
const SHORT: usize = 256;

// The sum of all bytes modulo 256, which a u8 that wraps keeps by itself. The quarters are summed side by side, so that
// an addition waits for none but the one four before it; behind them stand three bytes at most.
pub fn sum8(t: &[u8]) -> u8
    ensures { result ≡ total t.now % 256 }
{
    if t.len() < SHORT {
        return sum_of(t);
    }
    let quarter = t.len() / 4;
    let mut first: u8 = 0;
    let mut second: u8 = 0;
    let mut third: u8 = 0;
    let mut fourth: u8 = 0;
    // By an index, since each turn reads a byte of all four.
    for i in 0..quarter {
        first = first.wrapping_add(t[i]);
        second = second.wrapping_add(t[quarter + i]);
        third = third.wrapping_add(t[2 * quarter + i]);
        fourth = fourth.wrapping_add(t[3 * quarter + i]);
    }
    let front = first.wrapping_add(second);
    let back = third.wrapping_add(fourth);
    let rest = sum_of(&t[4 * quarter..]);
    front.wrapping_add(back).wrapping_add(rest)
}
