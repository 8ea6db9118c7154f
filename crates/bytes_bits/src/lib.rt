// A map of bits in lent bytes: bit n is bit n mod 8, the lowest first, of byte n / 8.
#![tactic(auto)]

ghost use Rattle.std.specs.Prelude.{◌≡◌, ◌+◌, ◌*◌, ◌/◌, ◌^◌, ◌≤◌, ◌<◌, length};
ghost use Rattle.std.specs.Int.Count.{ones};
ghost use Rattle.bytes_bits.specs.Bits.{bit_at, bits_below, with_bit, with_bits};

const POWERS: [u8; 8] = [1, 2, 4, 8, 16, 32, 64, 128];

// The number that has just bit k of a byte.
fn power(k: usize) -> u8
    requires { k < 8 }
    ensures { (result ≡ 2 ^ k) × (0 < result) }
{
    POWERS[k]
}

// 1 where bit n is set, else 0.
pub fn bit(map: &[u8], n: usize) -> u8
    requires { n / 8 < length map.now }
    ensures { result ≡ bit_at map.now n }
{
    map[n / 8] / power(n % 8) % 2
}

// Sets bit n.
pub fn mark(map: &mut [u8], n: usize)
    requires { n / 8 < length map.old }
    ensures { map.new ≡ with_bit map.old n }
{
    let p = power(n % 8);
    let b = map[n / 8];
    if b / p % 2 == 0 {
        map[n / 8] = b + p;
    }
}

// Sets the n bits from a on, one at a time.
fn mark_each(map: &mut [u8], a: usize, n: usize)
    requires { (a + n ≤ 8 * length map.old) × (a + n ≤ 4294967295) }
    ensures { map.new ≡ with_bits map.old a n }
{
    for i in 0..n {
        mark(map, a + i);
    }
}

// Sets all bits of count bytes. Compiles to one fill of memory.
fn mark_bytes(map: &mut [u8], first: usize, count: usize)
    requires { first + count ≤ length map.old }
    ensures { map.new ≡ with_bits map.old (8 * first) (8 * count) }
{
    map[first..first + count].fill(255);
}

// Sets the n bits from a on: those before the first whole byte, the whole bytes, and those behind the last.
// The bound on their places keeps them from wrapping.
pub fn mark_all(map: &mut [u8], a: usize, n: usize)
    requires { (a + n ≤ 8 * length map.old) × (a + n ≤ 4294967295) }
    ensures { map.new ≡ with_bits map.old a n }
{
    // Fewer than eight bits may hold no whole byte, and may end before the next one starts.
    if n < 8 {
        mark_each(map, a, n);
        return;
    }
    let before = (8 - a % 8) % 8;
    let bytes = (n - before) / 8;
    let behind = (n - before) % 8;
    mark_each(map, a, before);
    mark_bytes(map, (a + before) / 8, bytes);
    mark_each(map, a + before + 8 * bytes, behind);
}

// How many bits of a byte are set. Half as wide as a place, so that twice as many fit a vector.
fn ones_in(x: u8) -> u32
    ensures { (result ≡ ones x) × (result ≤ 8) }
{
    u32::from(x).count_ones()
}

// How many of the first n bits are set. The bound on n keeps the sum from wrapping.
pub fn ones_below(map: &[u8], n: usize) -> usize
    requires { (n ≤ 8 * length map.now) × (n ≤ 4294967295) }
    ensures { result ≡ bits_below map.now n }
{
    let k = n / 8;
    let mut sum: u32 = 0;
    for byte in &map[..k] {
        sum += ones_in(*byte);
    }
    let whole = sum as usize;
    if n % 8 == 0 {
        return whole;
    }
    whole + ones_in(map[k] % power(n % 8)) as usize
}
