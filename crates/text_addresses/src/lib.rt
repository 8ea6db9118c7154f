// Internet addresses of 16 bytes: a dotted quad where IPv4 is mapped, and else what the C library's inet_ntop prints,
// as other tools do. That is RFC 5952 but for one case: behind just six zero groups the last two are a dotted quad.
#![tactic(auto)]

ghost use Rattle.std.specs.Prelude.{◌≡◌, ◌++◌, ◌+◌, ◌*◌, ◌≤◌, ◌<◌, length, take, drop, get_or};
ghost use Rattle.text.specs.Ascii.{ascii};
ghost use Rattle.text.specs.Numerals.{numeral};
ghost use Rattle.text_addresses.specs.Addresses.{groups, behind_colons, colons, zeros_first, longest_run, start_of, six_of, mapped, quad_of, address_of};
ghost use Rattle.text_addresses.specs.Runs.{first_with, joined, runs_of};

use text::Text;
use text::decimals::put_number;
use text_hex::put_unpadded;

// The zero groups in a part of an address: how many come first, and where the longest run starts and how
// many it has.
#[derive(Clone, Copy)]
pub struct Runs {
    pub first: usize,
    pub at: usize,
    pub len: usize,
}

pub fn wide(x: u8) -> u64
    ensures { (result ≡ x) × (result < 256) }
{
    x as u64
}

fn group_at(b: &[u8], i: usize) -> u64
    requires { (length b.now ≡ 16) × (i < 8) }
    ensures { (result ≡ get_or (groups b.now) i 0) × (result < 65536) }
{
    wide(b[i * 2]) * 256 + wide(b[i * 2 + 1])
}

fn first_with(g: u64, n: usize) -> usize
    requires { n < 8 }
    ensures { result ≡ first_with g n }
{
    if g == 0 {
        return n + 1;
    }
    0
}

// The runs with one group more in front. It starts the longest run if no later one is longer.
fn joined_runs(g: u64, r: Runs) -> Runs
    requires { (r.first < 8) × (r.at < 8) }
    ensures { result ≡ joined g r }
{
    let first = first_with(g, r.first);
    if r.len <= first {
        return Runs {
            first,
            at: 0,
            len: first,
        };
    }
    Runs {
        first,
        at: r.at + 1,
        len: r.len,
    }
}

fn runs_in(b: &[u8]) -> Runs
    requires { length b.now ≡ 16 }
    ensures { result ≡ runs_of (groups b.now) }
{
    let mut r = Runs {
        first: 0,
        at: 0,
        len: 0,
    };
    for i in (0..8).rev() {
        r = joined_runs(group_at(b, i), r);
    }
    r
}

// The groups from `from` to before `to`, each behind a colon.
fn put_next_groups(text: &mut Text, b: &[u8], from: usize, to: usize)
    requires { (length text.old + 40 ≤ 128) × (length b.now ≡ 16) × (from ≤ to) × (to ≤ 8) }
    ensures { (length text.new ≤ length text.old + 40) × (text.new ≡ text.old ++ behind_colons (drop from (take to (groups b.now)))) }
{
    for i in from..to {
        text.push(b':');
        put_unpadded(text, group_at(b, i));
    }
}

// The groups from `from` to before `to`, with a colon between.
fn put_groups(text: &mut Text, b: &[u8], from: usize, to: usize)
    requires { (length text.old + 44 ≤ 128) × (length b.now ≡ 16) × (from ≤ to) × (to ≤ 8) }
    ensures { (length text.new ≤ length text.old + 44) × (text.new ≡ text.old ++ colons (drop from (take to (groups b.now)))) }
{
    if from < to {
        put_unpadded(text, group_at(b, from));
        put_next_groups(text, b, from + 1, to);
    }
}

// A byte of an address, behind a dot.
fn put_octet(text: &mut Text, byte: u8)
    requires { length text.old + 21 ≤ 128 }
    ensures { (length text.new ≤ length text.old + 21) × (text.new ≡ text.old ++ (ascii "." ++ numeral byte)) }
{
    text.push(b'.');
    put_number(text, wide(byte));
}

fn put_quad(text: &mut Text, b: &[u8])
    requires { (length text.old + 83 ≤ 128) × (length b.now ≡ 16) }
    ensures { text.new ≡ text.old ++ quad_of b.now }
{
    put_number(text, wide(b[12]));
    put_octet(text, b[13]);
    put_octet(text, b[14]);
    put_octet(text, b[15]);
}

// The groups with a run left out, or with none where none has two.
fn six(b: &[u8], at: usize, len: usize) -> Text
    requires { (length b.now ≡ 16) × (at + len ≤ 8) × (len ≡ longest_run (groups b.now)) × (at ≡ start_of (longest_run (groups b.now)) (groups b.now)) }
    ensures { result ≡ six_of (groups b.now) }
{
    let mut text = Text::new();
    if len < 2 {
        put_groups(&mut text, b, 0, 8);
        return text;
    }
    put_groups(&mut text, b, 0, at);
    text.append(b"::");
    put_groups(&mut text, b, at + len, 8);
    text
}

fn is_mapped(b: &[u8], first: usize) -> bool
    requires { (length b.now ≡ 16) × (first ≡ zeros_first (groups b.now)) }
    ensures { result ≡ mapped (groups b.now) }
{
    first == 5 && group_at(b, 5) == 65535
}

pub fn address(b: &[u8]) -> Text
    requires { length b.now ≡ 16 }
    ensures { result ≡ address_of b.now }
{
    let runs = runs_in(b);
    let first = runs.first;
    let mut text = Text::new();
    if is_mapped(b, first) {
        put_quad(&mut text, b);
        return text;
    }
    if first == 6 {
        text.append(b"::");
        put_quad(&mut text, b);
        return text;
    }
    six(b, runs.at, runs.len)
}
