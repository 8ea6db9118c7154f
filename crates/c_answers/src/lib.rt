// Answers, with fields, places, lengths and counts, as numbers, and a field's bytes stored for the caller: what the C functions hand back.
#![tactic(auto)]

ghost use Rattle.std.specs.Prelude.{◌≡◌, ◌<◌, ◌≤◌, eqb};
ghost use Rattle.table.specs.Bytes.{pick};
ghost use Rattle.table.specs.Meaning.{limit};
ghost use Rattle.c_answers.specs.Packed.{packed, packed_field, packed_place, packed_rewritten, packed_counted, packed_pair};

use table::{Answer, Field, Place, Rewritten};

// A list has at most 255 records, so no half of the number runs into the next.
pub fn pack(a: Answer) -> u32
    requires { a.position < 256 }
    ensures { result ≡ packed a }
{
    (bytes_wire::wide(a.number) + 256 * bytes_wire::wide(a.kind) + 65536 * a.position) as u32
}

fn bit(b: bool) -> u64
    ensures { (result ≡ pick b 1 0) × (result < 2) }
{
    if b { 1 } else { 0 }
}

pub fn pack_field(f: Field) -> u64
    requires { (f.answer.position < 256) × (f.len < 256) }
    ensures { result ≡ packed_field f }
{
    let answer = pack(f.answer) as u64;
    answer + 4294967296 * bit(f.used) + 1099511627776 * (f.len as u64)
}

pub fn pack_place(p: Place) -> u64
    requires { (p.answer.position < 256) × (p.len < 65536) }
    ensures { result ≡ packed_place p }
{
    let answer = pack(p.answer) as u64;
    answer + 4294967296 * (p.len as u64) + 281474976710656 * bit(p.present)
}

pub fn pack_rewritten(r: Rewritten) -> u64
    requires { (r.answer.position < 256) × (r.len ≤ limit) }
    ensures { result ≡ packed_rewritten r }
{
    let answer = pack(r.answer) as u64;
    answer + 4294967296 * (r.len as u64)
}

pub fn pack_counted(answer: Answer, count: usize) -> u64
    requires { (answer.position < 256) × (count < 4294967296) }
    ensures { result ≡ packed_counted answer count }
{
    let low = pack(answer) as u64;
    low + 4294967296 * (count as u64)
}

pub fn pack_pair(answer: Answer, low: usize, high: usize) -> u64
    requires { (answer.position < 256) × (low < 65536) × (high < 65536) }
    ensures { result ≡ packed_pair answer low high }
{
    let packed = pack(answer) as u64;
    packed + 4294967296 * (low as u64) + 281474976710656 * (high as u64)
}

// A refused read stores nothing.
pub fn store(value: &mut [u8; 16], number: u8, bytes: [u8; 16])
    ensures { value.new ≡ pick (eqb number 0) bytes value.old }
{
    if number == 0 {
        *value = bytes;
    }
}
