// Reads of fields, objects and whole records for callers in C: what they answer as one number.
#![tactic(auto)]

ghost use Rattle.std.specs.Prelude.{◌≡◌, length};
ghost use Rattle.table.specs.Reads.{read_field, read_place, read_record};
ghost use Rattle.c_answers.specs.Packed.{packed, packed_field, packed_place, value_after};
ghost use Rattle.reads_whole.specs.Whole.{entry_after, read_records, records_bytes};
ghost use Rattle.c_reads.specs.PackedReads.{packed_span, packed_records};

use c_answers::{pack, pack_field, pack_pair, pack_place, store};

// A refused read leaves `value` as it was.
pub fn field(t: &[u8], kind: u8, position: u16, offset: u32, value: &mut [u8; 16]) -> u64
    ensures { (result ≡ packed_field (read_field t.now kind position offset)) × (value.new ≡ value_after (read_field t.now kind position offset) value.old) }
{
    let f = reads::fields::field(t, kind, position as usize, offset as usize);
    let answer = f.answer;
    let bytes = f.bytes;
    store(value, answer.number, bytes);
    pack_field(f)
}

pub fn object(t: &[u8], kind: u8, position: u16, offset: u32) -> u64
    ensures { result ≡ packed_place (read_place t.now kind position offset) }
{
    pack_place(reads::objects::object_place(t, kind, position as usize, offset as usize))
}

// Where that object starts, counted from `t`; 0 where refused or absent.
pub fn object_start(t: &[u8], kind: u8, position: u16, offset: u32) -> u32
    ensures { result ≡ (read_place t.now kind position offset).at }
{
    let p = reads::objects::object_place(t, kind, position as usize, offset as usize);
    p.at as u32
}

// Its length and its start together.
pub fn object_place(t: &[u8], kind: u8, position: u16, offset: u32) -> u64
    ensures { result ≡ packed_span (read_place t.now kind position offset) }
{
    let place = reads::objects::object_place(t, kind, position as usize, offset as usize);
    pack_pair(place.answer, place.len, place.at)
}

// One record; a refused read leaves `entry` as it was.
pub fn record(t: &[u8], kind: u8, position: u16, entry: &mut [u8; 184]) -> u32
    ensures { (result ≡ packed (read_record t.now kind position).answer) × (entry.new ≡ entry_after t.now kind position (read_record t.now kind position).answer entry.old) }
{
    pack(reads_whole::calls::record(t, kind, position as usize, entry))
}

// As many records as `out` has room for.
pub fn records(t: &[u8], kind: u8, position: u16, last: u8, out: &mut [u8]) -> u64
    ensures { (result ≡ packed_records (read_records t.now kind position last (length out.old))) × (out.new ≡ records_bytes t.now kind position last out.old) }
{
    let read = reads_whole::calls::records(t, kind, position as usize, last, out);
    pack_pair(read.answer, read.written, read.total)
}
