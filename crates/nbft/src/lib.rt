// The C functions, and nothing else. include/nbft.h declares them.
#![tactic(auto)]

ghost use Rattle.std.specs.Prelude.{◌≡◌, length};
ghost use Rattle.table.specs.Numbers.{check};
ghost use Rattle.table.specs.Looks.{looks};
ghost use Rattle.table.specs.Reads.{read_field, read_place, read_record};
ghost use Rattle.table.specs.Rewriting.{rewrite, rewrite_bytes};
ghost use Rattle.table.specs.Closing.{close_answer, close_bytes, close_map, close_moved};
ghost use Rattle.c_answers.specs.Packed.{packed, packed_field, packed_place, packed_rewritten, packed_counted, value_after};
ghost use Rattle.reads_whole.specs.Whole.{entry_after, read_records, records_bytes};
ghost use Rattle.c_reads.specs.PackedReads.{packed_span, packed_records};

use c_answers::{pack, pack_counted, pack_rewritten};

pub mod building; // the builder's calls

// Any bytes may be handed in; nothing is changed.
#[unsafe(no_mangle)]
pub extern "C" fn nbft_check(t: &[u8]) -> u32
    ensures { result ≡ packed (check t.now) }
{
    pack(reader::check(t))
}

// The same answer, with how many looks at records it took.
#[unsafe(no_mangle)]
pub extern "C" fn nbft_check_looks(t: &[u8]) -> u64
    ensures { result ≡ packed_counted (check t.now) (looks t.now) }
{
    let looked = reader::check_looks(t);
    pack_counted(looked.answer, looked.looks)
}

// A refused read leaves `value` as it was.
#[unsafe(no_mangle)]
pub extern "C" fn nbft_field(
    t: &[u8],
    kind: u8,
    position: u16,
    offset: u32,
    value: &mut [u8; 16],
) -> u64
    ensures { (result ≡ packed_field (read_field t.now kind position offset)) × (value.new ≡ value_after (read_field t.now kind position offset) value.old) }
{
    c_reads::field(t, kind, position, offset, value)
}

#[unsafe(no_mangle)]
pub extern "C" fn nbft_object(t: &[u8], kind: u8, position: u16, offset: u32) -> u64
    ensures { result ≡ packed_place (read_place t.now kind position offset) }
{
    c_reads::object(t, kind, position, offset)
}

// Where that object starts, counted from `t`; 0 where refused or absent.
#[unsafe(no_mangle)]
pub extern "C" fn nbft_object_start(t: &[u8], kind: u8, position: u16, offset: u32) -> u32
    ensures { result ≡ (read_place t.now kind position offset).at }
{
    c_reads::object_start(t, kind, position, offset)
}

// Length and start of that object together.
#[unsafe(no_mangle)]
pub extern "C" fn nbft_object_place(t: &[u8], kind: u8, position: u16, offset: u32) -> u64
    ensures { result ≡ packed_span (read_place t.now kind position offset) }
{
    c_reads::object_place(t, kind, position, offset)
}

// A record's image and the places of its objects; where refused, `entry` stays as it was.
#[unsafe(no_mangle)]
pub extern "C" fn nbft_record(t: &[u8], kind: u8, position: u16, entry: &mut [u8; 184]) -> u32
    ensures { (result ≡ packed (read_record t.now kind position).answer) × (entry.new ≡ entry_after t.now kind position (read_record t.now kind position).answer entry.old) }
{
    c_reads::record(t, kind, position, entry)
}

// As many entries as `entries` has room for, from a kind and position on, through those of kind `last`.
#[unsafe(no_mangle)]
pub extern "C" fn nbft_records(
    t: &[u8],
    kind: u8,
    position: u16,
    last: u8,
    entries: &mut [u8],
) -> u64
    ensures value { result ≡ packed_records (read_records t.now kind position last (length entries.old)) }
    ensures entries_after { entries.new ≡ records_bytes t.now kind position last entries.old }
{
    c_reads::records(t, kind, position, last, entries)
}

// The one form of the table into the first bytes of `out`; where refused, `out` stays as it was.
#[unsafe(no_mangle)]
pub extern "C" fn nbft_rewrite(t: &[u8], out: &mut [u8]) -> u64
    ensures { (result ≡ packed_rewritten (rewrite t.now (length out.old))) × (out.new ≡ rewrite_bytes t.now out.old) }
{
    pack_rewritten(rewriter::rewrite(t, out))
}

// The heap closed up in place; where refused, table and map stay as they were.
#[unsafe(no_mangle)]
pub extern "C" fn nbft_compact(t: &mut [u8], map: &mut [u8]) -> u64
    ensures value { result ≡ packed_counted (close_answer t.old (length map.old)) (close_moved t.old (length map.old)) }
    ensures t_after { (t.new ≡ close_bytes t.old (length map.old)) × (map.new ≡ close_map t.old map.old) }
{
    let done = closer::compact(t, map);
    pack_counted(done.answer, done.moved)
}
