// The parts of an accepted table that its readers are lent: the heap, what lies in it, and the bytes of one record.
ghost use Rattle.std.specs.Prelude.{◌≡◌, ◌+◌, ◌≤◌, ◌<◌, length, eqb};
ghost use Rattle.table.specs.Bytes.{part, pick};
ghost use Rattle.table.specs.Layout.{base_of};
ghost use Rattle.table.specs.FixedLayouts.{layout_of};
ghost use Rattle.table.specs.Numbers.{heap_in};
ghost use Rattle.reader.specs.Accepted.{Accepted};
ghost use Rattle.reads_seats.specs.Seats.{InHeap, Standing};

use table::{Extended, HfiExtended, Info, Region};

// `len` of the caller's own bytes, from place `at` on: not equal ones but these.
pub fn part_of(t: &[u8], at: usize, len: usize) -> &[u8]
    requires { at + len ≤ length t.now }
    ensures { (result.now ≡ part t.now at len) × (result.ref_ptr.0 ≡ t.entry.ref_ptr.0) × (result.ref_ptr.1 ≡ t.entry.ref_ptr.1 + at) }
{
    let end = at + len;
    &t[at..end]
}

// The heap, which stands where `region` says. An empty one has no place and is not asked for.
fn heap_of(t: &[u8], region: Region) -> &[u8]
    requires { Accepted t.now × (region ≡ heap_in t.now) × (0 < region.len) }
    ensures { (result.now ≡ part t.now region.at region.len) × (result.ref_ptr.0 ≡ t.entry.ref_ptr.0) × (result.ref_ptr.1 ≡ t.entry.ref_ptr.1 + region.at) }
{
    part_of(t, region.at, region.len)
}

// `len` bytes that lie in the heap, from place `at` of the table on: a part of the heap. Where there are none, their place says nothing.
pub fn heap_part(t: &[u8], at: usize, len: usize) -> &[u8]
    requires { Accepted t.now × (0 < len → InHeap t.now at len) }
    ensures { (result.now ≡ part t.now at len) × (result.ref_ptr.0 ≡ t.entry.ref_ptr.0) × (result.ref_ptr.1 ≡ t.entry.ref_ptr.1 + pick (eqb len 0) 0 at) }
{
    if len == 0 {
        return part_of(t, 0, 0);
    }
    let region = reader_head::region_at(t, 36);
    let heap = heap_of(t, region);
    part_of(heap, at - region.at, len)
}

// The bytes of the record of a kind at a place: a heap record is a part of the heap, any other a part of the table.
pub fn record_at(t: &[u8], kind: u8, at: usize) -> &[u8]
    requires { Accepted t.now × Standing t.now (layout_of kind) at }
    ensures { result.now ≡ part t.now at (base_of (layout_of kind)) }
{
    let size = layout_kinds::base_size(kind);
    match kind {
        // An arm for each: in one arm for the three the proof that the record lies in the heap did not close, by `search` alone.
        Info::ID => heap_part(t, at, size),
        Extended::ID => heap_part(t, at, size),
        HfiExtended::ID => heap_part(t, at, size),
        _ => part_of(t, at, size),
    }
}
