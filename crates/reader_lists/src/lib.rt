// Records: their fields, their references in a loop over the kind's table of offsets, their indexes; and lists, walked by their stated record length.
#![tactic(auto)]

ghost use Rattle.std.specs.Prelude.{◌≡◌, ◌+◌, ◌*◌, ◌≤◌, ◌<◌, length};
ghost use Rattle.table.specs.Layout.{base_of, region};
ghost use Rattle.table.specs.FixedLayouts.{layout_of};
ghost use Rattle.reader_frame.specs.Bounds.{ListIn, LaidOut};
ghost use Rattle.reader_rules.specs.Rules.{IsHeap};
ghost use Rattle.reader_indexes.specs.Indexes.{refs_fault};
ghost use Rattle.reader_lists.specs.Lists.{used_fault, record_fault, list_from, list_fault, used_looks, record_looks, from_looks, list_looks};

use reader_indexes::behind;
use reader_indexes::names::names_fault;
use reader_references::Heap;
use table::{Found, Looked};

// The first fault of a record's references, by ascending field offset.
pub fn refs_fault(t: &[u8], kind: u8, a: usize, position: usize, heap: Heap<'_>) -> u8
    requires { (kind ≤ 6) × (a + base_of (layout_of kind) ≤ length t.now) × IsHeap t.now heap.bytes.now heap.from }
    ensures { result ≡ refs_fault kind (region heap.entry.from (length heap.entry.bytes.now)) t.now a position }
{
    for &off in layout_kinds::reference_offsets(kind) {
        let fault = reader_rules::ref_fault(t, kind, a, position, off, heap);
        if fault != 0 {
            return fault;
        }
    }
    0
}

// A valid record, host or one of a list: 10, then 11, 12, 18 and 20 by reference, then 13. It is looked at once, and its indexes behind all else.
pub fn used_fault(t: &[u8], kind: u8, a: usize, position: usize, heap: Heap<'_>) -> Found
    requires { LaidOut t.now × (2 ≤ kind) × (kind ≤ 6) × (a + base_of (layout_of kind) ≤ length t.now) × IsHeap t.now heap.bytes.now heap.from }
    ensures { (result.number ≡ used_fault kind (region heap.entry.from (length heap.entry.bytes.now)) t.now a position) × (result.looks ≡ used_looks kind (region heap.entry.from (length heap.entry.bytes.now)) t.now a position) × (result.looks ≤ 8589934596) }
{
    let wrong = reader_rules::own_fields::right_fault(t, kind, a, position);
    if wrong != 0 {
        return Found {
            number: wrong,
            looks: 1,
        };
    }
    let fault = refs_fault(t, kind, a, position, heap);
    if fault != 0 {
        return Found {
            number: fault,
            looks: 1,
        };
    }
    behind(1, names_fault(t, kind, a, position, heap))
}

// A record of a list: where it is unused, nothing else in it is read.
pub fn record_fault(t: &[u8], kind: u8, a: usize, position: usize, heap: Heap<'_>) -> Found
    requires { LaidOut t.now × (2 ≤ kind) × (kind ≤ 6) × (a + base_of (layout_of kind) ≤ length t.now) × IsHeap t.now heap.bytes.now heap.from }
    ensures { (result.number ≡ record_fault kind (region heap.entry.from (length heap.entry.bytes.now)) t.now a position) × (result.looks ≡ record_looks kind (region heap.entry.from (length heap.entry.bytes.now)) t.now a position) × (result.looks ≤ 8589934596) }
{
    let flag = layout_kinds::flags_at(kind);
    if t[a + flag] % 2 != 1 {
        return Found {
            number: 0,
            looks: 1, // unused positions are looked at too
        };
    }
    used_fault(t, kind, a, position, heap)
}

// `count` records from `at` on, each `step` bytes behind the last; positions count from 1, unused ones too.
fn list_from(t: &[u8], kind: u8, at: usize, step: usize, count: usize, heap: Heap<'_>) -> Looked
    requires laid_out { LaidOut t.now × (2 ≤ kind) × (kind ≤ 6) × IsHeap t.now heap.bytes.now heap.from }
    requires step_in_bounds { (0 < count → at + count * step ≤ length t.now) × (0 < count → base_of (layout_of kind) ≤ step) × (count < 256) × (at < 4294967296) }
    ensures { (result.answer ≡ list_from kind (region heap.entry.from (length heap.entry.bytes.now)) t.now step 1 at count) × (result.looks ≡ from_looks kind (region heap.entry.from (length heap.entry.bytes.now)) t.now step 1 at count) × (result.looks ≤ 2199023255552) }
{
    let mut base = at;
    let mut looks: usize = 0;
    for i in 0..count {
        let found = record_fault(t, kind, base, i + 1, heap);
        looks += found.looks;
        if found.number != 0 {
            return Looked {
                answer: table::refuse(found.number, kind, i + 1),
                looks,
            };
        }
        base += step;
    }
    Looked {
        answer: table::done(),
        looks,
    }
}

// The list whose entry in the control record stands at c.
pub fn list_fault(t: &[u8], kind: u8, c: usize, heap: Heap<'_>) -> Looked
    requires laid_out { LaidOut t.now × (2 ≤ kind) × (kind ≤ 6) × IsHeap t.now heap.bytes.now heap.from }
    requires c_in_bounds { (c + 8 ≤ length t.now) × ListIn t.now c (base_of (layout_of kind)) }
    ensures { (result.answer ≡ list_fault kind (region heap.entry.from (length heap.entry.bytes.now)) t.now c) × (result.looks ≡ list_looks kind (region heap.entry.from (length heap.entry.bytes.now)) t.now c) × (result.looks ≤ 2199023255552) }
{
    list_from(
        t,
        kind,
        bytes_wire::u32_at(t, c),
        bytes_wire::u16_at(t, c + 4),
        bytes_wire::wide(t[c + 7]),
        heap,
    )
}
