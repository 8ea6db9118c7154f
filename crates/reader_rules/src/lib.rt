// The rules of a record: its own fields, and its references, each by kind and offset with the heap record that it refers to. The heap is lent
// as a part of the table, a heap record as a part of the heap.
#![tactic(auto)]

pub mod own_fields; // a record's own fields, by kind

ghost use Rattle.std.specs.Prelude.{◌≡◌, ◌+◌, ◌≤◌, length, get_or};
ghost use Rattle.table.specs.Layout.{base_of, region, reference_at};
ghost use Rattle.table.specs.FixedLayouts.{layout_of};
ghost use Rattle.reader_references.specs.References.{asked_rule, positions_rule};
ghost use Rattle.reader_rules.specs.Rules.{IsHeap, ref_fault};

use bytes_wire::wide;
use layout_fields::texts::holds_text;
use layout_flags::ssns_flags;
use layout_needs::{plain_need, security_need, ssns_need};
use reader_references::{Heap, part_at, positions_fault, text_fault};
use table::{Control, Discovery, Hfi, Host, Need, Security, Ssns};

// The heap record that the reference names is handed on as the part of the heap that it is. It is required: none is a fault.
fn info_ref(t: &[u8], a: usize, position: usize, heap: Heap<'_>) -> u8
    requires { (a + 32 ≤ length t.now) × IsHeap t.now heap.bytes.now heap.from }
    ensures { result ≡ ref_fault 3 (region heap.entry.from (length heap.entry.bytes.now)) t.now a position 16 }
{
    let x = part_at(t, a + 16, heap);
    if x.len() == 0 {
        return 11;
    }
    reader_heap_records::info_fault(x, position, heap)
}

fn extended_ref(t: &[u8], a: usize, position: usize, heap: Heap<'_>) -> u8
    requires { (a + 128 ≤ length t.now) × IsHeap t.now heap.bytes.now heap.from }
    ensures { result ≡ ref_fault 4 (region heap.entry.from (length heap.entry.bytes.now)) t.now a position 60 }
{
    if ssns_flags(t, a) / 16 % 2 == 0 {
        return 0;
    }
    let x = part_at(t, a + 60, heap);
    if x.len() == 0 {
        return 11;
    }
    reader_heap_records::extended_fault(x, position, heap)
}

fn hfi_ref(t: &[u8], a: usize, position: usize, off: usize, heap: Heap<'_>) -> u8
    requires { (a + 32 ≤ length t.now) × IsHeap t.now heap.bytes.now heap.from }
    ensures { result ≡ ref_fault 3 (region heap.entry.from (length heap.entry.bytes.now)) t.now a position off }
{
    if off == 16 {
        return info_ref(t, a, position, heap);
    }
    0
}

// The secondary list of the SSNS record at `a`: it has no more positions than the table states HFIs, unused ones too.
fn secondary_ref(t: &[u8], a: usize, heap: Heap<'_>) -> u8
    requires { (a + 128 ≤ length t.now) × IsHeap t.now heap.bytes.now heap.from }
    ensures { result ≡ asked_rule Need.Optional (positions_rule (get_or t.now 87 0)) heap.entry.bytes.now heap.entry.from (reference_at t.now (a + 48)) }
{
    let most = wide(t[Control::HFI_LIST + 7]);
    positions_fault(t, a + 48, most, heap)
}

fn ssns_ref(t: &[u8], a: usize, position: usize, off: usize, heap: Heap<'_>) -> u8
    requires { (a + 128 ≤ length t.now) × (a + off + 6 ≤ length t.now) × IsHeap t.now heap.bytes.now heap.from }
    ensures { result ≡ ref_fault 4 (region heap.entry.from (length heap.entry.bytes.now)) t.now a position off }
{
    if off == 60 {
        return extended_ref(t, a, position, heap);
    }
    if off == 48 {
        return secondary_ref(t, a, heap);
    }
    let need = ssns_need(ssns_flags(t, a), off);
    if holds_text(Ssns::ID, off) {
        return text_fault(t, a + off, need, heap);
    }
    heap.plain_fault(t, a + off, need)
}

// The reference at a field offset of the record at `a`, with its heap record and that one's own reference: 0, 11, 12, 18 or 20.
pub fn ref_fault(t: &[u8], kind: u8, a: usize, position: usize, off: usize, heap: Heap<'_>) -> u8
    requires { (kind ≤ 6) × (a + base_of (layout_of kind) ≤ length t.now) × (a + off + 6 ≤ length t.now) × IsHeap t.now heap.bytes.now heap.from }
    ensures { result ≡ ref_fault kind (region heap.entry.from (length heap.entry.bytes.now)) t.now a position off }
{
    match kind {
        Hfi::ID => hfi_ref(t, a, position, off, heap),
        Ssns::ID => ssns_ref(t, a, position, off, heap),
        Security::ID => heap.plain_fault(t, a + off, security_need(t, a, off)),
        // All that a host or a discovery controller names is text.
        Host::ID => text_fault(t, a + off, plain_need(Host::ID, off), heap),
        Discovery::ID => text_fault(t, a + off, plain_need(Discovery::ID, off), heap),
        _ => heap.plain_fault(t, a + off, plain_need(kind, off)),
    }
}
