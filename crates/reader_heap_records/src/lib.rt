// Heap records by their own bytes: the transport info of an HFI, the HFI extended info that it may name, and the extended info of an SSNS.
#![tactic(auto)]

ghost use Rattle.std.specs.Prelude.{◌≡◌, ◌||◌, [], ◌+◌, ◌≤◌, length, get_or, eqb};
ghost use Rattle.table.specs.Bytes.{pick};
ghost use Rattle.table.specs.Layout.{base_of};
ghost use Rattle.table.specs.FixedLayouts.{layout_of, info, extended, hfi_extended};
ghost use Rattle.laws.specs.Fields.{image_in};
ghost use Rattle.reader_heap_records.specs.HeapRecords.{sound_by, info_right, identity_right, own_need, own_fault, own_faults, flat_part, identity_fault, info_fault, info_faults, info_part};

use layout_fields::texts::holds_text;
use layout_kinds::TCP;
use layout_needs::{identity_need, plain_need};
use reader_references::{Heap, part_at, text_fault};
use table::{Extended, HfiExtended, Info, Need};

// Valid, with the right ID, version, type and index, by what was read, and what else its kind asks for. For a kind without type the right one is
// handed over.
#[tactic(auto, using(table::proofs::Rules::picks), unfolding(crate::specs::HeapRecords::sound_by))]
fn sound(
    kind: u8,
    flags: u8,
    id: u8,
    version: u8,
    transport: u8,
    index: usize,
    position: usize,
    further: bool,
) -> u8
    ensures { result ≡ pick (sound_by kind flags id version transport index position further) 0 12 }
{
    if flags % 2 == 1
        && id == kind
        && version == 1
        && transport == TCP
        && index == position
        && further
    {
        0
    } else {
        12
    }
}

// An autoconfigured interface (flag 3) has neither DHCP (flag 2) nor an IP origin.
#[tactic(auto, using(table::proofs::Rules::picks), unfolding(crate::specs::HeapRecords::info_right))]
fn info_right(version: u8, flags: u8, origin: u8) -> bool
    ensures { result ≡ info_right version flags origin }
{
    (version == 1 || version == 2) && (flags / 8 % 2 == 0 || flags / 4 % 2 == 0 && origin == 0)
}

// The flags of an info that count: one more under version 2.
fn info_flags(x: &[u8]) -> u8
    requires { 128 ≤ length x.now }
    ensures { result ≡ get_or (image_in info x.now 0) 6 0 }
{
    if x[3] % 4 / 2 == 0 {
        x[6] % 8
    } else {
        x[6] % 16
    }
}

// A client identifier (flag 1) asks for IP origin 3.
#[tactic(auto, using(table::proofs::Rules::picks), unfolding(crate::specs::HeapRecords::identity_right))]
fn identity_right(flags: u8, origin: u8) -> bool
    ensures { result ≡ identity_right flags origin }
{
    flags / 2 % 2 == 0 || origin == 3
}

// Whether a reference of a heap record that names objects alone counts.
fn own_need(x: &[u8], kind: u8, off: usize) -> Need
    requires { base_of (layout_of kind) ≤ length x.now }
    ensures { result ≡ own_need kind x.now off }
{
    match kind {
        HfiExtended::ID => identity_need(x, off),
        _ => plain_need(kind, off),
    }
}

// A reference of its own, to an object.
fn own_ref(x: &[u8], kind: u8, off: usize, heap: Heap<'_>) -> u8
    requires { (base_of (layout_of kind) ≤ length x.now) × (off + 6 ≤ length x.now) }
    ensures { result ≡ own_fault kind heap.entry.bytes.now heap.entry.from x.now off }
{
    let need = own_need(x, kind, off);
    if holds_text(kind, off) {
        return text_fault(x, off, need, heap);
    }
    heap.plain_fault(x, off, need)
}

// The first fault of its references, by ascending field offset.
#[tactic(auto, unfolding(crate::specs::HeapRecords::own_faults))]
fn own_fault(x: &[u8], kind: u8, heap: Heap<'_>) -> u8
    requires { base_of (layout_of kind) ≤ length x.now }
    ensures { result ≡ own_faults kind heap.entry.bytes.now heap.entry.from x.now }
{
    for &off in layout_kinds::reference_offsets(kind) {
        let fault = own_ref(x, kind, off, heap);
        if fault != 0 {
            return fault;
        }
    }
    0
}

// HFI extended info by its own bytes and those of the info that names it: long enough, sound, then its references.
fn identity_fault(owner: &[u8], x: &[u8], position: usize, heap: Heap<'_>) -> u8
    requires { 128 ≤ length owner.now }
    ensures { result ≡ flat_part heap.entry.bytes.now heap.entry.from position hfi_extended.shape hfi_extended.refs (image_in info owner.now 0) x.now }
{
    if x.len() < HfiExtended::SIZE {
        return 12;
    }
    let flags = x[4] % 4;
    let fault = sound(
        HfiExtended::ID,
        flags,
        x[0],
        x[1],
        TCP,
        bytes_wire::u16_at(x, 2),
        position,
        identity_right(flags, owner[19]),
    );
    if fault != 0 {
        return fault;
    }
    own_fault(x, HfiExtended::ID, heap)
}

// The reference of an info to its extended info, which counts under version 2 alone. It is handed on as the part of the heap that it is.
fn identity_ref(x: &[u8], position: usize, heap: Heap<'_>) -> u8
    requires { 128 ≤ length x.now }
    ensures { result ≡ identity_fault heap.entry.bytes.now heap.entry.from position x.now }
{
    if x[3] != 2 {
        return 0;
    }
    let fault = heap.plain_fault(x, 110, Need::Optional);
    if fault != 0 {
        return fault;
    }
    let named = part_at(x, 110, heap);
    if named.is_empty() {
        return 0;
    }
    identity_fault(x, named, position, heap)
}

// A reference of an info: its extended info, or an object.
fn info_ref(x: &[u8], position: usize, off: usize, heap: Heap<'_>) -> u8
    requires { (128 ≤ length x.now) × (off + 6 ≤ length x.now) }
    ensures { result ≡ info_fault heap.entry.bytes.now heap.entry.from position x.now off }
{
    if off == 110 {
        return identity_ref(x, position, heap);
    }
    let need = plain_need(Info::ID, off);
    if holds_text(Info::ID, off) {
        return text_fault(x, off, need, heap);
    }
    heap.plain_fault(x, off, need)
}

// The first fault of them, by ascending field offset.
#[tactic(auto, unfolding(crate::specs::HeapRecords::info_faults, table::specs::FixedLayouts::layout_of))]
fn info_refs(x: &[u8], position: usize, heap: Heap<'_>) -> u8
    requires { 128 ≤ length x.now }
    ensures { result ≡ info_faults heap.entry.bytes.now heap.entry.from position x.now }
{
    for &off in layout_kinds::reference_offsets(Info::ID) {
        let fault = info_ref(x, position, off, heap);
        if fault != 0 {
            return fault;
        }
    }
    0
}

// HFI transport info by its own bytes: long enough, sound, then its references.
pub fn info_fault(x: &[u8], position: usize, heap: Heap<'_>) -> u8
    ensures { result ≡ info_part heap.entry.bytes.now heap.entry.from position x.now }
{
    if x.len() < Info::SIZE {
        return 12;
    }
    let flags = info_flags(x);
    let fault = sound(
        Info::ID,
        flags,
        x[0],
        x[1],
        x[2],
        bytes_wire::u16_at(x, 4),
        position,
        info_right(x[3], flags, x[19]),
    );
    if fault != 0 {
        return fault;
    }
    info_refs(x, position, heap)
}

// SSNS extended info, which names one object and asks for nothing else.
pub fn extended_fault(x: &[u8], position: usize, heap: Heap<'_>) -> u8
    ensures { result ≡ flat_part heap.entry.bytes.now heap.entry.from position extended.shape extended.refs [] x.now }
{
    if x.len() < Extended::SIZE {
        return 12;
    }
    let fault = sound(
        Extended::ID,
        x[4] % 4,
        x[0],
        x[1],
        TCP,
        bytes_wire::u16_at(x, 2),
        position,
        true,
    );
    if fault != 0 {
        return fault;
    }
    own_fault(x, Extended::ID, heap)
}
