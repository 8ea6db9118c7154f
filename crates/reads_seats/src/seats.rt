// Where a record stands. Lists hold theirs one behind the other; a heap record stands where its owner's reference says.
ghost use Rattle.std.specs.Prelude.{◌≡◌, ◌+◌, ◌≤◌, ◌<◌, length};
ghost use Rattle.table.specs.Layout.{base_of, is_valid};
ghost use Rattle.table.specs.FixedLayouts.{layout_of, info};
ghost use Rattle.table.specs.Reads.{seat_of, list_seat};
ghost use Rattle.laws.specs.Fields.{image_in};
ghost use Rattle.reader_frame.specs.Bounds.{ListIn};
ghost use Rattle.reader.specs.Accepted.{Accepted};
ghost use Rattle.reads_seats.specs.Seats.{as_seat, InTable, single_at, heap_at, extended_at, identity_at, heap_record, owned_of};

use crate::lent::part_of;
use layout_flags::ssns_flags;
use table::{Control, Discovery, Extended, Header, Hfi, HfiExtended, Host, Info, Security, Ssns};

// The place of a record, and whether it is used.
#[derive(Clone, Copy)]
pub struct Seat {
    pub at: usize,
    pub used: bool,
}

// Whether the record of a kind with these bytes is used.
pub fn is_used(bytes: &[u8], kind: u8) -> bool
    requires { (2 ≤ kind) × (kind ≤ 6) × (base_of (layout_of kind) ≤ length bytes.now) }
    ensures { result ≡ is_valid (layout_of kind).shape (image_in (layout_of kind) bytes.now 0) }
{
    let flags = layout_kinds::flags_at(kind);
    bytes[flags] % 2 == 1
}

// A position of the list whose entry in the control record stands at `list`. Its records may be longer than their kind.
pub fn list_seat(t: &[u8], kind: u8, list: usize, position: usize) -> Option<Seat>
    requires { (2 ≤ kind) × (kind ≤ 6) × (list + 8 ≤ length t.now) × ListIn t.now list (base_of (layout_of kind)) }
    ensures { (as_seat (layout_of kind) result ≡ list_seat (layout_of kind) t.now list position) × InTable t.now (base_of (layout_of kind)) result }
{
    if position == 0 {
        return None;
    }
    if bytes_wire::wide(t[list + 7]) < position {
        return None;
    }
    let index = position - 1;
    let base = layout_kinds::base_size(kind);
    let step = bytes_wire::u16_at(t, list + 4);
    let distance = index * step;
    let at = bytes_wire::u32_at(t, list) + distance;
    let used = is_used(part_of(t, at, base), kind);
    Some(Seat { at, used })
}

// The heap record that a reference of the record with these bytes names, if it names one.
fn heap_seat(bytes: &[u8], offset: usize) -> Option<Seat>
    requires { offset + 6 ≤ length bytes.now }
    ensures { result ≡ heap_at bytes.now offset }
{
    let named = bytes_wire::reference_at(bytes, offset);
    let at = named.at;
    let len = named.len;
    if len == 0 {
        return None;
    }
    Some(Seat { at, used: true })
}

// The extended info of an SSNS: flag 4 says whether there is one.
fn extended_seat(bytes: &[u8]) -> Option<Seat>
    requires { 128 ≤ length bytes.now }
    ensures { result ≡ extended_at bytes.now 0 }
{
    if ssns_flags(bytes, 0) / 16 % 2 == 0 {
        return None;
    }
    heap_seat(bytes, 60)
}

// The HFI extended info of an info: version 2 may name one.
fn identity_seat(bytes: &[u8]) -> Option<Seat>
    requires { 128 ≤ length bytes.now }
    ensures { result ≡ identity_at bytes.now 0 }
{
    if bytes[3] != 2 {
        return None;
    }
    heap_seat(bytes, 110)
}

// The heap record of the record of a kind with these bytes.
fn inner_seat(bytes: &[u8], kind: u8) -> Option<Seat>
    requires { base_of (layout_of kind) ≤ length bytes.now }
    ensures { result ≡ heap_record bytes.now kind 0 }
{
    match kind {
        Hfi::ID => heap_seat(bytes, 16),
        Ssns::ID => extended_seat(bytes),
        Info::ID => identity_seat(bytes),
        _ => None,
    }
}

// The same of the record at a place, which is used. It is the seat that the definitions have: `heap-record-is` and `heap-record-of` in proofs/Laws.antt.
pub fn heap_record(t: &[u8], kind: u8, at: usize) -> Option<Seat>
    requires { at + base_of (layout_of kind) ≤ length t.now }
    ensures { result ≡ heap_record t.now kind at }
{
    inner_seat(part_of(t, at, layout_kinds::base_size(kind)), kind)
}

// The heap record of an owner of a kind.
fn owned_seat(t: &[u8], kind: u8, owner: Option<Seat>) -> Option<Seat>
    requires { InTable t.now (base_of (layout_of kind)) owner }
    ensures { result ≡ owned_of t.now kind owner }
{
    match owner {
        None => None,
        Some(Seat { at, used }) => if used { heap_record(t, kind, at) } else { None },
    }
}

fn single_seat(position: usize, at: usize) -> Option<Seat>
    ensures { result ≡ single_at position at }
{
    if position != 0 {
        return None;
    }
    Some(Seat { at, used: true })
}

// The info of the HFI at a position.
fn info_seat(t: &[u8], position: usize) -> Option<Seat>
    requires { Accepted t.now }
    ensures { (as_seat info result ≡ seat_of t.now 7 position) × InTable t.now (base_of info) result }
{
    let owner = list_seat(t, Hfi::ID, Control::HFI_LIST, position);
    owned_seat(t, Hfi::ID, owner)
}

// Where the record of a kind and position stands.
pub fn seat_of(t: &[u8], kind: u8, position: usize) -> Option<Seat>
    requires { Accepted t.now }
    ensures { as_seat (layout_of kind) result ≡ seat_of t.now kind position }
{
    match kind {
        Header::ID => single_seat(position, 0),
        Control::ID => single_seat(position, 0),
        Host::ID => single_seat(position, bytes_wire::reference_at(t, Control::HOST).at),
        Hfi::ID => list_seat(t, Hfi::ID, Control::HFI_LIST, position),
        Ssns::ID => list_seat(t, Ssns::ID, Control::SSNS_LIST, position),
        Security::ID => list_seat(t, Security::ID, Control::SECURITY_LIST, position),
        Discovery::ID => list_seat(t, Discovery::ID, Control::DISCOVERY_LIST, position),
        Info::ID => info_seat(t, position),
        Extended::ID => owned_seat(
            t,
            Ssns::ID,
            list_seat(t, Ssns::ID, Control::SSNS_LIST, position),
        ),
        HfiExtended::ID => owned_seat(t, Info::ID, info_seat(t, position)),
        _ => None,
    }
}
