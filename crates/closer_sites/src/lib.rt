// A walk over the sites of a table: the references that count and are present, in the order of the one form. Each step looks at one reference, or goes
// on to the next record. In every kind the reference to a heap record is the last one, so that nothing is to be kept for the way back.
#![tactic(auto)]

ghost use Rattle.std.specs.Prelude.{◌≡◌, ◌+◌, ◌≤◌, ◌<◌, length, get_or};
ghost use Rattle.table.specs.Layout.{base_of, offsets};
ghost use Rattle.table.specs.FixedLayouts.{layout_of};
ghost use Rattle.reader_frame.specs.Bounds.{LaidOut};
ghost use Rattle.reads_seats.specs.Seats.{nest_at};
ghost use Rattle.reads_seats.specs.Told.{inner_kind};
ghost use Rattle.closer_sites.specs.Walk.{walk, begun, ref_count, len_at, named_at, onward_of, nothing, first_of, host_of, list_of, record_of, step_of, Walkable};

use reads_by_seat::objects::object_len;
use reads_seats::lent::part_of;
use reads_seats::seats::{heap_record, is_used, list_seat};
use table::{Control, Extended, Header, Hfi, HfiExtended, Host, Info};

// Past the last list.
pub const END: u8 = 7;

// Where the walk stands: before reference `next` of the record of a kind at a place. Behind that record come those of a list from a position on, the first
// of them at 0, and then the further lists; the host counts as a list here.
#[derive(Clone, Copy)]
pub struct Walk {
    pub list: u8,
    pub position: usize,
    pub kind: u8,
    pub at: usize,
    pub next: usize,
}

// What a reference names: where it stands itself, its two halves, and the kind of a heap record or 0. The length is 0 where it names nothing or is ignored.
#[derive(Clone, Copy)]
pub struct Named {
    pub at: usize,
    pub off: usize,
    pub len: usize,
    pub kind: u8,
}

// What one step found, and where it left the walk.
#[derive(Clone, Copy)]
pub struct Stepped {
    pub named: Named,
    pub walk: Walk,
}

fn walk_of(list: u8, position: usize, kind: u8, at: usize, next: usize) -> Walk
    ensures { result ≡ walk list position kind at next }
{
    Walk {
        list,
        position,
        kind,
        at,
        next,
    }
}

// Before the header's reference.
pub fn first() -> Walk
    ensures { result ≡ begun }
{
    walk_of(Host::ID, 0, Header::ID, 0, 0)
}

// The kind of heap record that a record of a kind names.
fn held_kind(kind: u8) -> u8
    ensures { result ≡ inner_kind kind }
{
    match kind {
        Hfi::ID => Info::ID,
        Info::ID => HfiExtended::ID,
        _ => Extended::ID,
    }
}

// The length of that heap record.
fn held_len(t: &[u8], kind: u8, at: usize, offset: usize) -> usize
    requires { (at + base_of (layout_of kind) ≤ length t.now) × (offset ≡ nest_at kind) × (offset + 6 ≤ base_of (layout_of kind)) }
    ensures { (result ≡ len_at t.now kind at offset) × (result < 65536) }
{
    match heap_record(t, kind, at) {
        None => 0,
        Some(_) => bytes_wire::reference_at(t, at + offset).len,
    }
}

// What reference `next` of a record names, which stands at `offset` in it.
fn named_at(t: &[u8], kind: u8, at: usize, next: usize, offset: usize) -> Named
    requires { (at + base_of (layout_of kind) ≤ length t.now) × (next < ref_count kind) × (offset ≡ get_or (offsets (layout_of kind).refs) next 0) }
    ensures { (result ≡ named_at t.now kind at next) × (result.off < 4294967296) × (result.len < 65536) }
{
    let off = bytes_wire::reference_at(t, at + offset).at;
    if next < layout_kinds::object_count(kind) {
        return Named {
            at: at + offset,
            off,
            len: object_len(t, kind, at, offset),
            kind: 0,
        };
    }
    Named {
        at: at + offset,
        off,
        len: held_len(t, kind, at, offset),
        kind: held_kind(kind),
    }
}

// On from a reference: into the heap record that it names, else to the next one.
fn onward(w: Walk, named: Named) -> Walk
    requires { w.next < 6 }
    ensures { result ≡ onward_of w named }
{
    if named.len == 0 || named.kind == 0 {
        return Walk {
            next: w.next + 1,
            ..w
        };
    }
    Walk {
        kind: named.kind,
        at: named.off,
        next: 0,
        ..w
    }
}

// The first reference to look at: an unused record has none that count.
fn first_of(kind: u8, used: bool) -> usize
    ensures { result ≡ first_of kind used }
{
    if used {
        return 0;
    }
    layout_kinds::reference_offsets(kind).len()
}

fn to_host(t: &[u8]) -> Walk
    requires { LaidOut t.now }
    ensures { result ≡ host_of t.now }
{
    let at = bytes_wire::reference_at(t, Control::HOST).at;
    let used = is_used(part_of(t, at, Host::SIZE), Host::ID);
    walk_of(Hfi::ID, 0, Host::ID, at, first_of(Host::ID, used))
}

// The next record of a list, or the list behind it. A list's entry in the control record has eight bytes.
fn to_listed(t: &[u8], w: Walk) -> Walk
    requires { LaidOut t.now × (3 ≤ w.list) × (w.list < 7) × (w.position ≤ 255) }
    ensures { result ≡ list_of t.now w }
{
    let entry = 56 + 8 * bytes_wire::wide(w.list);
    let seat = list_seat(t, w.list, entry, w.position + 1);
    match seat {
        None => walk_of(w.list + 1, 0, w.kind, w.at, w.next),
        Some(there) => walk_of(
            w.list,
            w.position + 1,
            w.list,
            there.at,
            first_of(w.list, there.used),
        ),
    }
}

fn to_record(t: &[u8], w: Walk) -> Walk
    requires { LaidOut t.now × (2 ≤ w.list) × (w.list < 7) × (w.position ≤ 255) }
    ensures { result ≡ record_of t.now w }
{
    if w.list == Host::ID {
        return to_host(t);
    }
    to_listed(t, w)
}

fn none_named() -> Named
    ensures { result ≡ nothing }
{
    Named {
        at: 0,
        off: 0,
        len: 0,
        kind: 0,
    }
}

// One step of a walk that has not ended. The bounds let a caller add offset and length without a wrap.
pub fn step(t: &[u8], w: Walk) -> Stepped
    requires { LaidOut t.now × Walkable (length t.now) w × (w.list < 7) }
    ensures { (result ≡ step_of t.now w) × (result.named.off < 4294967296) × (result.named.len < 65536) }
{
    let next = w.next;
    let refs = layout_kinds::reference_offsets(w.kind);
    if next < refs.len() {
        let named = named_at(t, w.kind, w.at, next, refs[next]);
        return Stepped {
            named,
            walk: onward(w, named),
        };
    }
    Stepped {
        named: none_named(),
        walk: to_record(t, w),
    }
}
