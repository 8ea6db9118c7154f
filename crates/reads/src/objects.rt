// The object of a reference, by kind and position: where it stands, and the caller's own bytes there; of an accepted table, and of any bytes.
ghost use Rattle.std.specs.Prelude.{◌≡◌, ◌+◌, ◌≤◌, length};
ghost use Rattle.table.specs.Layout.{base_of};
ghost use Rattle.table.specs.FixedLayouts.{layout_of};
ghost use Rattle.table.specs.Reads.{seat, seat_of, whole_at, place_at, read_place, read_object};
ghost use Rattle.reader.specs.Accepted.{Accepted};
ghost use Rattle.reads_seats.specs.Objects.{object_in, handed_len, handed_place, handed_in};

use reads_seats::lent::{heap_part, part_of, record_at};
use reads_seats::objects::{no_place, object_of};
use reads_seats::seats::seat_of;
use table::Place;

// The whole object, with the byte that ends it where it is text: of the record of a kind whose bytes are `x`.
fn whole_of(x: &[u8], kind: u8, used: bool, off: usize) -> Place
    requires { base_of (layout_of kind) ≤ length x.now }
    ensures { result ≡ whole_at x.now off (seat (layout_of kind) 0 used) }
{
    if layout_fields::has_object(kind, off) {
        return object_of(x, kind, used, off);
    }
    no_place(table::refuse(16, 0, 0))
}

// Where the whole object of the reference at `off` stands, of the record of a kind and position.
fn whole_in(t: &[u8], kind: u8, position: usize, off: usize) -> Place
    requires { Accepted t.now }
    ensures { result ≡ whole_at t.now off (seat_of t.now kind position) }
{
    match seat_of(t, kind, position) {
        None => no_place(table::refuse(16, 0, 0)),
        Some(seat) => whole_of(record_at(t, kind, seat.at), kind, seat.used, off),
    }
}

// That object, a part of the heap; empty where refused or absent.
pub fn whole_object(t: &[u8], kind: u8, position: usize, off: usize) -> &[u8]
    requires { Accepted t.now }
    ensures { (result.now ≡ object_in t.now kind position off) × (result.ref_ptr.0 ≡ t.entry.ref_ptr.0) × (result.ref_ptr.1 ≡ t.entry.ref_ptr.1 + (whole_at t.now off (seat_of t.now kind position)).at) }
{
    let p = whole_in(t, kind, position, off);
    let at = p.at;
    let len = p.len;
    heap_part(t, at, len)
}

// How much of `len` bytes is handed back: text without the byte that ends it.
fn handed_len(kind: u8, off: usize, len: usize) -> usize
    ensures { (result ≡ handed_len kind off len) × (result ≤ len) }
{
    if !layout_fields::texts::holds_text(kind, off) {
        return len;
    }
    if len == 0 {
        return 0;
    }
    len - 1
}

// What is handed back of a whole object: where it stands.
fn handed(whole: Place, kind: u8, off: usize) -> Place
    ensures { result ≡ handed_place kind off whole }
{
    let len = handed_len(kind, off, whole.len);
    Place { len, ..whole }
}

// Of the record of a kind whose bytes are `x`.
pub fn place_of(x: &[u8], kind: u8, used: bool, off: usize) -> Place
    requires { base_of (layout_of kind) ≤ length x.now }
    ensures { result ≡ place_at x.now off (seat (layout_of kind) 0 used) }
{
    handed(whole_of(x, kind, used, off), kind, off)
}

// Of the record of a kind and position.
pub fn place_in(t: &[u8], kind: u8, position: usize, off: usize) -> Place
    requires { Accepted t.now }
    ensures { result ≡ place_at t.now off (seat_of t.now kind position) }
{
    handed(whole_in(t, kind, position, off), kind, off)
}

// And the bytes, from the whole object's first on: so an empty text starts where it stands, and what is absent where the table does.
pub fn object_in(t: &[u8], kind: u8, position: usize, off: usize) -> &[u8]
    requires { Accepted t.now }
    ensures { (result.now ≡ handed_in t.now kind position off) × (result.ref_ptr.0 ≡ t.entry.ref_ptr.0) × (result.ref_ptr.1 ≡ t.entry.ref_ptr.1 + (place_at t.now off (seat_of t.now kind position)).at) }
{
    let whole = whole_object(t, kind, position, off);
    let len = handed_len(kind, off, whole.len());
    part_of(whole, 0, len)
}

// The same two of any bytes: first where the object stands.
pub fn object_place(t: &[u8], kind: u8, position: usize, off: usize) -> Place
    ensures { result ≡ read_place t.now kind position off }
{
    let a = reader::check(t);
    if a.number != 0 {
        return no_place(a);
    }
    place_in(t, kind, position, off)
}

// The object: exactly the caller's own part, by its bytes and by where it starts.
pub fn object(t: &[u8], kind: u8, position: usize, off: usize) -> &[u8]
    ensures { (result.now ≡ read_object t.now kind position off) × (result.ref_ptr.0 ≡ t.entry.ref_ptr.0) × (result.ref_ptr.1 ≡ t.entry.ref_ptr.1 + (read_place t.now kind position off).at) }
{
    let a = reader::check(t);
    if a.number != 0 {
        return part_of(t, 0, 0);
    }
    object_in(t, kind, position, off)
}
