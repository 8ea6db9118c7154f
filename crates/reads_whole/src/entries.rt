// The entry of a record: kind, position, whether it is used and how long its image is; the image; where its objects stand.
ghost use Rattle.std.specs.Prelude.{◌≡◌, [], ◌∷◌, ◌+◌, ◌%◌, ◌≤◌, length};
ghost use Rattle.table.specs.Bytes.{pick, splice, padded};
ghost use Rattle.table.specs.Layout.{base_of};
ghost use Rattle.table.specs.FixedLayouts.{layout_of};
ghost use Rattle.table.specs.Reads.{nowhere, seat, shown};
ghost use Rattle.reader.specs.Accepted.{Accepted};
ghost use Rattle.reads_whole.specs.Whole.{place_bytes, places_of, entry_of, entry_at};

use bytes_writer::stores::{copy_into, fill_zero, low, put_ref, put_u8};
use reads::objects::place_of;
use reads_seats::lent::record_at;
use reads_seats::seats::seat_of;
use table::Place;

// A flag as the byte that an entry has for it.
fn bit(set: bool) -> u8
    ensures { result ≡ pick set 1 0 }
{
    u8::from(set)
}

fn put_place(part: &mut [u8], at: usize, place: Place)
    requires { at + 8 ≤ length part.old }
    ensures { part.new ≡ splice part.old at (place_bytes place) }
{
    put_ref(part, at, place.at, place.len);
    put_u8(part, at + 6, bit(place.present));
    put_u8(part, at + 7, 0);
}

// Where the objects of the record of a kind stand whose bytes are `x`, into a part that they fill.
fn put_places(part: &mut [u8], x: &[u8], kind: u8, used: bool)
    requires { (length part.old ≡ 48) × (base_of (layout_of kind) ≤ length x.now) }
    ensures { part.new ≡ places_of x.now kind (seat (layout_of kind) 0 used) }
{
    fill_zero(part, 0, 48);
    for (i, &offset) in layout_kinds::object_offsets(kind).iter().enumerate() {
        put_place(part, 8 * i, place_of(x, kind, used, offset));
    }
}

// Its image, into a part that this fills with zeros behind it; an unused record reads as zeros.
fn put_image(part: &mut [u8], x: &[u8], kind: u8, used: bool)
    requires { (length part.old ≡ 128) × (base_of (layout_of kind) ≤ length x.now) }
    ensures { part.new ≡ padded 128 (shown x.now (layout_of kind) 0 used) }
{
    fill_zero(part, 0, 128);
    if used {
        layout_images::put_image(part, 0, x, kind);
    }
}

// What stands in front of both.
fn put_head(part: &mut [u8], kind: u8, position: usize, used: bool, len: usize)
    requires { length part.old ≡ 8 }
    ensures { part.new ≡ kind ∷ position % 256 ∷ pick used 1 0 ∷ len % 256 ∷ 0 ∷ 0 ∷ 0 ∷ 0 ∷ [] }
{
    let head = [kind, low(position), bit(used), low(len), 0, 0, 0, 0];
    copy_into(part, 0, &head);
}

// The entry of that record, into a part that it fills.
fn put_found(part: &mut [u8], x: &[u8], kind: u8, position: usize, used: bool)
    requires { (length part.old ≡ 184) × (base_of (layout_of kind) ≤ length x.now) }
    ensures { part.new ≡ entry_of x.now kind position (seat (layout_of kind) 0 used) }
{
    let size = layout_kinds::base_size(kind);
    put_head(&mut part[0..8], kind, position, used, size);
    put_image(&mut part[8..136], x, kind, used);
    put_places(&mut part[136..184], x, kind, used);
}

// The entry of a heap record that is not there.
fn put_none(part: &mut [u8], t: &[u8], kind: u8, position: usize)
    requires { length part.old ≡ 184 }
    ensures { part.new ≡ entry_of t.now kind position nowhere }
{
    put_head(&mut part[0..8], kind, position, false, 0);
    fill_zero(part, 8, 176);
}

// The entry of the record of a kind and position.
pub fn put_entry(part: &mut [u8], t: &[u8], kind: u8, position: usize)
    requires { Accepted t.now × (length part.old ≡ 184) }
    ensures { part.new ≡ entry_at t.now kind position }
{
    match seat_of(t, kind, position) {
        None => put_none(part, t, kind, position),
        Some(seat) => put_found(part, record_at(t, kind, seat.at), kind, position, seat.used),
    }
}
