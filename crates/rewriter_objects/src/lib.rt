// What the references of a record name, laid anew where the heap goes on, and the references in the record laid. Those to objects come first; behind
// them stands that to a heap record, if the kind has one.
#![tactic(auto)]

ghost use Rattle.std.specs.Prelude.{◌≡◌, true, [], ◌+◌, ◌≤◌, length};
ghost use Rattle.table.specs.Bytes.{splice};
ghost use Rattle.table.specs.Layout.{base_of};
ghost use Rattle.table.specs.FixedLayouts.{layout_of};
ghost use Rattle.table.specs.Reads.{has_plain};
ghost use Rattle.laws.specs.Fields.{image_in};
ghost use Rattle.bytes_writer.specs.Stores.{ref_num};
ghost use Rattle.reader.specs.Accepted.{Accepted};
ghost use Rattle.reads_seats.specs.Seats.{Seated, Held, found};
ghost use Rattle.rewriter_sizes.specs.Parts.{objects_of, held_of, record_part, part_at, record_bytes, bytes_at, spans_over};
ghost use Rattle.rewriter_objects.specs.Laid.{laid, laid_over};

use bytes_writer::records::put_slot;
use bytes_writer::stores::copy_into;
use reads_by_seat::image::image_into;
use reads_by_seat::objects::{object_bytes, object_len};
use reads_seats::seats::{Seat, heap_record};
use table::{Extended, Hfi, HfiExtended, Info, Ssns};

// The image of a used record, into its own part of `out`.
pub fn put_record(out: &mut [u8], place: usize, t: &[u8], kind: u8, source: usize)
    requires { Accepted t.now × Seated t.now (layout_of kind) source true × (place + base_of (layout_of kind) ≤ length out.old) }
    ensures { out.new ≡ splice out.old place (image_in (layout_of kind) t.now source) }
{
    let end = place + layout_kinds::base_size(kind);
    image_into(&mut out[place..end], t, kind, source);
}

// The object that a reference names, and the reference in the record laid.
fn lay_object(
    out: &mut [u8],
    place: usize,
    next: usize,
    t: &[u8],
    kind: u8,
    source: usize,
    offset: usize,
) -> usize
    requires accepted { Accepted t.now × Seated t.now (layout_of kind) source true × (has_plain offset (layout_of kind).refs ≡ true) }
    requires offset_bound { (place + offset + 6 ≤ next) × (next + (part_at t.now kind source offset).span ≤ length out.old) }
    ensures { (result ≡ next + (part_at t.now kind source offset).span) × (out.new ≡ laid out.old (place + offset) (ref_num next (part_at t.now kind source offset).len) next (bytes_at t.now kind source next offset)) }
{
    let len = object_len(t, kind, source, offset);
    put_slot(out, place + offset, next, len);
    if len == 0 {
        return next;
    }
    copy_into(out, next, object_bytes(t, kind, source, offset, len));
    next + len
}

// The objects that a record names, one behind the other, and the references to them.
pub fn lay_objects(
    out: &mut [u8],
    place: usize,
    next: usize,
    t: &[u8],
    kind: u8,
    source: usize,
) -> usize
    requires accepted { Accepted t.now × Seated t.now (layout_of kind) source true }
    requires kind_bound { (place + base_of (layout_of kind) ≤ next) × (next + spans_over t.now kind source (objects_of kind) ≤ length out.old) }
    ensures { (result ≡ next + spans_over t.now kind source (objects_of kind)) × (out.new ≡ laid_over out.old place next t.now kind source (objects_of kind)) }
{
    let mut cursor = next;
    for &offset in layout_kinds::object_offsets(kind) {
        cursor = lay_object(out, place, cursor, t, kind, source, offset);
    }
    cursor
}

// A heap record that names objects alone, with these right behind it, and the reference to it at `slot` of the output.
fn lay_flat(out: &mut [u8], slot: usize, next: usize, t: &[u8], kind: u8, source: usize) -> usize
    requires accepted { Accepted t.now × Seated t.now (layout_of kind) source true × (held_of kind ≡ []) }
    requires slot_bound { (slot + 6 ≤ next) × (next + (record_part t.now kind (found source true)).span ≤ length out.old) }
    ensures { (result ≡ next + (record_part t.now kind (found source true)).span) × (out.new ≡ laid out.old slot (ref_num next (record_part t.now kind (found source true)).len) next (record_bytes t.now kind next (found source true))) }
{
    let size = layout_kinds::base_size(kind);
    put_slot(out, slot, next, size);
    put_record(out, next, t, kind, source);
    lay_objects(out, next, next + size, t, kind, source)
}

// The same where there may be none.
fn lay_flat_record(
    out: &mut [u8],
    slot: usize,
    next: usize,
    t: &[u8],
    kind: u8,
    seat: Option<Seat>,
) -> usize
    requires accepted { Accepted t.now × Held t.now kind seat × (held_of kind ≡ []) }
    requires slot_bound { (slot + 6 ≤ next) × (next + (record_part t.now kind seat).span ≤ length out.old) }
    ensures { (result ≡ next + (record_part t.now kind seat).span) × (out.new ≡ laid out.old slot (ref_num next (record_part t.now kind seat).len) next (record_bytes t.now kind next seat)) }
{
    match seat {
        None => {
            put_slot(out, slot, next, 0);
            next
        }
        Some(held) => lay_flat(out, slot, next, t, kind, held.at),
    }
}

// The HFI extended info that an info names, with its objects, and the reference in the info laid.
fn lay_identity(out: &mut [u8], place: usize, next: usize, t: &[u8], source: usize) -> usize
    requires accepted { Accepted t.now × Seated t.now (layout_of 7) source true }
    requires layout_of_bound { (place + base_of (layout_of 7) ≤ next) × (next + spans_over t.now 7 source (held_of 7) ≤ length out.old) }
    ensures { (result ≡ next + spans_over t.now 7 source (held_of 7)) × (out.new ≡ laid_over out.old place next t.now 7 source (held_of 7)) }
{
    let seat = heap_record(t, Info::ID, source);
    lay_flat_record(out, place + 110, next, t, HfiExtended::ID, seat)
}

// An info, with what it names right behind it, and the reference to it at `slot` of the output.
fn lay_info(out: &mut [u8], slot: usize, next: usize, t: &[u8], source: usize) -> usize
    requires accepted { Accepted t.now × Seated t.now (layout_of 7) source true }
    requires slot_bound { (slot + 6 ≤ next) × (next + (record_part t.now 7 (found source true)).span ≤ length out.old) }
    ensures { (result ≡ next + (record_part t.now 7 (found source true)).span) × (out.new ≡ laid out.old slot (ref_num next (record_part t.now 7 (found source true)).len) next (record_bytes t.now 7 next (found source true))) }
{
    put_slot(out, slot, next, Info::SIZE);
    put_record(out, next, t, Info::ID, source);
    let behind = lay_objects(out, next, next + Info::SIZE, t, Info::ID, source);
    lay_identity(out, next, behind, t, source)
}

// The same where there may be none.
fn lay_info_record(out: &mut [u8], slot: usize, next: usize, t: &[u8], seat: Option<Seat>) -> usize
    requires accepted { Accepted t.now × Held t.now 7 seat }
    requires slot_bound { (slot + 6 ≤ next) × (next + (record_part t.now 7 seat).span ≤ length out.old) }
    ensures { (result ≡ next + (record_part t.now 7 seat).span) × (out.new ≡ laid out.old slot (ref_num next (record_part t.now 7 seat).len) next (record_bytes t.now 7 next seat)) }
{
    match seat {
        None => {
            put_slot(out, slot, next, 0);
            next
        }
        Some(held) => lay_info(out, slot, next, t, held.at),
    }
}

// The heap record that a record names, with all that it names itself, and the reference in the record laid.
pub fn lay_held(
    out: &mut [u8],
    place: usize,
    next: usize,
    t: &[u8],
    kind: u8,
    source: usize,
) -> usize
    requires accepted { Accepted t.now × Seated t.now (layout_of kind) source true }
    requires kind_bound { (place + base_of (layout_of kind) ≤ next) × (next + spans_over t.now kind source (held_of kind) ≤ length out.old) }
    ensures { (result ≡ next + spans_over t.now kind source (held_of kind)) × (out.new ≡ laid_over out.old place next t.now kind source (held_of kind)) }
{
    match kind {
        Hfi::ID => {
            let info = heap_record(t, Hfi::ID, source);
            lay_info_record(out, place + 16, next, t, info)
        }
        Ssns::ID => {
            let extended = heap_record(t, Ssns::ID, source);
            lay_flat_record(out, place + 60, next, t, Extended::ID, extended)
        }
        Info::ID => lay_identity(out, place, next, t, source),
        _ => next,
    }
}
