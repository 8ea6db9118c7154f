// Records laid anew, each with what it names behind all that was laid before.
#![tactic(auto)]

ghost use Rattle.std.specs.Prelude.{◌≡◌, true, ◌+◌, ◌≤◌, length, replicate};
ghost use Rattle.table.specs.Bytes.{splice};
ghost use Rattle.table.specs.Layout.{base_of};
ghost use Rattle.table.specs.FixedLayouts.{layout_of};
ghost use Rattle.table.specs.Objects.{size_of, patched, heap_of, size_entry, rec_entry, heap_entry};
ghost use Rattle.laws.specs.Fields.{image_in};
ghost use Rattle.reader.specs.Accepted.{Accepted};
ghost use Rattle.reads_seats.specs.Seats.{Seated};
ghost use Rattle.reads_seats.specs.Told.{told_entry};
ghost use Rattle.rewriter_sizes.specs.Parts.{objects_of, held_of, slots_in, spans_over};
ghost use Rattle.rewriter_objects.specs.Laid.{laid, laid_over};

use bytes_writer::stores::fill_zero;
use reads_seats::seats::seat_of;
use rewriter_objects::{lay_held, lay_objects, put_record};

// A used record, and what it names.
fn lay_used(out: &mut [u8], place: usize, next: usize, t: &[u8], kind: u8, source: usize) -> usize
    requires accepted { Accepted t.now × Seated t.now (layout_of kind) source true }
    requires kind_bound { (place + base_of (layout_of kind) ≤ next) × (next + size_of (slots_in (layout_of kind) t.now source) ≤ length out.old) }
    ensures { (result ≡ next + size_of (slots_in (layout_of kind) t.now source)) × (out.new ≡ laid out.old place (patched next (image_in (layout_of kind) t.now source) (slots_in (layout_of kind) t.now source)) next (heap_of next (slots_in (layout_of kind) t.now source))) }
{
    put_record(out, place, t, kind, source);
    let behind = lay_objects(out, place, next, t, kind, source);
    lay_held(out, place, behind, t, kind, source)
}

// An unused record is zeros and names nothing.
fn lay_unused(out: &mut [u8], place: usize, next: usize, kind: u8) -> usize
    requires { place + base_of (layout_of kind) ≤ length out.old }
    ensures { (result ≡ next) × (out.new ≡ splice out.old place (replicate (base_of (layout_of kind)) 0)) }
{
    let size = layout_kinds::base_size(kind);
    fill_zero(out, place, size);
    next
}

// The record of a kind and position, and what it names.
pub fn lay_entry(
    out: &mut [u8],
    place: usize,
    next: usize,
    t: &[u8],
    kind: u8,
    position: usize,
) -> usize
    requires accepted { Accepted t.now }
    requires kind_bound { (place + base_of (layout_of kind) ≤ next) × (next + size_entry (told_entry (layout_of kind) t.now kind position) ≤ length out.old) }
    ensures { (result ≡ next + size_entry (told_entry (layout_of kind) t.now kind position)) × (out.new ≡ laid out.old place (rec_entry next (told_entry (layout_of kind) t.now kind position)) next (heap_entry next (told_entry (layout_of kind) t.now kind position))) }
{
    match seat_of(t, kind, position) {
        None => lay_unused(out, place, next, kind),
        Some(seat) => if seat.used {
            lay_used(out, place, next, t, kind, seat.at)
        } else {
            lay_unused(out, place, next, kind)
        },
    }
}

// The same of a list, by functions of its own: with two callers `lay_objects` and `lay_held` stay functions by themselves, of which the compiler
// then makes a copy for each list, with that kind's constants. A list whose kind names no object, or no heap record, is spared the call, so that
// the walk over a list stays small enough to be copied (docs/PERFORMANCE.md).
fn lay_listed_objects(
    out: &mut [u8],
    place: usize,
    next: usize,
    t: &[u8],
    kind: u8,
    source: usize,
) -> usize
    requires accepted { Accepted t.now × Seated t.now (layout_of kind) source true }
    requires kind_bound { (place + base_of (layout_of kind) ≤ next) × (next + spans_over t.now kind source (objects_of kind) ≤ length out.old) }
    ensures { (result ≡ next + spans_over t.now kind source (objects_of kind)) × (out.new ≡ laid_over out.old place next t.now kind source (objects_of kind)) }
{
    if layout_kinds::object_count(kind) == 0 {
        return next;
    }
    lay_objects(out, place, next, t, kind, source)
}

fn lay_listed_held(
    out: &mut [u8],
    place: usize,
    next: usize,
    t: &[u8],
    kind: u8,
    source: usize,
) -> usize
    requires accepted { Accepted t.now × Seated t.now (layout_of kind) source true }
    requires kind_bound { (place + base_of (layout_of kind) ≤ next) × (next + spans_over t.now kind source (held_of kind) ≤ length out.old) }
    ensures { (result ≡ next + spans_over t.now kind source (held_of kind)) × (out.new ≡ laid_over out.old place next t.now kind source (held_of kind)) }
{
    let all = layout_kinds::reference_offsets(kind).len();
    if all == layout_kinds::object_count(kind) {
        return next;
    }
    lay_held(out, place, next, t, kind, source)
}

fn lay_listed(out: &mut [u8], place: usize, next: usize, t: &[u8], kind: u8, source: usize) -> usize
    requires accepted { Accepted t.now × Seated t.now (layout_of kind) source true }
    requires kind_bound { (place + base_of (layout_of kind) ≤ next) × (next + size_of (slots_in (layout_of kind) t.now source) ≤ length out.old) }
    ensures { (result ≡ next + size_of (slots_in (layout_of kind) t.now source)) × (out.new ≡ laid out.old place (patched next (image_in (layout_of kind) t.now source) (slots_in (layout_of kind) t.now source)) next (heap_of next (slots_in (layout_of kind) t.now source))) }
{
    put_record(out, place, t, kind, source);
    let behind_objects = lay_listed_objects(out, place, next, t, kind, source);
    lay_listed_held(out, place, behind_objects, t, kind, source)
}

// The record at a position of a list.
pub fn lay_position(
    out: &mut [u8],
    place: usize,
    next: usize,
    t: &[u8],
    kind: u8,
    position: usize,
) -> usize
    requires accepted { Accepted t.now }
    requires kind_bound { (place + base_of (layout_of kind) ≤ next) × (next + size_entry (told_entry (layout_of kind) t.now kind position) ≤ length out.old) }
    ensures { (result ≡ next + size_entry (told_entry (layout_of kind) t.now kind position)) × (out.new ≡ laid out.old place (rec_entry next (told_entry (layout_of kind) t.now kind position)) next (heap_entry next (told_entry (layout_of kind) t.now kind position))) }
{
    match seat_of(t, kind, position) {
        None => lay_unused(out, place, next, kind),
        Some(seat) => if seat.used {
            lay_listed(out, place, next, t, kind, seat.at)
        } else {
            lay_unused(out, place, next, kind)
        },
    }
}
