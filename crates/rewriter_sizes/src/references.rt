// The references of a record of an accepted table: the length of what they name, and how many bytes it takes to lay that anew. Those to objects come
// first; behind them stands that to a heap record, if the kind has one.
ghost use Rattle.std.specs.Prelude.{◌≡◌, true, [], ◌≤◌};
ghost use Rattle.table.specs.FixedLayouts.{layout_of};
ghost use Rattle.table.specs.Objects.{size_of};
ghost use Rattle.reader.specs.Accepted.{Accepted};
ghost use Rattle.reads_seats.specs.Seats.{Seated, Held};
ghost use Rattle.rewriter_sizes.specs.Parts.{objects_of, held_of, slots_in, record_part, spans_over};

use reads_by_seat::objects::object_len;
use reads_seats::seats::{Seat, heap_record};
use table::{Extended, Hfi, HfiExtended, Info, Ssns};

// The bytes of all objects that a record names.
fn objects_size(t: &[u8], kind: u8, at: usize) -> usize
    requires { Accepted t.now × Seated t.now (layout_of kind) at true }
    ensures { (result ≡ spans_over t.now kind at (objects_of kind)) × (result ≤ 393210) }
{
    let mut total: usize = 0;
    for &offset in layout_kinds::object_offsets(kind) {
        total += object_len(t, kind, at, offset);
    }
    total
}

// A heap record that names objects alone, with these, which are laid behind it.
fn flat_span(t: &[u8], kind: u8, seat: Option<Seat>) -> usize
    requires { Accepted t.now × Held t.now kind seat × (held_of kind ≡ []) }
    ensures { (result ≡ (record_part t.now kind seat).span) × (result ≤ 400000) }
{
    match seat {
        None => 0,
        Some(held) => {
            let size = layout_kinds::base_size(kind);
            let len = objects_size(t, kind, held.at);
            size + len
        }
    }
}

// The HFI extended info that an info names, with its objects.
fn identity_span(t: &[u8], at: usize) -> usize
    requires { Accepted t.now × Seated t.now (layout_of 7) at true }
    ensures { (result ≡ spans_over t.now 7 at (held_of 7)) × (result ≤ 400000) }
{
    flat_span(t, HfiExtended::ID, heap_record(t, Info::ID, at))
}

// An info with all that it names.
fn info_span(t: &[u8], seat: Option<Seat>) -> usize
    requires { Accepted t.now × Held t.now 7 seat }
    ensures { (result ≡ (record_part t.now 7 seat).span) × (result ≤ 800000) }
{
    match seat {
        None => 0,
        Some(held) => {
            let objects = objects_size(t, Info::ID, held.at);
            let identity = identity_span(t, held.at);
            Info::SIZE + objects + identity
        }
    }
}

// The heap record that a record names, with all that it names itself.
fn held_span(t: &[u8], kind: u8, at: usize) -> usize
    requires { Accepted t.now × Seated t.now (layout_of kind) at true }
    ensures { (result ≡ spans_over t.now kind at (held_of kind)) × (result ≤ 800000) }
{
    match kind {
        Hfi::ID => info_span(t, heap_record(t, Hfi::ID, at)),
        Ssns::ID => flat_span(t, Extended::ID, heap_record(t, Ssns::ID, at)),
        Info::ID => identity_span(t, at),
        _ => 0,
    }
}

// The bytes of all that a record names.
pub fn named_size(t: &[u8], kind: u8, at: usize) -> usize
    requires { Accepted t.now × Seated t.now (layout_of kind) at true }
    ensures { (result ≡ size_of (slots_in (layout_of kind) t.now at)) × (result ≤ 1200000) }
{
    let objects = objects_size(t, kind, at);
    let held = held_span(t, kind, at);
    objects + held
}
