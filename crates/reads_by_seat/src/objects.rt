// The objects of a used record of a kind.
ghost use Rattle.std.specs.Prelude.{◌≡◌, ◌+◌, ◌<◌, ◌≤◌, true, false, length};
ghost use Rattle.table.specs.Bytes.{part};
ghost use Rattle.table.specs.Layout.{base_of};
ghost use Rattle.table.specs.FixedLayouts.{layout_of};
ghost use Rattle.table.specs.Objects.{under};
ghost use Rattle.table.specs.Reads.{seat, whole_at, has_plain, need_at};
ghost use Rattle.laws.specs.Fields.{image_in};
ghost use Rattle.reader.specs.Accepted.{Accepted};
ghost use Rattle.reads_seats.specs.Seats.{Seated};

use reads_seats::lent::{heap_part, part_of, record_at};
use table::{HfiExtended, Need, Security};

// Whether a reference that is needed so counts.
fn heeds(need: Need) -> bool
    ensures { result ≡ under need false true }
{
    !matches!(need, Need::Ignored)
}

// Whether a reference to an object of the record with these bytes counts. Only security records and HFI extended infos ignore any.
fn counts(bytes: &[u8], kind: u8, offset: usize) -> bool
    requires { (base_of (layout_of kind) ≤ length bytes.now) × (has_plain offset (layout_of kind).refs ≡ true) }
    ensures { result ≡ under (need_at offset (layout_of kind).refs (image_in (layout_of kind) bytes.now 0)) false true }
{
    match kind {
        Security::ID => heeds(layout_needs::security_need(bytes, 0, offset)),
        HfiExtended::ID => heeds(layout_needs::identity_need(bytes, offset)),
        _ => true,
    }
}

// The length of the object that a reference of the record with these bytes names.
fn named_len(bytes: &[u8], kind: u8, offset: usize) -> usize
    requires { (base_of (layout_of kind) ≤ length bytes.now) × (has_plain offset (layout_of kind).refs ≡ true) }
    ensures { (result ≡ (whole_at bytes.now offset (seat (layout_of kind) 0 true)).len) × (result ≤ 65535) }
{
    if counts(bytes, kind, offset) {
        return bytes_wire::reference_at(bytes, offset).len;
    }
    0
}

// The same of the record at a place. All that is known of it here is that it lies in the table.
pub fn object_len(t: &[u8], kind: u8, at: usize, offset: usize) -> usize
    requires { (at + base_of (layout_of kind) ≤ length t.now) × (has_plain offset (layout_of kind).refs ≡ true) }
    ensures { (result ≡ (whole_at t.now offset (seat (layout_of kind) at true)).len) × (result ≤ 65535) }
{
    named_len(part_of(t, at, layout_kinds::base_size(kind)), kind, offset)
}

// An object of `len` bytes, which is its length and not 0: the caller's own bytes, exactly that part of the heap.
pub fn object_bytes(t: &[u8], kind: u8, at: usize, offset: usize, len: usize) -> &[u8]
    requires accepted { Accepted t.now × Seated t.now (layout_of kind) at true × (has_plain offset (layout_of kind).refs ≡ true) }
    requires len_value { (len ≡ (whole_at t.now offset (seat (layout_of kind) at true)).len) × (0 < len) }
    ensures { result.now ≡ part t.now (whole_at t.now offset (seat (layout_of kind) at true)).at (whole_at t.now offset (seat (layout_of kind) at true)).len }
{
    let named = bytes_wire::reference_at(record_at(t, kind, at), offset);
    heap_part(t, named.at, len)
}

// The object itself: the caller's own bytes, exactly that part; none where it is absent.
pub fn object_part(t: &[u8], kind: u8, at: usize, offset: usize) -> &[u8]
    requires { Accepted t.now × Seated t.now (layout_of kind) at true × (has_plain offset (layout_of kind).refs ≡ true) }
    ensures { result.now ≡ part t.now (whole_at t.now offset (seat (layout_of kind) at true)).at (whole_at t.now offset (seat (layout_of kind) at true)).len }
{
    let len = object_len(t, kind, at, offset);
    if len == 0 {
        return part_of(t, 0, 0);
    }
    object_bytes(t, kind, at, offset, len)
}
