// The lines of two records of one kind and position: fields and objects by ascending offset, then the heap record that they name.
ghost use Rattle.std.specs.Prelude.{◌≡◌, ◌++◌, ◌+◌, ◌≤◌, ◌<◌, length, take};
ghost use Rattle.table.specs.Layout.{base_of};
ghost use Rattle.table.specs.FixedLayouts.{layout_of};
ghost use Rattle.reader.specs.Accepted.{Accepted};
ghost use Rattle.reads_seats.specs.Objects.{object_in};
ghost use Rattle.reads_seats.specs.Told.{image_of};
ghost use Rattle.changes.specs.Changes.{field_line, object_line, offset_lines, record_lines, texts_of};
ghost use Rattle.changes_records.specs.Told.{own_lines, plain_lines};

use bytes_writer::stores::copy_into;
use changes::lines::{differ_at, field_line, object_line};
use reads::objects::whole_object;
use reads::records::record_in;
use text::Text;

// A field's line where its two values differ.
fn field_text(kind: u8, position: usize, offset: usize, one: &[u8], other: &[u8]) -> Text
    requires { (position < 65536) × (offset < 256) × (length one.now ≤ 16) × (length other.now ≤ 16) }
    ensures { result ≡ texts_of (field_line kind position offset one.now other.now) }
{
    if check::same(one, other) {
        return Text::new();
    }
    field_line(kind, position, offset, one, other)
}

// An object's line where the two objects differ, terminators and all.
fn object_text(t: &[u8], u: &[u8], kind: u8, position: usize, offset: usize) -> Text
    requires { Accepted t.now × Accepted u.now × (position < 65536) × (offset < 256) }
    ensures { result ≡ texts_of (object_line kind position offset (object_in t.now kind position offset) (object_in u.now kind position offset)) }
{
    let one = whole_object(t, kind, position, offset);
    let other = whole_object(u, kind, position, offset);
    if check::same(one, other) {
        return Text::new();
    }
    let at = differ_at(one, other);
    object_line(kind, position, offset, one.len(), other.len(), at)
}

// A text behind the first `at` bytes of `out`; how many are then taken.
pub fn put_text(out: &mut [u8], at: usize, text: &Text) -> usize
    requires { at + 128 ≤ length out.old }
    ensures { (result ≡ at + length text.now) × (result ≤ at + 128) × (take result out.new ≡ take at out.old ++ text.now) × (length out.new ≡ length out.old) }
{
    let end = at + text.len();
    copy_into(out, at, text.as_bytes());
    end
}

// What begins at an offset of two records whose images are `one` and `other`, behind the first `at` bytes of `out`: a field, an object, or, at most
// offsets, nothing that is told here; no text is made for these.
fn put_offset(
    t: &[u8],
    u: &[u8],
    kind: u8,
    position: usize,
    offset: usize,
    one: &[u8],
    other: &[u8],
    out: &mut [u8],
    at: usize,
) -> usize
    requires { Accepted t.now × Accepted u.now × (position < 65536) × (offset < 256) × (base_of (layout_of kind) ≤ length one.now) × (base_of (layout_of kind) ≤ length other.now) × (at + 128 ≤ length out.old) }
    ensures { (at ≤ result) × (result ≤ at + 128) × (take result out.new ≡ take at out.old ++ texts_of (offset_lines kind position (layout_of kind).shape.fields one.now other.now (plain_lines t.now u.now kind position) offset)) × (length out.new ≡ length out.old) }
{
    let width = layout_fields::field_width(kind, offset);
    if width != 0 {
        let end = offset + width;
        let text = field_text(
            kind,
            position,
            offset,
            &one[offset..end],
            &other[offset..end],
        );
        return put_text(out, at, &text);
    }
    if layout_fields::has_object(kind, offset) {
        return put_text(out, at, &object_text(t, u, kind, position, offset));
    }
    at
}

// Fields and objects of two records by their images, behind the first `from` bytes of `out`.
fn image_lines(
    t: &[u8],
    u: &[u8],
    kind: u8,
    position: usize,
    one: &[u8],
    other: &[u8],
    out: &mut [u8],
    from: usize,
) -> usize
    requires { Accepted t.now × Accepted u.now × (position < 65536) × (length one.now ≡ base_of (layout_of kind)) × (length other.now ≡ base_of (layout_of kind)) × (from + 16384 ≤ length out.old) }
    ensures { (from ≤ result) × (result ≤ from + 16384) × (take result out.new ≡ take from out.old ++ texts_of (record_lines kind position (layout_of kind).shape one.now other.now (plain_lines t.now u.now kind position))) × (length out.new ≡ length out.old) }
{
    let mut at = from;
    for offset in 0..one.len() {
        at = put_offset(t, u, kind, position, offset, one, other, out, at);
    }
    at
}

// Fields and objects of two records that are there, behind the first `from` bytes of `out`. The heap record that they name is not among them.
pub fn own_lines(
    t: &[u8],
    u: &[u8],
    kind: u8,
    position: usize,
    out: &mut [u8],
    from: usize,
) -> usize
    requires { Accepted t.now × Accepted u.now × (position < 65536) × (from + 16384 ≤ length out.old) × ((image_of t.now kind position).answer.number ≡ 0) × ((image_of u.now kind position).answer.number ≡ 0) }
    ensures { (from ≤ result) × (result ≤ from + 16384) × (take result out.new ≡ take from out.old ++ texts_of (own_lines t.now u.now kind position)) × (length out.new ≡ length out.old) }
{
    let len = layout_kinds::base_size(kind);
    let x = record_in(t, kind, position);
    let y = record_in(u, kind, position);
    let one = x.bytes;
    let other = y.bytes;
    image_lines(t, u, kind, position, &one[..len], &other[..len], out, from)
}
