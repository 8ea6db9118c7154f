// A field of a record: of an accepted table, and of any bytes.
ghost use Rattle.std.specs.Prelude.{◌≡◌, ◌+◌, ◌≤◌, length};
ghost use Rattle.table.specs.Bytes.{part, padded};
ghost use Rattle.table.specs.Layout.{base_of};
ghost use Rattle.table.specs.FixedLayouts.{layout_of};
ghost use Rattle.table.specs.Reads.{seat, seat_of, shown, refused_field, field_at, read_field};
ghost use Rattle.reader.specs.Accepted.{Accepted};

use reads_seats::lent::record_at;
use reads_seats::seats::seat_of;
use table::{Answer, Field};

fn refused_field(a: Answer) -> Field
    ensures { result ≡ refused_field a }
{
    Field {
        answer: a,
        used: false,
        len: 0,
        bytes: [0; 16],
    }
}

// Of the record of a kind whose bytes are `x`: an unused one reads as zeros.
fn field_bytes(x: &[u8], kind: u8, used: bool, off: usize, len: usize) -> [u8; 16]
    requires { (base_of (layout_of kind) ≤ length x.now) × (off + len ≤ base_of (layout_of kind)) × (len ≤ 16) }
    ensures { result ≡ padded 16 (part (shown x.now (layout_of kind) 0 used) off len) }
{
    if used {
        return layout_images::field_at(x, kind, off, len);
    }
    [0u8; 16]
}

fn field_of(x: &[u8], kind: u8, used: bool, off: usize) -> Field
    requires { base_of (layout_of kind) ≤ length x.now }
    ensures { result ≡ field_at x.now off (seat (layout_of kind) 0 used) }
{
    let len = layout_fields::field_width(kind, off);
    if len == 0 {
        return refused_field(table::refuse(16, 0, 0));
    }
    let bytes = field_bytes(x, kind, used, off, len);
    let answer = table::done();
    Field {
        answer,
        used,
        len,
        bytes,
    }
}

// The field at `off` of the record of a kind and position.
pub fn field_in(t: &[u8], kind: u8, position: usize, off: usize) -> Field
    requires { Accepted t.now }
    ensures { result ≡ field_at t.now off (seat_of t.now kind position) }
{
    match seat_of(t, kind, position) {
        None => refused_field(table::refuse(16, 0, 0)),
        Some(seat) => field_of(record_at(t, kind, seat.at), kind, seat.used, off),
    }
}

// The same of any bytes.
pub fn field(t: &[u8], kind: u8, position: usize, off: usize) -> Field
    ensures { result ≡ read_field t.now kind position off }
{
    let a = reader::check(t);
    if a.number != 0 {
        return refused_field(a);
    }
    field_in(t, kind, position, off)
}
