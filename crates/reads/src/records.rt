// The image of a record: of an accepted table for the crates above, which then check nothing again, and of any bytes.
ghost use Rattle.std.specs.Prelude.{◌≡◌, ◌≤◌, length};
ghost use Rattle.table.specs.Bytes.{padded};
ghost use Rattle.table.specs.Layout.{base_of};
ghost use Rattle.table.specs.FixedLayouts.{layout_of};
ghost use Rattle.table.specs.Reads.{seat, seat_of, shown, refused_image, image_at, read_record};
ghost use Rattle.reader.specs.Accepted.{Accepted};

use reads_seats::lent::record_at;
use reads_seats::seats::seat_of;
use table::{Answer, Image};

fn refused_image(a: Answer) -> Image
    ensures { result ≡ refused_image a }
{
    Image {
        answer: a,
        used: false,
        len: 0,
        bytes: [0; 128],
    }
}

// Of the record of a kind whose bytes are `x`: an unused one reads as zeros.
fn image_bytes(x: &[u8], kind: u8, used: bool) -> [u8; 128]
    requires { base_of (layout_of kind) ≤ length x.now }
    ensures { result ≡ padded 128 (shown x.now (layout_of kind) 0 used) }
{
    if used {
        return layout_images::image_at(x, kind);
    }
    [0u8; 128]
}

fn image_of(x: &[u8], kind: u8, used: bool) -> Image
    requires { base_of (layout_of kind) ≤ length x.now }
    ensures { result ≡ image_at x.now (seat (layout_of kind) 0 used) }
{
    let bytes = image_bytes(x, kind, used);
    let len = layout_kinds::base_size(kind);
    let answer = table::done();
    Image {
        answer,
        used,
        len,
        bytes,
    }
}

// The record of a kind and position.
pub fn record_in(t: &[u8], kind: u8, position: usize) -> Image
    requires { Accepted t.now }
    ensures { result ≡ image_at t.now (seat_of t.now kind position) }
{
    match seat_of(t, kind, position) {
        None => refused_image(table::refuse(16, 0, 0)),
        Some(seat) => image_of(record_at(t, kind, seat.at), kind, seat.used),
    }
}

// The same of any bytes: a table that the check does not accept gives the check's answer; then 16 is tested.
pub fn record(t: &[u8], kind: u8, position: usize) -> Image
    ensures { result ≡ read_record t.now kind position }
{
    let a = reader::check(t);
    if a.number != 0 {
        return refused_image(a);
    }
    record_in(t, kind, position)
}
