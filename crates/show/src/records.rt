// Which records there are, and the fields that a row reads.
ghost use Rattle.std.specs.Prelude.{◌≡◌, ◌<◌, take};
ghost use Rattle.table.specs.Reads.{field_at, image_at, seat_of};
ghost use Rattle.reader.specs.Accepted.{Accepted};
ghost use Rattle.reads_seats.specs.Told.{count_of};
ghost use Rattle.show_values.specs.Values.{field_text};

use reads::fields::field_in;
use reads::objects::{object_in, place_in};
use reads::records::record_in;
use reads_by_seat::counts::count_of;
use show_table::{Row, row_at};
use show_values::field_text;
use table::{Control, Field, Hfi};
use text::Text;

// The kind of the records of a list.
pub fn kind_of(weight: u64) -> u8 {
    if weight < 256 {
        return weight as u8;
    }
    Control::ID
}

// Positions of a list count from 1; header and host stand at 0.
pub fn first_position(section: u8) -> usize {
    if section < Hfi::ID {
        return 0;
    }
    1
}

// The last position of a list; 0 of header and host, and of a list that is empty.
pub fn last_position(t: &[u8], section: u8) -> usize
    requires { Accepted t.now }
    ensures { (result ≡ count_of t.now section) × (result < 256) }
{
    count_of(t, section)
}

pub fn is_used(t: &[u8], kind: u8, position: usize) -> bool
    requires { Accepted t.now }
    ensures { result ≡ (image_at t.now (seat_of t.now kind position)).used }
{
    let image = record_in(t, kind, position);
    image.used
}

// What a row shows of the record at a position of an accepted table.
#[derive(Clone, Copy)]
pub struct Cell<'a> {
    pub t: &'a [u8],
    pub position: usize,
    pub row: Row,
    pub ghost accepted: { Accepted t.now },
}

// The cell of row `i`.
pub fn cell_at(t: &[u8], position: usize, i: usize) -> Cell<'_>
    requires { Accepted t.now }
{
    Cell {
        t,
        position,
        row: row_at(i),
    }
}

// The field of a row: that of the very field which it names.
pub fn field_of(cell: Cell<'_>) -> Field {
    field_in(cell.t, cell.row.kind, cell.position, cell.row.off)
}

// Whether the record is there of which a row reads a field: some heap records are absent.
pub fn is_there(cell: Cell<'_>) -> bool {
    field_of(cell).answer.number == 0
}

// The number of the field of a row.
pub fn number_of(cell: Cell<'_>) -> u64 {
    show_values::number_of(&field_of(cell).bytes)
}

// The number of the other field that a row names.
pub fn other_number(cell: Cell<'_>) -> u64 {
    show_values::number_of(&field_in(cell.t, cell.row.kind, cell.position, cell.row.by).bytes)
}

// Whether the object of a row is there.
pub fn is_present(cell: Cell<'_>) -> bool {
    place_in(cell.t, cell.row.kind, cell.position, cell.row.off).present
}

// The object of a row.
pub fn object_of(cell: Cell<'_>) -> &[u8] {
    object_in(cell.t, cell.row.kind, cell.position, cell.row.off)
}

// The text of the field of a row: that of the very field which the row names, by the other one that it names.
pub fn text_in(cell: Cell<'_>) -> Text
    ensures { result ≡ field_text cell.entry.row.form cell.entry.row.weight (field_at cell.entry.t.now cell.entry.row.off (seat_of cell.entry.t.now cell.entry.row.kind cell.entry.position)).bytes (field_at cell.entry.t.now cell.entry.row.by (seat_of cell.entry.t.now cell.entry.row.kind cell.entry.position)).bytes }
{
    let field = field_in(cell.t, cell.row.kind, cell.position, cell.row.off);
    let other = field_in(cell.t, cell.row.kind, cell.position, cell.row.by);
    field_text(cell.row.form, cell.row.weight, &field.bytes, &other.bytes)
}
