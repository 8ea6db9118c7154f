// What is shown of a table, row by row: what is read, how it is printed, and where people see it. The definitions have the same rows with their keys.
#![tactic(auto)]

pub mod forms; // the ways of printing
pub mod names; // the rows' keys and titles

ghost use Rattle.std.specs.Prelude.{◌≡◌};
ghost use Rattle.show_table.specs.Shown.{end_of, first_of, line_at};

use forms::View::{Column, Detail, Json, Lines};
use forms::{Form, View};
use std::ops::Range;
use table::{Control, Discovery, Extended, Header, Hfi, HfiExtended, Host, Info, Security, Ssns};

// Kind and offset of what is read, the way it is printed, the weight of a bit (or the kind of a list's records), the offset of another field, and
// where people see it.
#[derive(Clone, Copy)]
pub struct Row {
    pub kind: u8,
    pub off: usize,
    pub form: Form,
    pub weight: u64,
    pub by: usize,
    pub view: View,
}

// A row that reads nothing.
const NO_ROW: Row = Row {
    kind: Header::ID,
    off: 0,
    form: Form::Nothing,
    weight: 0,
    by: 0,
    view: View::Json,
};

// A row by kind, offset, form and view; weight and the other field's offset are 0 where they are not given.
macro_rules! row {
    ($kind:expr, $off:expr, $form:ident, $view:expr $(, weight: $weight:expr)? $(, by: $by:expr)?) => {
        Row { kind: $kind, off: $off, form: Form::$form, view: $view, $(weight: $weight,)? $(by: $by,)? ..NO_ROW }
    };
}

// Section by section, in the order in which they are shown. A static: with a constant in its place the check of `row_at` runs out of memory.
static ROWS: [Row; 100] = [
    // table
    row!(Header::ID, 0, Single, Lines),
    row!(Host::ID, 0, Single, Lines),
    row!(Control::ID, 95, Listed, Lines, weight: 4),
    row!(Control::ID, 87, Listed, Lines, weight: 3),
    row!(Control::ID, 111, Listed, Lines, weight: 6),
    row!(Control::ID, 103, Listed, Lines, weight: 5),
    row!(Control::ID, 0, Unused, Json),
    // header
    row!(Header::ID, 10, Name, Column(0)),
    row!(Header::ID, 16, Name, Column(1)),
    row!(Header::ID, 24, Number, Column(2)),
    row!(Header::ID, 28, Name, Column(3)),
    row!(Header::ID, 32, Number, Column(4)),
    row!(Header::ID, 44, BytesText, Column(5)),
    // host
    row!(Host::ID, 18, Text, Column(1)),
    row!(Host::ID, 2, Uuid, Column(0)),
    row!(Host::ID, 1, Flag, Lines, weight: 2),
    row!(Host::ID, 1, Flag, Lines, weight: 4),
    row!(Host::ID, 1, NotIndicated, Json),
    row!(Host::ID, 1, Number, Detail),
    row!(Host::ID, 1, Primary, Lines, weight: 8),
    // subsystem
    row!(Ssns::ID, 1, Position, Column(0)),
    row!(Ssns::ID, 48, HfiCount, Json, by: 46),
    row!(Ssns::ID, 48, Hfis, Column(5), by: 46),
    row!(Ssns::ID, 5, Transport, Column(2)),
    row!(Ssns::ID, 10, Reached, Column(3)),
    row!(Ssns::ID, 16, Service, Column(4)),
    row!(Ssns::ID, 22, Number, Lines),
    row!(Ssns::ID, 24, Signed, Json),
    row!(Ssns::ID, 28, NidType, Lines),
    row!(Ssns::ID, 29, Nid, Lines, by: 28),
    row!(Ssns::ID, 54, Text, Column(1)),
    row!(Extended::ID, 8, Number, Lines),
    row!(Extended::ID, 10, NumberIf, Lines, weight: 2, by: 4),
    row!(Extended::ID, 12, Text, Lines),
    row!(Ssns::ID, 6, Flag, Lines, weight: 2),
    row!(Ssns::ID, 6, Flag, Lines, weight: 4),
    row!(Ssns::ID, 3, Flag, Lines, weight: 64),
    row!(Ssns::ID, 3, IsTwo, Json, weight: 128),
    row!(Ssns::ID, 3, Number, Detail),
    row!(Ssns::ID, 6, Number, Detail),
    row!(Ssns::ID, 3, Flag, Lines, weight: 2),
    row!(Ssns::ID, 3, Flag, Lines, weight: 8),
    row!(Ssns::ID, 3, Flag, Lines, weight: 32),
    row!(Ssns::ID, 3, Availability, Lines, weight: 128),
    row!(Ssns::ID, 6, Flag, Lines, weight: 1),
    row!(Ssns::ID, 8, OrNull, Lines),
    row!(Ssns::ID, 45, OrNull, Lines),
    row!(Ssns::ID, 46, Number, Detail),
    row!(Ssns::ID, 48, Positions, Detail),
    row!(Ssns::ID, 10, Bytes, Detail),
    row!(Ssns::ID, 16, Bytes, Detail),
    row!(Ssns::ID, 24, Number, Lines),
    row!(Ssns::ID, 28, Number, Detail),
    row!(Ssns::ID, 29, Hex, Detail),
    row!(Extended::ID, 4, IfThere, Detail),
    row!(Extended::ID, 8, IfThere, Detail),
    row!(Extended::ID, 10, IfThere, Detail),
    // hfi
    row!(Hfi::ID, 1, Position, Column(0)),
    row!(Hfi::ID, 3, Transport, Column(1)),
    row!(Info::ID, 7, ShortPci, Json),
    row!(Info::ID, 11, Mac, Column(3)),
    row!(Info::ID, 17, Number, Lines),
    row!(Info::ID, 19, Number, Lines),
    row!(Info::ID, 20, Address, Column(5)),
    row!(Info::ID, 36, Number, Column(6)),
    row!(Info::ID, 37, Address, Column(7)),
    row!(Info::ID, 54, Number, Lines),
    row!(Info::ID, 56, Address, Column(8)),
    row!(Info::ID, 72, Address, Lines),
    row!(Info::ID, 88, Server, Lines, weight: 4, by: 6),
    row!(Info::ID, 104, Text, Lines),
    row!(Info::ID, 6, Flag, Lines, weight: 2),
    row!(Info::ID, 6, Flag, Column(4), weight: 4),
    row!(Info::ID, 7, Pci, Column(2)),
    row!(Info::ID, 3, Number, Detail),
    row!(Info::ID, 6, Number, Detail),
    row!(Info::ID, 6, Flag, Lines, weight: 8),
    row!(Hfi::ID, 2, Number, Detail),
    row!(HfiExtended::ID, 4, IfThere, Detail),
    row!(HfiExtended::ID, 8, Bytes, Lines),
    row!(HfiExtended::ID, 14, Bytes, Lines),
    // discovery
    row!(Discovery::ID, 2, Position, Column(0)),
    row!(Discovery::ID, 4, OrOut, Lines),
    row!(Discovery::ID, 3, Number, Lines),
    row!(Discovery::ID, 6, Text, Column(1)),
    row!(Discovery::ID, 12, Text, Column(2)),
    row!(Discovery::ID, 1, Number, Detail),
    // security
    row!(Security::ID, 1, Position, Column(0)),
    row!(Security::ID, 2, Number, Column(1)),
    row!(Security::ID, 4, Number, Lines),
    row!(Security::ID, 2, Wanted, Lines, weight: 2),
    row!(Security::ID, 2, Wanted, Lines, weight: 32),
    row!(Security::ID, 2, Chosen, Lines, weight: 8),
    row!(Security::ID, 12, Bytes, Column(3)),
    row!(Security::ID, 2, Chosen, Lines, weight: 128),
    row!(Security::ID, 6, Bytes, Column(2)),
    row!(Security::ID, 18, Bytes, Column(4)),
    row!(Security::ID, 24, Bytes, Column(5)),
    row!(Security::ID, 30, Bytes, Column(6)),
    row!(Security::ID, 36, BytesText, Column(7)),
];

// Row `i`; behind the last one a row that reads nothing.
pub fn row_at(i: usize) -> Row
    ensures { result ≡ (line_at i).row }
{
    if 100 <= i {
        return NO_ROW;
    }
    ROWS[i]
}

// The rows of a section. Its number is the kind of its record, and the table itself has that of the control record.
fn rows_of(section: u8) -> Range<usize>
    ensures { (result.start ≡ first_of section) × (result.end ≡ end_of section) }
{
    match section {
        Header::ID => 7..13,
        Control::ID => 0..7,
        Host::ID => 13..20,
        Hfi::ID => 57..81,
        Ssns::ID => 20..57,
        Security::ID => 87..100,
        Discovery::ID => 81..87,
        _ => 0..0,
    }
}

// Where a section starts.
pub fn first_row(section: u8) -> usize
    ensures { result ≡ first_of section }
{
    rows_of(section).start
}

// Where it ends.
pub fn end_row(section: u8) -> usize
    ensures { result ≡ end_of section }
{
    rows_of(section).end
}
