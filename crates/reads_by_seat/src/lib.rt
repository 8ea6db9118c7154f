// What an accepted table says of the record at a seat: its image, and its objects as the caller's own bytes; and how many records there are. Kind
// and position are asked for once, of `reads_seats::seats`. The table is `t`, the record stands in it at `at`, and its reference at `offset` in the record.
#![tactic(auto)]

pub mod counts; // fields of the header and of the control record
pub mod image; // the image of a used record
pub mod objects; // the objects of a used record
pub mod sums; // sums of bytes, and that of the driver signature
pub mod versions; // the version of an info
