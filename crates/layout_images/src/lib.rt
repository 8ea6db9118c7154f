// The image of a record: its bytes with all that does not count as zero.
#![tactic(auto)]

pub mod images; // whole images, and fields
pub mod masks; // which bits count, by kind

pub use images::{field_at, image_at, put_image};
