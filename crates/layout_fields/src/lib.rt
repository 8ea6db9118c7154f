// Fields and objects by kind number and offset, as a caller asks for them.
#![tactic(auto)]

pub mod objects; // references to plain objects
pub mod texts; // which of them are text
pub mod widths; // fields

pub use objects::has_object;
pub use widths::field_width;
