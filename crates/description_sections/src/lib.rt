// A description's sections, one for each record with a line for each field or object, read and told to the builder as they end, in the order in
// which they stand.
#![tactic(auto)]

pub mod telling; // a section told to the builder
pub mod walking; // from line to line
