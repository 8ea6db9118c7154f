// Reads of records, fields and objects, by kind and position: of an accepted table, and of any bytes.
#![tactic(auto)]

pub mod records; // whole records
pub mod objects; // objects
pub mod fields; // fields
