// Writing: numbers, references, copies and zeros into lent bytes.
#![tactic(auto)]

pub mod checksum; // the checksum of a table
pub mod records; // the references of a record
pub mod stores; // numbers, references, copies, zeros
