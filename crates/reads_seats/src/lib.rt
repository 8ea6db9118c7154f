// Where the records of an accepted table stand, by kind and position, and where their objects do; that what is read there says the meaning.
// The table is `t`, a record stands in it at `at`, `bytes` are its own bytes, and its reference stands at `offset` in them.
#![tactic(auto)]

pub mod lent; // the heap and a record as the parts of the table that they are
pub mod objects; // where an object stands
pub mod seats; // where a record stands
