// What the records of an accepted table name in its heap, and how many bytes it takes to lay that anew. The table is `t`, a record stands in it at
// `at`, and its reference at `offset` in the record.
#![tactic(auto)]

pub mod minor; // the header minor
pub mod references; // the references of one record
pub mod sizes; // heap bytes of records, of lists and of all
