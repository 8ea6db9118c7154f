// What two accepted tables say differently, record by record, as lines of text in a lent buffer.
#![tactic(auto)]

pub mod records; // fields and objects of two records
pub mod wholes; // two records with the heap records that they name
pub mod places; // the places of two tables in order
