// What a table says, for people and as JSON. Both go by the rows of show_table.
#![tactic(auto)]

pub mod bytes; // bytes of any number, printed
pub mod cells; // the value of a row, for people
pub mod json; // JSON
pub mod lines; // for people, record by record
pub mod numbers; // lists of positions
pub mod people; // for people, as tables
pub mod records; // which records there are
pub mod values; // the value of a row, in JSON
