// What a caller tells of a record, made ready for the table: the bytes that the builder sets itself, and what is dropped.
#![tactic(auto)]

pub mod marks; // ID, version, type, own index and valid bit
pub mod objects; // objects under the need for them
