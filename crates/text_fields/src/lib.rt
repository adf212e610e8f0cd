//! Fields of a line of text: numbers, replicas and ids of operations, each with exactly one
//! spelling.
//!
//! A number is written in decimal digits without a leading zero, a replica as a number from 1 to
//! 65,535, an id as the replica, a colon and a number from 1 to 4,294,967,295. `push_number` and
//! `push_id` append these texts. The readers take no memory: they return the value of a field, or
//! `None` for any other text, such as a number above its limit.
//!
//! Contracts define a field by its text (`id_text` and `entry_text` of `specs/Fields.antt`) and say
//! how it is read (`specs/FieldReading.antt`). The crates that read and write whole lines prove
//! that reading and writing are inverse.
#![tactic(auto)]

mod field_reader;
mod field_writer;

pub use field_reader::{id, number, pair, replica, split};
pub use field_writer::{push_id, push_number};
