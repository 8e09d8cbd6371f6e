// The fields of a schema in FlatBuffers, as rows.
#![tactic(auto)]

pub mod parts;
mod reads;
pub mod rows;
mod walks;

pub use parts::Children;
pub use reads::children_of;
pub use rows::Rows;
pub use walks::read_fields;
