// What the metadata of an Arrow message says, and the trait of its readings.
#![tactic(auto)]

pub mod faults;
pub mod headers;
pub mod items;
pub mod lists;
pub mod readings;
pub mod rows;

pub use faults::{Fault, Place, Refusal};
pub use headers::{BatchFacts, Facts, Header};
pub use items::{Buffer, Node};
pub use lists::{ItemList, Items};
pub use readings::{ListSizes, Reading, Refused};
pub use rows::Row;
