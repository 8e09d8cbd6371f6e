// Which row an Arrow type gives, by the type's number and its FlatBuffers table.
#![tactic(auto)]

mod fixed;
pub mod kinds;
mod numbers;
pub mod shapes;
pub mod types;
mod unions;

pub use fixed::int_row;
pub use shapes::{Shape, Tags, Typed};
pub use types::shape;
