// Which rows are a schema.
#![tactic(auto)]

pub mod kinds;
pub mod laws;

pub use kinds::{Kind, NoKind};
