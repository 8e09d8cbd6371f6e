// The columns of a batch: which rows are decoded, what their slots hold, and which rules they keep.
#![tactic(auto)]

pub mod entries;
pub mod laws;

pub use entries::Column;
