// What a feed of messages means: definitions and laws.
#![tactic(auto)]

pub mod laws;
pub mod promises;
