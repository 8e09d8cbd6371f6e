// How a stream of bytes is cut into frames, in whatever pieces it comes.
#![tactic(auto)]

mod decoder;
pub mod events;
pub mod laws;
pub mod openings;
pub mod state;

pub use events::{Event, FrameHead, Step};
pub use openings::Opening;
pub use state::{FrameDecoder, LONGEST_BODY, LONGEST_METADATA};
