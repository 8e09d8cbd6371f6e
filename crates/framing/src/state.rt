// Where a decoder of frames stands.
ghost use Rattle.std.specs.Prelude.{◌≤◌};
ghost use Rattle.framing.specs.Within.{reach, held, spans, fills};

use crate::events::FrameHead;
use crate::openings::{Opening, OpeningBytes};
use message::{Fault, Place};

/// The longest metadata and the longest body that a decoder may have room for.
pub const LONGEST_METADATA: usize = 1048576;

pub const LONGEST_BODY: usize = 16777216;

#[derive(Clone, Copy, Debug, PartialEq, Eq, Hash)]
pub enum DecoderState {
    // between two frames, or in an opening
    Header(OpeningBytes),
    // `got` bytes of the metadata are in their hold
    Message { opening: Opening, got: usize },
    // the metadata are whole, and `got` bytes of the body are in its hold
    Body { head: FrameHead, got: usize },
    Finished,
    Stopped { fault: Fault },
}

#[derive(Debug, Drop)]
pub struct FrameDecoder {
    // the lengths of the two holds
    pub(crate) metadata: usize,
    pub(crate) body: usize,
    pub(crate) state: DecoderState,
    // of the next frame, or of the one whose opening or metadata are read; a body has its head's
    pub(crate) place: Place,
    ghost few: { metadata ≤ 1048576 },
    ghost limited: { body ≤ 16777216 },
    ghost size: { reach state ≤ metadata },
    ghost part: { held state ≤ reach state },
    ghost length: { spans state ≤ body },
    ghost rest: { fills state ≤ spans state },
}
