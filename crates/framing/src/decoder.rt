// The calls of a decoder of frames.
ghost use Rattle.std.specs.Prelude.{◌≡◌, ◌≤◌, true, false, [], ◌∷◌, ◌++◌, length, take, drop, MatchOption};
ghost use Rattle.message.specs.Messages.{facts_of};
ghost use Rattle.framing.specs.Frames.{at_most, behind, marks};
ghost use Rattle.framing.specs.Runs.{Opens};
ghost use Rattle.framing.specs.Turns.{opening_in, Fills, Stops, Sized, Opened, Gathered, Filled, Turns};
ghost use Rattle.framing.specs.Views.{Own, Advances, Ends};

use crate::events::{Event, FrameHead, Step};
use crate::openings::{Opening, OpeningBytes};
use crate::state::{DecoderState, FrameDecoder, LONGEST_BODY, LONGEST_METADATA};
use little::Little;
use message::{Facts, Fault, Place, Reading, Refusal};

// Where the frame behind one of `n` bytes stands.
fn behind(place: Place, n: usize) -> Place
    ensures { result ≡ behind place n }
{
    Place {
        message: place.message.wrapping_add(1),
        position: place.position.wrapping_add(n as u64),
    }
}

// What follows the continuation marker, where the bytes open with it.
#[tactic(auto, using(crate::proofs::OpeningOf::short_unmarked, std::proofs::lemmas::Bool::Decides::nat_tests, std::proofs::lemmas::List::take_rest), unfolding(crate::specs::Frames::marks))]
pub(crate) fn behind_marker(bytes: &[u8]) -> Option<&[u8]>
    ensures { MatchOption result (marks bytes.now ≡ false) (λ rest. (4 ≤ length bytes.now) × (marks bytes.now ≡ true) × (rest.now ≡ drop 4 bytes.now)) }
{
    match bytes {
        [0xff, 0xff, 0xff, 0xff, rest @ ..] => Some(rest),
        _ => None,
    }
}

// The opening that bytes begin with, where it is there whole.
pub(crate) fn opening_in(bytes: &[u8]) -> Option<Opening>
    ensures { result ≡ opening_in bytes.now }
{
    let marker = behind_marker(bytes);
    let size = u32::read_at(marker.unwrap_or(bytes), 0)?;
    Some(Opening {
        marked: marker.is_some(),
        size: size as usize,
    })
}

// The length of the body that follows, if its hold has room for it.
fn body_length(facts: &Facts, hold: usize) -> Option<usize>
    ensures { result ≡ at_most hold facts.now.body }
{
    usize::try_from(facts.body)
        .ok()
        .filter(|length| *length <= hold)
}

// Bytes of the rest go into the hold, behind the `got` that are there, until it has `most`; how many they are. It takes the
// whole hold, and not the part to fill, since the definition says what the others are.
pub(crate) fn fill(hold: &mut [u8], got: usize, most: usize, rest: &[u8]) -> usize
    requires most { most ≤ length hold.old }
    requires got { got ≤ most }
    ensures { Fills hold.old got most rest.now result hold.new }
{
    let n = (most - got).min(rest.len());
    hold[got..got + n].copy_from_slice(&rest[..n]);
    n
}

impl FrameDecoder {
    // Opens a decoder for holds of these lengths.
    pub fn new(metadata: usize, body: usize) -> Result<FrameDecoder, Fault>
        ensures { Opens (record { metadata = metadata; body = body }) result }
    {
        if metadata == 0 || metadata > LONGEST_METADATA || body > LONGEST_BODY {
            return Err(Refusal::Lengths.bare());
        }
        Ok(FrameDecoder {
            metadata,
            body,
            state: DecoderState::Header(OpeningBytes::default()),
            place: Place::default(),
        })
    }

    // Takes bytes of the piece until a frame is whole, a byte is refused or the piece is used up. Reading and holds are the
    // caller's, lent to each call, so no struct has them.
    pub fn advance<R: Reading>(
        &mut self,
        reading: &R,
        metadata: &mut [u8],
        body: &mut [u8],
        piece: &[u8],
    ) -> Result<Step, Fault>
        ensures { Advances (λ bs. facts_of (R.meaning reading.now bs)) self.old metadata.old body.old piece.now result self.new metadata.new body.new }
    {
        if metadata.len() != self.metadata || body.len() != self.body {
            return Err(Refusal::Lengths.bare());
        }
        let mut rest = piece;
        loop {
            let turn = self.turn(reading, metadata, body, rest)?;
            rest = &rest[turn.used..];
            if turn.event.is_some() || rest.is_empty() {
                return Ok(Step {
                    used: piece.len() - rest.len(),
                    event: turn.event,
                });
            }
        }
    }

    // Whether the stream may stop here.
    #[tactic(auto, using(crate::proofs::Stands::inside_opening))]
    pub fn check_end(&self) -> Result<(), Fault>
        ensures { Ends self.now result }
    {
        match self.state {
            DecoderState::Header(bytes) if !bytes.is_empty() => Err(Refusal::Unfinished.bare()),
            DecoderState::Header(_) | DecoderState::Finished => Ok(()),
            DecoderState::Message { .. } | DecoderState::Body { .. } => {
                Err(Refusal::Unfinished.bare())
            }
            DecoderState::Stopped { fault } => Err(fault),
        }
    }

    // Stops the decoder by a refusal of the frame.
    fn stop(&mut self, refusal: Refusal) -> Fault
        ensures { Stops refusal self.old result self.new }
    {
        let fault = refusal.of_frame(self.place);
        self.state = DecoderState::Stopped { fault };
        fault
    }

    // An opening: the end mark, or metadata that follow.
    fn sized(&mut self, opening: Opening) -> Result<Option<Event>, Fault>
        ensures { Sized opening self.old result self.new }
    {
        if opening.size == 0 {
            let place = self.place;
            self.place = behind(place, opening.len());
            self.state = DecoderState::Finished;
            return Ok(Some(Event::End { place }));
        }
        if opening.size > self.metadata {
            return Err(self.stop(Refusal::MetadataSize));
        }
        self.state = DecoderState::Message { opening, got: 0 };
        Ok(None)
    }

    // The bytes of an opening that are there and one more, whole or not.
    fn opened(&mut self, bytes: OpeningBytes, b: u8) -> Result<Option<Event>, Fault>
        ensures { Opened (take bytes.got bytes.bytes ++ b ∷ []) self.old result self.new }
    {
        match bytes.with(b) {
            Ok(opening) => self.sized(opening),
            Err(bytes) => {
                self.state = DecoderState::Header(bytes);
                Ok(None)
            }
        }
    }

    // The first `got` bytes of a frame's body, whole or not. The bounds are clauses here and at `gathered`, and not facts of
    // the head, since they compare it with this decoder's holds.
    fn filled(&mut self, head: FrameHead, got: usize) -> Option<Event>
        requires size { head.opening.size ≤ self.old.metadata }
        requires length { head.body ≤ self.old.body }
        requires got { got ≤ head.body }
        ensures { Filled head got self.old result self.new }
    {
        if got < head.body {
            self.state = DecoderState::Body { head, got };
            return None;
        }
        let n = head.opening.len() + (head.opening.size + head.body);
        self.place = behind(head.place, n);
        self.state = DecoderState::Header(OpeningBytes::default());
        Some(Event::Frame { head })
    }

    // The first `got` bytes of metadata, whole or not.
    fn gathered<R: Reading>(
        &mut self,
        reading: &R,
        metadata: &[u8],
        opening: Opening,
        got: usize,
    ) -> Result<Option<Event>, Fault>
        requires own { length metadata.now ≡ self.old.metadata }
        requires size { opening.size ≤ self.old.metadata }
        requires got { got ≤ opening.size }
        ensures { Gathered (λ bs. facts_of (R.meaning reading.now bs)) metadata.now opening got self.old result self.new }
    {
        if got < opening.size {
            self.state = DecoderState::Message { opening, got };
            return Ok(None);
        }
        let Ok(facts) = reading.facts(&metadata[..got]) else {
            return Err(self.stop(Refusal::Metadata));
        };
        let Some(body) = body_length(&facts, self.body) else {
            return Err(self.stop(Refusal::BodyLength));
        };
        let head = FrameHead {
            place: self.place,
            opening,
            facts,
            body,
        };
        Ok(self.filled(head, 0))
    }

    // One turn: what there is of an opening, of metadata or of a body, or the refusal of a byte behind the end.
    fn turn<R: Reading>(
        &mut self,
        reading: &R,
        metadata: &mut [u8],
        body: &mut [u8],
        rest: &[u8],
    ) -> Result<Step, Fault>
        requires { Own self.old metadata.old body.old }
        ensures { Turns (λ bs. facts_of (R.meaning reading.now bs)) self.old metadata.old body.old rest.now result self.new metadata.new body.new }
    {
        match (self.state, rest) {
            (DecoderState::Header(mut bytes), [_, ..]) => {
                let last = bytes.fill(rest);
                let event = self.opened(bytes, rest[last])?;
                Ok(Step {
                    used: last + 1,
                    event,
                })
            }
            (DecoderState::Message { opening, got }, _) => {
                let used = fill(metadata, got, opening.size, rest);
                let event = self.gathered(reading, metadata, opening, got + used)?;
                Ok(Step { used, event })
            }
            (DecoderState::Body { head, got }, _) => {
                let used = fill(body, got, head.body, rest);
                let event = self.filled(head, got + used);
                Ok(Step { used, event })
            }
            (DecoderState::Finished, [_, ..]) => Err(self.stop(Refusal::BehindEnd)),
            (DecoderState::Stopped { fault }, _) => Err(fault),
            (DecoderState::Header(_) | DecoderState::Finished, []) => Ok(Step::default()),
        }
    }
}
