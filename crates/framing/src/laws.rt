// What the definitions of frames come to.
ghost use Rattle.framing.specs.Parts.{FramesAreTheirParts};

// The bytes of a stream begin with a whole frame exactly when they are its opening, its metadata, its body and what follows.
pub fn frames_are_their_parts()
    ensures { FramesAreTheirParts }
{}
