// Definitions of the format, worked out on examples.
#![tactic(auto)]

ghost use Rattle.examples.specs.All.{MoreExamples};
ghost use Rattle.examples.specs.Cases.{Examples};

// Streams, slips, FlatBuffers and text are what their definitions give for these bytes; so are messages and whole feeds.
pub fn examples_stand()
    ensures streams { Examples }
    ensures feeds { MoreExamples }
{}
