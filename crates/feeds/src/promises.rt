// What holds throughout every run of calls on a feed that was opened, for every reading.
ghost use Rattle.feeds.specs.Promises.{ChoicesAlike, OpenedLawful, PiecesAlike};

// No cell gets stuck: asked in range it answers, and each cell that it points to is in range. And a run that gets some
// bytes shows the batches, the first refusal and the end that the definition gives for them, whatever the pieces.
pub fn opened_feeds_are_lawful()
    ensures { OpenedLawful }
{}

// Two feeds that choose alike and get the same bytes, in whatever pieces, show the same batches cell for cell, with the
// same first refusal and the same finish.
pub fn pieces_show_alike()
    ensures { PiecesAlike }
{}

// A feed for chosen columns, each number naming one, takes every batch that a feed for all takes before the latter's
// first refusal, and each place shows the column named there, cell for cell, repeats kept.
pub fn choices_show_alike()
    ensures { ChoicesAlike }
{}
