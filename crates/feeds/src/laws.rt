// Laws of messages and streams.
ghost use Rattle.feeds.specs.Chosen.{ChosenColumns};
ghost use Rattle.feeds.specs.Laws.{BatchesAnswer, StepsTell};
ghost use Rattle.feeds.specs.Lists.{MessagesKeepLists, StreamsKeepLists};

// In a batch that is shown every cell in range answers, and each cell that it points to is in range.
pub fn batches_answer()
    ensures { BatchesAnswer }
{}

// The feed byte by byte is the feed message by message.
pub fn steps_tell()
    ensures { StepsTell }
{}

// What a feed for all columns takes, a feed for chosen ones takes too, and each place shows the column named there.
pub fn chosen_columns_alike()
    ensures { ChosenColumns }
{}

// Where the dictionaries are lists of values, a message replaces the list of its id, appends to it, or leaves them all.
pub fn messages_keep_lists()
    ensures { MessagesKeepLists }
{}

// Whatever a stream brings, its dictionaries are lists of values, at most 64 of them, within the room of the store.
pub fn streams_keep_lists()
    ensures { StreamsKeepLists }
{}
