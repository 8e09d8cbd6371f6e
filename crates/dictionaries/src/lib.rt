// What dictionaries are, as lists of values and as the bytes of a store.
#![tactic(auto)]

ghost use Rattle.dictionaries.specs.Areas.{AreasStandForLists};
ghost use Rattle.dictionaries.specs.Stores.{ReadBack, Replaces, RoomAgain, RoomIsLength};

// A value that is written to the store is read back from there.
pub fn values_read_back()
    ensures { ReadBack }
{}

// The areas of all dictionaries together are as long as the room that their values use.
pub fn room_is_length()
    ensures { RoomIsLength }
{}

// Room that a replaced list gives up is room again.
pub fn room_is_filled_again()
    ensures { RoomAgain }
{}

// A replaced list is what is held under its id, and no other id changes.
pub fn replacing_is_local()
    ensures { Replaces }
{}

// The areas of a store say what the lists say that they stand for, and go on standing for lists where a batch replaces
// or appends.
pub fn areas_stand_for_lists()
    ensures { AreasStandForLists }
{}
