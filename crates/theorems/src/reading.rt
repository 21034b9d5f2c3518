// A set list read back.
ghost use Rattle.definitions.specs.Promise.{MadeIsRead, WrittenAgain};

// The list of a done complement union is read as its sets, or refused for want of room.
pub fn made_is_read()
    ensures { MadeIsRead }
{}

// What was read of an accepted list, laid out again, is that list.
pub fn written_again()
    ensures { WrittenAgain }
{}
