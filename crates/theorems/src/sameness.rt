// Two calls of complement union.
ghost use Rattle.definitions.specs.Promise.{SameCalls};

// Pairs with the same union columns and the same T, and buffers as long, get the same answer and
// the same words.
pub fn same_calls()
    ensures { SameCalls }
{}
