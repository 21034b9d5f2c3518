// The cell that says "there is none".
ghost use Rattle.definitions.specs.Promise.{UnionsKeepCells, JoinedRowsTake, NoneIsShown};

// A filled word stands in a column of a done union exactly if it does in that column of a table.
pub fn unions_keep_cells()
    ensures { UnionsKeepCells }
{}

// A joined row has a filled word in a column exactly if a member of its set has it there.
pub fn joined_rows_take()
    ensures { JoinedRowsTake }
{}

// Each cell that says "there is none" is shown on a page of its table.
pub fn none_is_shown()
    ensures { NoneIsShown }
{}
