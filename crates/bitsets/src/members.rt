// The members of a set of rows, one after the other.
ghost use Rattle.std.specs.Prelude.{◌≡◌};
ghost use Rattle.std.specs.Iterator.{at_most};

use crate::{lowest_row, without_lowest};

// Those that are still to come.
#[derive(Drop)]
pub struct Members {
    rest: u64,
}

impl Members {
    // The members of the set, lowest first.
    pub fn of(set: u64) -> Self
        ensures { result.rest ≡ set }
    {
        Members { rest: set }
    }
}

impl Iterator for Members {
    ghost use Rattle.bitsets.specs.Members.{NextMember};

    type Item = usize;

    ghost remaining = { λ s. at_most s.rest };

    ghost next_gives = { NextMember };

    fn next(&mut self) -> Option<usize> {
        if self.rest == 0 {
            return None;
        }
        let member = lowest_row(self.rest);
        self.rest = without_lowest(self.rest);
        Some(member)
    }
}
