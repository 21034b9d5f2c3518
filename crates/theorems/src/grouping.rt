// Three tables, in either grouping.
ghost use Rattle.definitions.specs.Grouping.{Associative, Idempotent, ResultAsTable};
ghost use Rattle.definitions.specs.Promise.{CallsAssociative, CallsCounted, CallsIdempotent};
ghost use Rattle.theorems.specs.Grouping.{ComplementDependsOnGrouping};

// The minimum union of the first two tables, united with the third, has the same words as the first
// united with that of the last two, where all four are accepted.
pub fn associative()
    ensures { Associative }
{}

// A minimum union, united with itself where that is accepted, stays.
pub fn idempotent()
    ensures { Idempotent }
{}

// Of the questions to a table, a minimum union can fail the third alone, by more than 32 rows.
pub fn result_as_table()
    ensures { ResultAsTable }
{}

// The same of four done calls, where what one wrote is a table of the next.
pub fn calls_associative()
    ensures { CallsAssociative }
{}

// Done calls that wrote the same words answer with the same rows, words and filled cells.
pub fn calls_counted()
    ensures { CallsCounted }
{}

// The same of two done calls.
pub fn calls_idempotent()
    ensures { CallsIdempotent }
{}

// Complement union is not associative: three tables are an example.
pub fn complement_depends_on_grouping()
    ensures { ComplementDependsOnGrouping }
{}
