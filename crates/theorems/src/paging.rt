// A table on pages.
ghost use Rattle.definitions.specs.Promise.{PagesAreWhole, PagesAreCounted, NoCellIsLost, FusedHasPages};

// A done page has 60 lines of 80 characters, and every byte behind it is as found.
pub fn pages_are_whole()
    ensures { PagesAreWhole }
{}

// With enough bytes just the pages below the number that an answer carries are done, 1 to 54.
pub fn pages_are_counted()
    ensures { PagesAreCounted }
{}

// Every cell of an accepted table is shown on one of its pages.
pub fn no_cell_is_lost()
    ensures { NoCellIsLost }
{}

// What a done complement union wrote has pages, and each is written.
pub fn fused_has_pages()
    ensures { FusedHasPages }
{}
