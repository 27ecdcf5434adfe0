// What digests don't depend on.
ghost use Rattle.mesa_digest.specs.Laws.{FurtherOrder, NamesOnce, SetsOnce};

/// A row has one named spelling, whatever the order of its columns.
pub fn names_once()
    ensures { NamesOnce }
{}

/// A set digest depends neither on the order of rows nor on that of columns.
pub fn sets_once()
    ensures { SetsOnce }
{}

/// A further order of a table has its set digest.
pub fn further_orders()
    ensures { FurtherOrder }
{}
