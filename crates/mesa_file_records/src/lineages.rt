// How tables go on.
ghost use Rattle.mesa_file_records.specs.Grown.{BecomesByChange, BecomesByRecast, BecomesByView, BecomesItself, GrowsByChange, GrowsByView, GrowsFromItself, GrowsWhereItBegins, StaysWithItsEpoch};

/// What was merged of a table's files in one epoch can be told of the table in any later one.
pub fn tables_grow()
    ensures begins { GrowsFromItself }
    ensures changed { GrowsByChange }
    ensures viewed { GrowsByView }
{}

/// A table goes on as it was, with further changes and views, until it is recast: then its columns begin at a later epoch.
pub fn tables_become()
    ensures begins { BecomesItself }
    ensures changed { BecomesByChange }
    ensures viewed { BecomesByView }
    ensures recast { BecomesByRecast }
    ensures grown { GrowsWhereItBegins }
    ensures still { StaysWithItsEpoch }
{}
