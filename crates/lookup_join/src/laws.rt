ghost use Rattle.lookup_join.specs.Extended.{ExtendedTablesHaveTheirShapes};
ghost use Rattle.lookup_join.specs.Laws.{JoinFailsAsItsSteps, JoinMeansItsSteps, PlaceNameIsFree};

/// A law: the steps of a join over a table with places give, row after row, the rows that the join gives over the plain table.
pub fn join_means_its_steps()
    ensures { JoinMeansItsSteps }
{}

/// A law: the steps of a join fail, row after row, where the cell of its column has several values, and nowhere else.
pub fn join_fails_as_its_steps()
    ensures { JoinFailsAsItsSteps }
{}

/// A law: the shortest run of `#` that is no column's name is none, whatever the columns are called.
pub fn place_name_is_free()
    ensures { PlaceNameIsFree }
{}

/// A law: the extended tables with their rows have the shapes that the extended catalog tells.
pub fn extended_tables_have_their_shapes()
    ensures { ExtendedTablesHaveTheirShapes }
{}
