//! Theorems about the tables of different feeds. Each function is a theorem: calling it makes its clause known to a proof,
//! and does nothing.
ghost use Rattle.rt_tables.specs.Laws.{UnionHasTheirRoutes, UnionIsTable, OneUnion};

/// The union of tables contains the routes of each, and no others.
pub fn union_has_their_routes()
    ensures { UnionHasTheirRoutes }
{}

/// The union of tables of different feeds is a table: its routes are in dump order, and no two are of the same feed and
/// prefix.
pub fn union_is_table()
    ensures { UnionIsTable }
{}

/// A table that contains the routes of tables of different feeds, and no others, is their union.
pub fn one_union()
    ensures { OneUnion }
{}
