//! Theorems about every set of routes and every journal. Each function is a theorem: calling it makes its clause known
//! to a proof, and does nothing.
ghost use Rattle.rt_rib.specs.Laws.{PutInAdds, TakeOutLeavesOthers, OneTableOfSet, LookUpFindsBest, LookUpAllFindsMatches};
ghost use Rattle.rt_rib.specs.Laws.{BestRoutesSuffice};
ghost use Rattle.rt_rib.specs.Laws.{TableByEntry, LawfulByEntry, LawfulIsDetermined, FeedsStandAlone};

/// After an insertion, a table contains the new route and what it contained before, and nothing else.
pub fn put_in_adds()
    ensures { PutInAdds }
{}

/// After the removal of a feed's route to a prefix, a table contains the other routes that it contained, and nothing
/// else.
pub fn take_out_leaves_others()
    ensures { TakeOutLeavesOthers }
{}

/// A set of routes has only one table: dump order leaves no choice.
pub fn one_table_of_set()
    ensures { OneTableOfSet }
{}

/// A look-up returns a route if and only if it is in the set, its prefix covers the address, no longer prefix covers
/// the address, and no other route to that prefix is better. It returns none if and only if no prefix covers the
/// address.
pub fn look_up_finds_best()
    ensures { LookUpFindsBest }
{}

/// A look-up of all returns exactly the routes whose prefix covers the address, each before those that it beats, so it
/// omits none and lists none twice. The first is the answer to a look-up.
pub fn look_up_all_finds_matches()
    ensures { LookUpAllFindsMatches }
{}

/// The best route of each prefix is all that a router needs for forwarding. No two of these are to the same prefix, and
/// a look-up among them has the same answer as in the whole table.
pub fn best_routes()
    ensures { BestRoutesSuffice }
{}

/// A journal leaves a table: the empty one before the first entry, and after each entry the one that its command
/// leaves.
pub fn table_by_entry()
    ensures { TableByEntry }
{}

/// The empty journal is lawful. Any other is lawful if and only if it was lawful before its last entry, and that
/// entry's reply is the sequential table's in the set that the earlier entries leave.
pub fn lawful_by_entry()
    ensures { LawfulByEntry }
{}

/// The sequential table leaves no choice: lawful journals of the same commands are equal.
pub fn lawful_journal_is_unique()
    ensures { LawfulIsDetermined }
{}

/// A feed's routes are those that it would have if only its own entries existed. The reply to its command on its own
/// routes is the one that it would get then.
pub fn feeds_are_independent()
    ensures { FeedsStandAlone }
{}
