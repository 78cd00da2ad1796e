//! Theorems about any two tables. Each function is a theorem: calling it makes its clause known to a proof, and does
//! nothing.
ghost use Rattle.rt_diff.specs.Laws.{HaveDifferences, HaveOneList};

/// Two tables have exactly one list of the ranges of addresses that have different answers in them.
pub fn one_list()
    ensures there { HaveDifferences }
    ensures one { HaveOneList }
{}
