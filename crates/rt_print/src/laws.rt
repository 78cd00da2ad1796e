//! Theorems about what is printed. Each function does nothing: its contract is the theorem, for all values.
ghost use Rattle.rt_print.specs.ChangeCounts.{HaveOneCountList};
ghost use Rattle.rt_print.specs.RangePrefixes.{PrefixesMakeUp, PrefixesRise, AreFewest};

use rt_cidr::laws::{nested, ranges};

/// The prefixes that are printed for a range of addresses.
///
/// - `exact`: each is a prefix, each address of the range is in one of them, and no other address is;
/// - `rising`: they are in ascending order, and no two have an address in common;
/// - `fewest`: no list of fewer prefixes has these addresses.
pub fn range_prefixes()
    ensures exact { PrefixesMakeUp }
    ensures rising { PrefixesRise }
    ensures fewest { AreFewest }
{
    ranges();
    nested();
}

/// The counts of ranges by pair of next hops (`count_changes`): the same ranges have only one list of counts.
pub fn one_count_list()
    ensures { HaveOneCountList }
{}
