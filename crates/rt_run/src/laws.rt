//! Laws that hold for every run of feeds and every interleaving of its threads. Each function is a theorem: a call makes
//! its clauses known and does nothing. Each law but `one` of [`union`], `loses` of [`left_out`] and those of [`shares`] holds if no command was
//! refused, that is, if memory ran out for none. Two runs may have different batches.
ghost use Rattle.rt_run.specs.SameTable.{LeavesUnion, AnswersAlone, HaveSameTallies, HaveOneUnion, EndsInUnion, EndInOneTable, HaveSameLines};
ghost use Rattle.rt_run.specs.SameTable.{ShowsUnion, ShowOneTable, AnswerOnce, LosesLeftOut, ShowsRest, DiffsUnions, CountsUnions, DiffOnce, CountOnce};
ghost use Rattle.rt_run.specs.Shares.{SharesAreApart, SharesAreOneRun};

use rt_diff::laws::one_list;
use rt_feed::laws::{one_address_text, one_reading};
use rt_print::laws::one_count_list;
use rt_rib::laws::{feeds_are_independent, one_table_of_set, table_by_entry};
use rt_shared::laws::visits;

/// The union of a run is the table of the union, over all its texts, of the sets that the commands of each text leave by
/// themselves.
///
/// - `leaves`: the journal of a run leaves its union;
/// - `one`: the same texts and limit have only one union;
/// - `alone`: the replies to `add`, `replace`, `withdraw` and `purge` are those that a text gets if no other feed executes
///   anything;
/// - `tallies`: the reports of two runs of the same texts and limit have the same tallies of rejected input.
pub fn union()
    ensures leaves { LeavesUnion }
    ensures one { HaveOneUnion }
    ensures alone { AnswersAlone }
    ensures tallies { HaveSameTallies }
{
    feeds_are_independent();
    table_by_entry();
    one_table_of_set();
    visits();
    one_reading();
}

/// - `ends`: a run writes its reports and the table of the union;
/// - `same`: two runs of the same texts and limit end in the same table with the same status;
/// - `lines`: their reports have the same lines, and hence the same bytes, except for the replies to `lookup` and `dump`.
pub fn run_output()
    ensures ends { EndsInUnion }
    ensures same { EndInOneTable }
    ensures lines { HaveSameLines }
{
    union();
    feeds_are_independent();
    visits();
    one_reading();
}

/// - `shows`: a query of a run writes its answer for the union. Hence the output of `show` is a function of only the texts,
///   the limit and the question;
/// - `same`: two runs of the same texts and limit with the same query write the same bytes, and return the same status and
///   tallies;
/// - `answers`: two calls of `show` with the same texts, limit, style and question write the same bytes and return the same
///   summaries.
pub fn query_output()
    ensures shows { ShowsUnion }
    ensures same { ShowOneTable }
    ensures answers { AnswerOnce }
{
    union();
    one_address_text();
}

/// - `loses`: if the texts of some feeds are empty in a second run and its other texts are those of a first run, its union is
///   the first run's union without the routes of these feeds;
/// - `shows`: the output of a query without some feeds is that for the routes of the other feeds: of the union of all texts,
///   those that aren't of a feed that is left out.
pub fn left_out()
    ensures loses { LosesLeftOut }
    ensures shows { ShowsRest }
{
    query_output();
    feeds_are_independent();
    one_table_of_set();
}

/// Runs that share the feeds of a run: each executes the texts of some feeds over a table of its own.
///
/// - `apart`: no feed has routes in two of their tables;
/// - `one`: some run of all texts leaves the table of all their routes, with the tally that each text has in its own run, also
///   if commands ran out of memory.
pub fn shares()
    ensures apart { SharesAreApart }
    ensures one { SharesAreOneRun }
{
    feeds_are_independent();
    table_by_entry();
    one_table_of_set();
    visits();
}

/// - `differs`: `diff_texts` writes the differences between the union of the old texts and the union of the new texts;
/// - `counts`: `count_diff_texts` writes the numbers of these differences;
/// - `same`: two comparisons by `diff_texts` of the same texts and limits, with the same options, write the same bytes and
///   return the same statuses and tallies;
/// - `same_counts`: and so do two by `count_diff_texts`.
pub fn comparison_output()
    ensures differs { DiffsUnions }
    ensures counts { CountsUnions }
    ensures same { DiffOnce }
    ensures same_counts { CountOnce }
{
    union();
    one_list();
    one_count_list();
}
