//! Which feeds take part in a run. The text of a feed that is left out is empty, and the other feeds keep their numbers.
ghost use Rattle.std.specs.Prelude.{◌≡◌};
ghost use Rattle.rt_rib.specs.Selection.{is_selected};
ghost use Rattle.rt_run.specs.ChosenFeeds.{is_left_out};

/// Returns true if the feed of this number is left out: if it is one of `without`, or if feeds are selected and it isn't one of
/// them.
pub fn is_left_out(only: &[u32], without: &[u32], feed: u32) -> bool
    ensures { result ≡ is_left_out only.now without.now feed }
{
    without.contains(&feed) || !is_selected(only, feed)
}

/// Returns true if the feed is selected: if it is one of these, or if there are none.
fn is_selected(feeds: &[u32], feed: u32) -> bool
    ensures { result ≡ is_selected feeds.now feed }
{
    feeds.is_empty() || feeds.contains(&feed)
}
