//! The maximum numbers of feeds and routes, and checks of such numbers.
ghost use Rattle.std.specs.Prelude.{◌↔◌, IsTrue};
ghost use Rattle.rt_rib.specs.Book.{IsLimit, IsFeed};

/// The maximum number of feeds, and so the highest feed number.
pub const MAX_FEEDS: usize = 64;

/// The highest limit on the number of a feed's routes.
pub const MAX_ROUTES_PER_FEED: u32 = 1_000_000;

/// Returns true if the limit on a feed's routes is valid: 1 to [`MAX_ROUTES_PER_FEED`].
pub fn limit_ok(limit: u32) -> bool
    ensures { IsTrue result ↔ IsLimit limit }
{
    (1..=MAX_ROUTES_PER_FEED).contains(&limit)
}

/// Returns true if the feed number is valid: 1 to [`MAX_FEEDS`].
pub fn feed_ok(feed: u32) -> bool
    ensures { IsTrue result ↔ IsFeed feed }
{
    (1..=MAX_FEEDS).contains(&(feed as usize))
}
