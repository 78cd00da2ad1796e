//! Limits and defaults of the command line: each number is written once, for the checks and for the help texts.

/// `limits!(number NAME)` expands to the number of that name; `limits!(text ..)` expands to a text made of literals and of
/// such names, which are replaced by their numbers.
macro_rules! limits {
    (number $name:ident) => {
        limits!(@ number [] $name)
    };
    (text $($words:tt)*) => {
        limits!(@ text [] $($words)*)
    };
    (@ $kind:ident [$($before:literal)*] most_routes $($behind:tt)*) => {
        limits!(@ $kind [$($before)* 1000000] $($behind)*)
    };
    (@ $kind:ident [$($before:literal)*] usual_routes $($behind:tt)*) => {
        limits!(@ $kind [$($before)* 65536] $($behind)*)
    };
    (@ $kind:ident [$($before:literal)*] most_at_once $($behind:tt)*) => {
        limits!(@ $kind [$($before)* 1024] $($behind)*)
    };
    (@ $kind:ident [$($before:literal)*] most_files $($behind:tt)*) => {
        limits!(@ $kind [$($before)* 64] $($behind)*)
    };
    (@ $kind:ident [$($before:literal)*] most_levels $($behind:tt)*) => {
        limits!(@ $kind [$($before)* 6] $($behind)*)
    };
    (@ $kind:ident [$($before:literal)*] $text:literal $($behind:tt)*) => {
        limits!(@ $kind [$($before)* $text] $($behind)*)
    };
    (@ number [$number:literal]) => {
        $number
    };
    (@ text [$($text:literal)*]) => {
        concat!($($text),*)
    };
}

pub(crate) use limits;

/// The maximum of `--limit`, the number of routes per feed.
pub const MAX_ROUTES_PER_FEED: u32 = limits!(number most_routes);

/// The maximum of `--batch`, the number of commands of a feed that are executed together.
pub const MAX_BATCH: u32 = limits!(number most_at_once);

/// The maximum number of feed files of a run.
pub const MAX_FEED_FILES: usize = limits!(number most_files);

/// The default of `--limit` for `run`.
pub(crate) const DEFAULT_LIMIT: &str = limits!(text usual_routes);

/// The default of `--limit` for `lookup`, `table` and `diff`: a full Internet table fits.
pub(crate) const UNSEEN_ROUTES: &str = limits!(text most_routes);

/// The default of `--batch` for `run`.
pub(crate) const DEFAULT_RUN_BATCH: &str = "1";

/// The default of `--batch` for `lookup`, `table` and `diff`, on whose output it has no effect.
pub(crate) const DEFAULT_QUERY_BATCH: &str = "256";
