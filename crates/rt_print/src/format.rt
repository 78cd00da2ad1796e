//! The format of printed routes, and the syntax that it determines.
ghost use Rattle.std.specs.Prelude.{◌≡◌};
ghost use Rattle.rt_print.specs.Labels.{syntax_of, has_names};

/// The syntax of printed output.
#[derive(Clone, Copy, PartialEq, Eq, Debug)]
pub enum Syntax {
    /// Lines of words.
    Line,
    /// JSON objects (RFC 8259), one a line.
    Json,
    /// Comma-separated values (RFC 4180). What has no columns, as a number of routes, has a line of words.
    Csv,
}

/// The format of printed routes: lines, JSON objects, one a line, or comma-separated values, and what identifies a feed in
/// them.
#[derive(Clone, Copy, PartialEq, Eq, Debug)]
pub enum Format {
    /// Lines, each feed by its number.
    Numbers,
    /// Lines, each feed by its name (`feed_name`).
    Names,
    /// JSON objects, each feed by its number and the path of its file.
    Json,
    /// JSON objects, each feed by its number, its name and the path of its file.
    JsonWithNames,
    /// Comma-separated values, each feed by its number, its name and the path of its file.
    Csv,
    /// The same, but feeds are identified by their names, as in `JsonWithNames`.
    CsvWithNames,
}

impl Format {
    /// Returns the syntax of this format's output.
    pub fn syntax(self) -> Syntax
        ensures { result ≡ syntax_of self }
    {
        match self {
            Format::Numbers | Format::Names => Syntax::Line,
            Format::Json | Format::JsonWithNames => Syntax::Json,
            Format::Csv | Format::CsvWithNames => Syntax::Csv,
        }
    }

    /// Returns true if feeds are identified by their names.
    pub fn has_names(self) -> bool
        ensures { result ≡ has_names self }
    {
        matches!(
            self,
            Format::Names | Format::JsonWithNames | Format::CsvWithNames
        )
    }
}
