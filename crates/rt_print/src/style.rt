//! The style of printed routes: lines, JSON objects or comma-separated values, and the labels of the feeds.
ghost use Rattle.std.specs.Prelude.{◌≡◌, ◌≤◌, ℕ, List, [], length, map, IfOk};
ghost use Rattle.rt_rib.specs.declared.limits.TheConstants.{MAX_FEEDS};
ghost use Rattle.rt_print.specs.Styles.{style_of, rows_header, found_header, all_found_header};
ghost use Rattle.rt_print.specs.inside.Parts.{label_pairs};

use crate::format::{Format, Syntax};
use crate::labels::{FeedLabel, labels_by};
use std::alloc::{AllocError, Global};
use std::marker::Model;

/// The style of printed routes. Contracts see its syntax, and each label with the number that identifies its feed.
#[derive(Debug, Drop)]
pub struct Style {
    syntax: Syntax,
    labels: Vec<FeedLabel>,
}

impl Model for Style {
    ghost use Rattle.rt_print.specs.Styles.{StyleContents};
    ghost use Rattle.rt_print.specs.inside.Parts.{label_pairs};

    ghost Value = { StyleContents };

    ghost view = { λ s. record { syntax = s.syntax; labels = label_pairs s.labels.items } };
}

impl Style {
    /// Returns the style of this format for the feeds that are read from the files of these paths, the k-th for feed k.
    /// Fails only if memory runs out.
    pub fn new(alloc: Global, format: Format, paths: &[&str]) -> Result<Style, AllocError>
        requires few { length paths.now ≤ MAX_FEEDS }
        ensures { IfOk result (λ style. style ≡ style_of format [] (map (λ path. path.now) paths.now)) }
    {
        Style::paired(alloc, format, &[], paths)
    }

    /// Returns the same style, but each feed is identified in relation to the feeds of the first paths, if there are some.
    pub(crate) fn paired(
        alloc: Global,
        format: Format,
        first: &[&str],
        paths: &[&str],
    ) -> Result<Style, AllocError>
        requires few { (length first.now ≤ MAX_FEEDS) × (length paths.now ≤ MAX_FEEDS) }
        ensures { IfOk result (λ style. style ≡ style_of format (map (λ path. path.now) first.now) (map (λ path. path.now) paths.now)) }
    {
        let labels = labels_by(alloc, format, first, paths)?;
        Ok(Style {
            syntax: format.syntax(),
            labels,
        })
    }

    /// Returns the header of routes: in CSV a line with the names of the columns, else no bytes.
    #[tactic(auto, unfolding(crate::specs::Styles::rows_header, crate::specs::Csv::csv_field))]
    pub fn rows_header(&self) -> &'static [u8]
        ensures { result.now ≡ rows_header self.now.syntax }
    {
        match self.syntax {
            Syntax::Line | Syntax::Json => b"",
            Syntax::Csv => b"prefix,feed,name,file,pref,via,discard\r\n",
        }
    }

    /// Returns the header of look-up results, as `rows_header` does.
    #[tactic(auto, unfolding(crate::specs::Styles::found_header, crate::specs::Csv::csv_field))]
    pub fn found_header(&self) -> &'static [u8]
        ensures { result.now ≡ found_header self.now.syntax }
    {
        match self.syntax {
            Syntax::Line | Syntax::Json => b"",
            Syntax::Csv => b"address,prefix,feed,name,file,pref,via,discard\r\n",
        }
    }

    /// Returns the header of all routes that cover an address, as `rows_header` does.
    #[tactic(auto, unfolding(crate::specs::Styles::all_found_header, crate::specs::Csv::csv_field))]
    pub fn all_found_header(&self) -> &'static [u8]
        ensures { result.now ≡ all_found_header self.now.syntax }
    {
        match self.syntax {
            Syntax::Line | Syntax::Json => b"",
            Syntax::Csv => b"address,prefix,feed,name,file,pref,via,discard,reason\r\n",
        }
    }

    /// Returns the syntax in which routes are printed.
    pub(crate) fn syntax(&self) -> Syntax
        ensures { result ≡ self.now.syntax }
    {
        self.syntax
    }

    /// Returns the label of each feed that has one. A feed without one is printed by its number.
    pub(crate) fn labels(&self) -> &[FeedLabel]
        ensures { label_pairs result.now ≡ self.now.labels }
    {
        self.labels.as_slice()
    }
}
