//! Options of a comparison: the compared parts of two tables, and what is printed of the differences in which style.
ghost use Rattle.std.specs.Prelude.{◌≡◌, ◌≤◌, length, map, IfOk};
ghost use Rattle.rt_rib.specs.declared.limits.TheConstants.{MAX_FEEDS};
ghost use Rattle.rt_diff.specs.Answers.{own_numbers};
ghost use Rattle.rt_print.specs.Csv.{csv_line};
ghost use Rattle.rt_print.specs.DifferenceText.{diff_of, difference_columns, differences_header};

use crate::format::{Format, Syntax};
use crate::labels::pair_feeds_by_name;
use crate::style::Style;
use rt_diff::{CompareBy, ComparedTables, Comparison};
use rt_rib::Table;
use rt_tables::TableUnion;
use std::alloc::{AllocError, Global};
use std::marker::Model;

/// What is printed of each difference.
#[derive(Clone, Copy, PartialEq, Eq, Debug)]
pub enum DiffOutput {
    /// A line for its range of addresses.
    Ranges,
    /// A line for each of the fewest prefixes that make up its range, in ascending order.
    Prefixes,
}

/// The options of a comparison of two tables and of its output. Contracts see all of them.
#[derive(Debug, Drop)]
pub struct DiffOptions {
    pub(crate) by: CompareBy,
    pub(crate) output: DiffOutput,
    numbers: Vec<u32>,
    pub(crate) old: Style,
    pub(crate) new: Style,
}

impl Model for DiffOptions {
    ghost use Rattle.rt_print.specs.DifferenceText.{DiffContents};

    ghost Value = { DiffContents };

    ghost view = { λ o. record { by = o.by; output = o.output; numbers = o.numbers.items; old = o.old; new = o.new } };
}

impl DiffOptions {
    /// Returns the options that compare this part of each answer and print this of each difference, in this format, for the
    /// tables of two sets of files. If the format has names, feeds of both sets with the same name are the same feed. Fails
    /// only if memory runs out.
    pub fn new(
        alloc: Global,
        by: CompareBy,
        output: DiffOutput,
        format: Format,
        old: &[&str],
        new: &[&str],
    ) -> Result<DiffOptions, AllocError>
        requires few { (length old.now ≤ MAX_FEEDS) × (length new.now ≤ MAX_FEEDS) }
        ensures { IfOk result (λ options. options ≡ diff_of by output format (map (λ path. path.now) old.now) (map (λ path. path.now) new.now)) }
    {
        let first = if format.has_names() { old } else { &old[..0] };
        let numbers = pair_feeds_by_name(alloc, first, new)?;
        let old = Style::new(alloc, format, old)?;
        let new = Style::paired(alloc, format, first, new)?;
        Ok(DiffOptions {
            by,
            output,
            numbers,
            old,
            new,
        })
    }

    /// Returns the header of differences: in CSV a line with the names of the columns, else no bytes.
    #[tactic(auto, unfolding(crate::specs::DifferenceText::differences_header))]
    pub fn header(&self) -> &'static [u8]
        ensures { result.now ≡ differences_header self.now }
    {
        match self.old.syntax() {
            Syntax::Line | Syntax::Json => b"",
            Syntax::Csv => csv_header(self.by, self.output),
        }
    }

    /// Returns the syntax in which differences are printed.
    pub(crate) fn syntax(&self) -> Syntax
        ensures { result ≡ self.now.old.syntax }
    {
        self.old.syntax()
    }

    /// Returns the comparison of these two tables.
    pub fn comparison<'a>(
        &'a self,
        old: &'a Table<Global>,
        new: &'a Table<Global>,
    ) -> Comparison<'a, Global>
        ensures { result ≡ record {
          by = self.now.by;
          old_table = own_numbers old.now.routes;
          new_table = record { routes = new.now.routes; numbers = self.now.numbers };
        } }
    {
        let mut tables = Comparison::new(old, new, self.by);
        tables.renumber_new_feeds(self.numbers.as_slice());
        tables
    }

    /// Returns these two tables with the way in which they are compared.
    pub fn compared_tables<'a>(
        &'a self,
        old: &'a TableUnion<Global>,
        new: &'a TableUnion<Global>,
    ) -> ComparedTables<'a, Global>
        ensures { result ≡ record {
          by = self.now.by;
          old_table = own_numbers old.now;
          new_table = record { routes = new.now; numbers = self.now.numbers };
        } }
    {
        ComparedTables::new(old, new, self.by, self.numbers.as_slice())
    }
}

/// Returns the names of the columns of differences.
#[tactic(auto, unfolding(crate::specs::Csv::csv_field))]
fn csv_header(by: CompareBy, output: DiffOutput) -> &'static [u8]
    ensures { result.now ≡ csv_line (difference_columns by output) }
{
    match (by, output) {
        (CompareBy::Hop, DiffOutput::Ranges) => {
            b"first,last,old_via,old_discard,new_via,new_discard\r\n"
        }
        (CompareBy::Hop, DiffOutput::Prefixes) => {
            b"prefix,old_via,old_discard,new_via,new_discard\r\n"
        }
        (CompareBy::Route, DiffOutput::Ranges) => {
            b"first,last,old_prefix,old_feed,old_name,old_file,old_pref,old_via,old_discard,new_prefix,new_feed,new_name,new_file,new_pref,new_via,new_discard\r\n"
        }
        (CompareBy::Route, DiffOutput::Prefixes) => {
            b"prefix,old_prefix,old_feed,old_name,old_file,old_pref,old_via,old_discard,new_prefix,new_feed,new_name,new_file,new_pref,new_via,new_discard\r\n"
        }
    }
}
