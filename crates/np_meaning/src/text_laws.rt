//! What the texts of rows tell.
ghost use Rattle.std.specs.Prelude.{◌≡◌, ℕ, All, Option};
ghost use Rattle.np_addr.specs.declared.address.Family.{Family};
ghost use Rattle.np_args.specs.declared.report.Report.{Report};
ghost use Rattle.np_base.specs.declared.range.Range.{Range};
ghost use Rattle.np_fold.specs.Prelude.{folding_of};
ghost use Rattle.np_meaning.specs.Prelude.{IsEndOf, IsRangeOf, IsRowOf, IsSpan};
ghost use Rattle.np_model.specs.Prelude.{IsFew, IsLawful};
ghost use Rattle.np_model.specs.declared.lists.EstateLists.{EstateLists};
ghost use Rattle.np_report.specs.Prelude.{ends_text, names_of, row_end_text, row_text, span_text};
ghost use Rattle.np_routes.specs.Prelude.{cluster_rows, cluster_table};
ghost use Rattle.np_table.specs.Prelude.{all_rows, estate_table};
ghost use Rattle.np_table.specs.declared.rows.AddressSpan.{AddressSpan};
ghost use Rattle.np_table.specs.declared.rows.Row.{Row};
ghost use Rattle.np_table.specs.declared.rows.RowEnd.{RowEnd};

/// The text of a range of addresses by its ends is that of no other range, of either family; nor is that in a report, of
/// which one tells a range by its ends and the other by its blocks.
pub fn one_text_has_one_span()
    ensures ends { (family family' : Family) (range range' : Range ℕ) → IsRangeOf family range → IsRangeOf family' range' →
        ends_text family range ≡ ends_text family' range' → (family ≡ family') × (range ≡ range') }
    ensures spans { (report : Report) (a b : AddressSpan) → IsSpan a → IsSpan b →
        span_text report a ≡ span_text report b → a ≡ b }
{}

/// The text of an end is that of no other end of the estate: neither do two workloads have one, nor has a workload, whatever
/// its name, that of a range of addresses or of the controller of Ingresses.
pub fn one_text_has_one_end()
    ensures { (lists : EstateLists) (report : Report) (a b : RowEnd) → IsFew lists → IsEndOf lists a → IsEndOf lists b →
        row_end_text (names_of (folding_of lists)) report a ≡ row_end_text (names_of (folding_of lists)) report b → a ≡ b }
{}

/// The texts of a row are those of no other row: they tell its ends, the family that it is of, if it is of one alone, and its
/// connections.
pub fn one_text_has_one_row()
    ensures { (lists : EstateLists) (report : Report) (a b : Row) → IsLawful lists → IsRowOf lists a → IsRowOf lists b →
        row_text (names_of (folding_of lists)) report a ≡ row_text (names_of (folding_of lists)) report b → a ≡ b }
{}

/// Every row of the table of an estate is one of which the law above speaks: each end is a workload of the estate, a range of
/// addresses of one family with at least one in it, or the controller of Ingresses, and the ports of its connections are ranges
/// with gaps between them.
pub fn rows_of_the_table_are_of_the_estate()
    ensures table { (lists : EstateLists) → All (IsRowOf lists) (all_rows (estate_table lists)) }
    // So is every row with those from the controller of Ingresses among them.
    ensures cluster { (lists : EstateLists) (controller : Option ℕ) →
        All (IsRowOf lists) (cluster_rows (cluster_table lists controller)) }
{}
