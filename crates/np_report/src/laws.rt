//! What follows from the definitions of the table's text. Each law is the contract of a call that does nothing.
ghost use Rattle.std.specs.Prelude.{◌≡◌};
ghost use Rattle.np_report.specs.Prelude.{SayTheSame, list_text};
ghost use Rattle.np_report.specs.declared.query.Query.{Query};
ghost use Rattle.np_routes.specs.Prelude.{ClusterTable};
ghost use Rattle.np_args.specs.declared.format.Format.{Format};
ghost use Rattle.np_args.specs.declared.report.Report.{Report};

/// Tables of clusters with the same names and families, where the same passes, have one text for each query, format and
/// report, whatever they were made of.
pub fn equal_tables_print_equal_bytes()
    ensures { (a b : ClusterTable) (query : Query) (format : Format) (report : Report) → SayTheSame a b →
        list_text a query format report ≡ list_text b query format report }
{}
