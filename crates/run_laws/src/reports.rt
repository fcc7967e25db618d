//! Example reports.
ghost use Rattle.std.specs.Prelude.{◌≡◌, [], ◌∷◌, ◌++◌, codes};
ghost use Rattle.zy_report.specs.Report.{report_of, table};
ghost use Rattle.run_laws.specs.WorkedReport.{all_zero, one_each, large};

/// The report on no entry, and tables of example counts: shards without counts have no line, and a
/// number of more than 12 digits takes more places.
pub fn worked_reports()
    ensures none { report_of [] ≡ codes "all           0           0           0           0           0\n" }
    ensures rows { table (all_zero ∷ one_each ∷ all_zero ∷ one_each ∷ [])
        ≡ codes "  1           1           2           3           4           5\n"
        ++ (codes "  3           1           2           3           4           5\n"
        ++ codes "all           2           4           6           8          10\n") }
    ensures wide { table (large ∷ [])
        ≡ codes "  01000000000000           0          12123456789012           0\n"
        ++ codes "all1000000000000           0          12123456789012           0\n" }
{}
