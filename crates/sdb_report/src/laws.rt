//! Laws of reports.
ghost use Rattle.std.specs.Prelude.{◌≡◌};
ghost use Rattle.sdb_model.specs.Plain.{IsPlain};
ghost use Rattle.sdb_model.specs.Report.{report_text_of};
ghost use Rattle.sdb_model.specs.declared.event.Outcome.{Outcome};

/// No two plain outcomes have one report.
pub fn one_text()
    ensures { (o p : Outcome) → IsPlain o → IsPlain p → report_text_of o ≡ report_text_of p → o ≡ p }
{}
