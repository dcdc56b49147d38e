//! Laws of the texts that are read.
ghost use Rattle.std.specs.Prelude.{◌≡◌, true, List};
ghost use Rattle.sdb_report.specs.Types.{Event, Value};
ghost use Rattle.sdb_model.specs.Plain.{values_are_plain, is_one_line, HasPlainParts};
ghost use Rattle.sdb_model.specs.Report.{event_text_of};
ghost use Rattle.sdb_model.specs.Texts.{row_text_of};
ghost use Rattle.sdb_report.specs.OneLine.{ValuesHaveNoLf, EventHasNoLf};

/// Where no text in an event or a row has an LF, what is printed of it is one line.
pub fn one_line()
    ensures events { (e : Event) → HasPlainParts e → EventHasNoLf e → is_one_line (event_text_of e) ≡ true }
    ensures rows { (row : List Value) → values_are_plain row → ValuesHaveNoLf row → is_one_line (row_text_of row) ≡ true }
{}
