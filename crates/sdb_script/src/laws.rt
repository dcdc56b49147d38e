//! Laws of scripts as texts.
ghost use Rattle.std.specs.Prelude.{◌≡◌, ◌⊎◌, ◌≤◌, ℕ, List, length, true};
ghost use Rattle.sdb_schema.specs.Catalog.{is_catalog};
ghost use Rattle.sdb_model.specs.declared.script.Script.{Script};
ghost use Rattle.sdb_script.specs.declared.fault.ScriptRefused.{ScriptRefused};
ghost use Rattle.sdb_script.specs.Lines.{most_bytes};
ghost use Rattle.sdb_script.specs.Whole.{IsScript, IsRefused};
ghost use Rattle.sdb_script.specs.Printed.{fits_line, script_text_of};

/// A text is one script, or is refused for one cause, and not both.
pub fn scripts_are_exact()
    ensures one { (stores : List (List ℕ)) (text : List ℕ) (s t : Script) → IsScript stores text s → IsScript stores text t → s ≡ t }
    ensures cause { (stores : List (List ℕ)) (text : List ℕ) (r q : ScriptRefused) → IsRefused stores text r → IsRefused stores text q → r ≡ q }
    ensures apart { (stores : List (List ℕ)) (text : List ℕ) (s : Script) (r : ScriptRefused) → IsScript stores text s → ¬ IsRefused stores text r }
    ensures total { (stores : List (List ℕ)) (text : List ℕ) → ((s : Script) × IsScript stores text s) ⊎ ((r : ScriptRefused) × IsRefused stores text r) }
{}

/// What is printed of a script that some text is, is that script again, where the printed text keeps the limits of a text and of its
/// schema's line.
pub fn printed_scripts_are_read()
    ensures again { (stores : List (List ℕ)) (text : List ℕ) (s : Script) → IsScript stores text s → is_catalog s.catalog ≡ true → fits_line s.catalog ≡ true
        → length (script_text_of s) ≤ most_bytes → IsScript stores (script_text_of s) s }
{}
