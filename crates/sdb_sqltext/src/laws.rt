//! Laws of the grammar of statements.
ghost use Rattle.std.specs.Prelude.{◌≡◌, ◌↔◌, ℕ, List, true};
ghost use Rattle.sdb_sqltext.specs.Types.{Refusal, Statement};
ghost use Rattle.sdb_model.specs.declared.statement.Statement.TheVariants as statement;
ghost use Rattle.sdb_model.specs.Sql.{Reads, Refuses, reads_begin, reads_commit, reads_rollback, reads_vacuum, statement_text_of};

/// A text is read as one statement at most, or is refused for one cause.
pub fn one_reading()
    ensures statement { (text : List ℕ) (a b : Statement) → Reads text a → Reads text b → a ≡ b }
    ensures refusal { (text : List ℕ) (a b : Refusal) → Refuses text a → Refuses text b → a ≡ b }
    ensures either { (text : List ℕ) (st : Statement) (r : Refusal) → Reads text st → Refuses text r → ⊥ }
{}

/// A statement that some text is read as is read again from its printed text.
pub fn printed_again()
    ensures { (text : List ℕ) (st : Statement) → Reads text st → Reads (statement_text_of st) st }
{}

/// A text is read as a statement of one word exactly where it is made of that keyword, with or without `;` after it.
pub fn words_are_read()
    ensures begin { (text : List ℕ) → (reads_begin text ≡ true) ↔ Reads text statement.Begin }
    ensures commit { (text : List ℕ) → (reads_commit text ≡ true) ↔ Reads text statement.Commit }
    ensures rollback { (text : List ℕ) → (reads_rollback text ≡ true) ↔ Reads text statement.Rollback }
    ensures vacuum { (text : List ℕ) → (reads_vacuum text ≡ true) ↔ Reads text statement.Vacuum }
{}
