//! Laws of the definitions that contracts cite.
ghost use Rattle.std.specs.Prelude.{◌≡◌, ℕ, List, Ok};
ghost use Rattle.std.specs.List.{AllByRecursion};
ghost use Rattle.sdb_sqltext.specs.Types.{Placed, Statement};
ghost use Rattle.sdb_model.specs.SqlTokens.{lexed};
ghost use Rattle.sdb_model.specs.Sql.{Tokens, CanSpell, IsWhole, Reads, tokens_of, tokens_text, statement_tokens, statement_text_of};
ghost use Rattle.sdb_sqltext.specs.Spelled.{IsSpelled};

/// The printed text of tokens that a text can spell is made of these tokens.
pub fn printed_tokens()
    ensures { (ts : Tokens) → AllByRecursion CanSpell ts → (ps : List Placed) × (lexed (tokens_text ts) ≡ Ok ps) × (tokens_of ps ≡ ts) }
{}

/// The printed text of a statement whose tokens a text can spell is read as that statement.
pub fn printed_statement()
    ensures { (st : Statement) → IsWhole st → AllByRecursion CanSpell (statement_tokens st) → Reads (statement_text_of st) st }
{}

/// A text can spell each token that a text has, but for those that are too long for a name.
pub fn read_tokens_spelled()
    ensures { (text : List ℕ) (ps : List Placed) → lexed text ≡ Ok ps → AllByRecursion IsSpelled (tokens_of ps) }
{}
