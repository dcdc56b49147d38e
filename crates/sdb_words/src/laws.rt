//! What holds of the words of commands.
ghost use Rattle.std.specs.Prelude.{◌≡◌, ℕ, List};
ghost use Rattle.sdb_words.specs.declared.command.Command.{Command};
ghost use Rattle.sdb_words.specs.Commands.{AreWordsOf};

/// Words are those of one command at most.
pub fn words_are_exact()
    ensures { (stores words : List (List ℕ)) (a b : Command) → AreWordsOf stores a words → AreWordsOf stores b words → a ≡ b }
{}
