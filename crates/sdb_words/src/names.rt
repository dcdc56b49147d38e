//! Names among the words.
ghost use Rattle.sdb_types.specs.NameText.{around};
ghost use Rattle.std.specs.Prelude.{◌≡◌, ◌≢◌, ◌&&◌, ◌↔◌, find, slice_get, IfOk, IsErrOf, IsTrue};
ghost use Rattle.std.specs.Option.{option_copied, option_map};
ghost use Rattle.std.specs.Str.{bytes_eq};
ghost use Rattle.sdb_record.specs.Parts.{is_column_name};
ghost use Rattle.sdb_types.specs.declared.key.TableName.{TableName};
ghost use Rattle.sdb_words.specs.declared.command.WordsRefused.{WordsRefused};
ghost use Rattle.sdb_words.specs.Names.{IsTable};
ghost use Rattle.sdb_types.specs.Order.{table_text};

use crate::command::WordsRefused;
use sdb_loader::{is_short_name, known_name};
use sdb_types::{Name, Names, TableName};
use std::alloc::Global;

/// The attached store of that name.
pub fn attached<'a>(stores: &'a Names, word: &str) -> Option<&'a Name>
    ensures { option_copied result ≡ find (λ n. bytes_eq n word.now) stores.now }
{
    stores.iter().find(|name| name.as_str() == word)
}

/// Whether a name is that of the first store.
pub fn is_first(stores: &Names, name: &Name) -> bool
    ensures { IsTrue result ↔ (slice_get stores.now 0 ≡ Some name.now) }
{
    match stores.first() {
        Some(first) => first == name,
        None => false,
    }
}

fn around_dot(word: &str) -> Option<(&str, &str)>
    ensures { option_map (λ p. (p.0.now, p.1.now)) result ≡ around 46 word.now }
{
    word.split_once('.')
}

fn are_names(ns: &str, table: &str) -> bool
    ensures { result ≡ (is_column_name ns.now && is_column_name table.now) }
{
    is_short_name(ns) && is_short_name(table)
}

/// The table that a word names: two identifiers of at most 64 bytes, joined by one dot.
pub fn table_in(alloc: Global, word: &str) -> Result<TableName, WordsRefused>
    ensures ok { IfOk result (λ table. IsTable table × (word.now ≡ table_text table)) }
    ensures usage { IsErrOf result WordsRefused.Usage → (table : TableName) → IsTable table → word.now ≢ table_text table }
{
    let Some((ns, table)) = around_dot(word) else {
        return Err(WordsRefused::Usage);
    };
    if !are_names(ns, table) {
        return Err(WordsRefused::Usage);
    }
    Ok(TableName {
        ns: known_name(alloc, ns)?,
        table: known_name(alloc, table)?,
    })
}
