//! The statements, one a function.
ghost use Rattle.std.specs.Prelude.{◌≡◌, [], ◌∷◌};
ghost use Rattle.sqlite.specs.declared.types.Value.TheVariants.{Text, Blob};
ghost use Rattle.std.specs.String.{string_bytes};
ghost use Rattle.sdb_sqlite.specs.Asked.{Asked, Ran, rows_of};
ghost use Rattle.sdb_sqlite.specs.Making.{Makes};
ghost use Rattle.sdb_sqlite.specs.Statements as text;

use crate::held::Held;
use sqlite::{Connection, Error, Row, params};

/// Makes the table and its index by table and partition, where there are none of their names.
pub fn make_table<S: Held>(connection: &mut Connection<S>) -> Result<usize, Error>
    ensures { Makes S.Store connection.old connection.new result }
{
    match connection.execute(
        "CREATE TABLE IF NOT EXISTS records(k BLOB NOT NULL PRIMARY KEY, t TEXT NOT NULL, p BLOB NOT NULL, r BLOB NOT NULL) STRICT",
        &[],
    ) {
        Ok(_) => connection.execute(
            "CREATE INDEX IF NOT EXISTS records_by_partition ON records(t, p)",
            &[],
        ),
        Err(error) => Err(error),
    }
}

/// The body of the row with a key.
pub fn body_at<S: Held>(connection: &mut Connection<S>, key: &[u8]) -> Result<Vec<Row>, Error>
    ensures { Asked S.Store text.get_body (Blob key.now ∷ []) connection.old connection.new (rows_of result) }
{
    connection.query_all("SELECT r FROM records WHERE k = ?1", params![key])
}

/// The keys and bodies of a table's rows.
pub fn table_rows<S: Held>(connection: &mut Connection<S>, table: &str) -> Result<Vec<Row>, Error>
    ensures { Asked S.Store text.scan_table (Text table.now ∷ []) connection.old connection.new (rows_of result) }
{
    connection.query_all("SELECT k, r FROM records WHERE t = ?1", params![table])
}

/// The keys and bodies of a partition's rows.
pub fn partition_rows<S: Held>(
    connection: &mut Connection<S>,
    table: &str,
    partition: &[u8],
) -> Result<Vec<Row>, Error>
    ensures { Asked S.Store text.scan_partition (Text table.now ∷ Blob partition.now ∷ []) connection.old connection.new (rows_of result) }
{
    connection.query_all(
        "SELECT k, r FROM records WHERE t = ?1 AND p = ?2",
        params![table, partition],
    )
}

/// Adds a row.
pub fn add_row<S: Held>(
    connection: &mut Connection<S>,
    key: &[u8],
    table: &str,
    partition: &[u8],
    body: &[u8],
) -> Result<usize, Error>
    ensures { Ran S.Store text.add_row (Blob key.now ∷ Text table.now ∷ Blob partition.now ∷ Blob body.now ∷ []) connection.old connection.new result }
{
    connection.execute(
        "INSERT INTO records (k, t, p, r) VALUES (?1, ?2, ?3, ?4)",
        params![key, table, partition, body],
    )
}

/// Changes the body of the row with a key.
pub fn change_row<S: Held>(
    connection: &mut Connection<S>,
    key: &[u8],
    body: &[u8],
) -> Result<usize, Error>
    ensures { Ran S.Store text.change_row (Blob key.now ∷ Blob body.now ∷ []) connection.old connection.new result }
{
    connection.execute("UPDATE records SET r = ?2 WHERE k = ?1", params![key, body])
}

/// Takes the row with a key out.
pub fn remove_row<S: Held>(connection: &mut Connection<S>, key: &[u8]) -> Result<usize, Error>
    ensures { Ran S.Store text.remove_row (Blob key.now ∷ []) connection.old connection.new result }
{
    connection.execute("DELETE FROM records WHERE k = ?1", params![key])
}

/// Begins a transaction.
pub fn begin<S: Held>(connection: &mut Connection<S>) -> Result<usize, Error>
    ensures { Ran S.Store text.begin [] connection.old connection.new result }
{
    connection.execute("BEGIN", &[])
}

/// Makes what was written in a transaction last.
pub fn commit<S: Held>(connection: &mut Connection<S>) -> Result<usize, Error>
    ensures { Ran S.Store text.commit [] connection.old connection.new result }
{
    connection.execute("COMMIT", &[])
}

/// Takes back what was written in a transaction.
pub fn roll_back<S: Held>(connection: &mut Connection<S>) -> Result<usize, Error>
    ensures { Ran S.Store text.roll_back [] connection.old connection.new result }
{
    connection.execute("ROLLBACK", &[])
}
