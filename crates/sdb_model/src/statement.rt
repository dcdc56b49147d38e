//! Statements. A value in a statement is a literal, and a number there is held as a BigInt.
ghost use Rattle.std.specs.Prelude.{◌≡◌, IfOk};

use sdb_types::{Duplicate, Name, Names, NoMemory, Pair, Seq, TableName, Value, Values};

#[derive(Clone, Copy, Debug, PartialEq, Eq)]
pub enum Comparison {
    Eq,
    Ne,
    Lt,
    Le,
    Gt,
    Ge,
}

/// A test of a column in WHERE.
#[derive(Debug, PartialEq, Eq)]
pub enum Test {
    Compare(Name, Comparison, Value),
    IsNull(Name),
    NotNull(Name),
}

// By hand: each drop is then one call, where a derived one is written out at each exit, with a call for each field.
impl Drop for Test {
    fn drop(self) {
        match self {
            Test::Compare(_, _, _) => {}
            Test::IsNull(_) => {}
            Test::NotNull(_) => {}
        }
    }
}

pub type Tests = Seq<Test>;

/// A column name in a statement, with its literal where it has one.
#[derive(Debug)]
pub struct Mention {
    pub name: Name,
    pub literal: Option<Value>,
}

// By hand: each drop is then one call, where a derived one is written out at each exit, with a call for each field.
impl Drop for Mention {
    fn drop(self) {
        let Mention {
            name: _,
            literal: _,
        } = self;
    }
}

pub type Mentions = Seq<Mention>;

/// The columns that UPDATE sets, each to a literal or to Null.
pub type Sets = Seq<Pair>;

#[derive(Debug, PartialEq, Eq)]
pub struct Insert {
    pub table: TableName,
    pub columns: Names,
    pub values: Values,
}

// By hand: each drop is then one call, where a derived one is written out at each exit, with a call for each field.
impl Drop for Insert {
    fn drop(self) {
        let Insert {
            table: _,
            columns: _,
            values: _,
        } = self;
    }
}

#[derive(Debug, PartialEq, Eq)]
pub struct Update {
    pub table: TableName,
    pub sets: Sets,
    pub tests: Tests,
}

// By hand: each drop is then one call, where a derived one is written out at each exit, with a call for each field.
impl Drop for Update {
    fn drop(self) {
        let Update {
            table: _,
            sets: _,
            tests: _,
        } = self;
    }
}

#[derive(Debug, PartialEq, Eq)]
pub struct Delete {
    pub table: TableName,
    pub tests: Tests,
}

// By hand: each drop is then one call, where a derived one is written out at each exit, with a call for each field.
impl Drop for Delete {
    fn drop(self) {
        let Delete { table: _, tests: _ } = self;
    }
}

/// The columns are none for `*`.
#[derive(Debug, PartialEq, Eq)]
pub struct Select {
    pub table: TableName,
    pub columns: Option<Names>,
    pub tests: Tests,
    pub limit: Option<i64>,
}

// By hand: each drop is then one call, where a derived one is written out at each exit, with a call for each field.
impl Drop for Select {
    fn drop(self) {
        let Select {
            table: _,
            columns: _,
            tests: _,
            limit: _,
        } = self;
    }
}

#[derive(Debug, PartialEq, Eq)]
pub enum Statement {
    Begin,
    Commit,
    Rollback,
    Vacuum,
    Insert(Insert),
    Upsert(Insert),
    Update(Update),
    Delete(Delete),
    Select(Select),
}

// By hand: each drop is then one call, where a derived one is written out at each exit, with a call for each field.
impl Drop for Statement {
    fn drop(self) {
        match self {
            Statement::Begin => {}
            Statement::Commit => {}
            Statement::Rollback => {}
            Statement::Vacuum => {}
            Statement::Insert(_) => {}
            Statement::Upsert(_) => {}
            Statement::Update(_) => {}
            Statement::Delete(_) => {}
            Statement::Select(_) => {}
        }
    }
}

impl Duplicate for Test {
    fn copy(&self) -> Result<Test, NoMemory> {
        match self {
            Test::Compare(name, comparison, value) => {
                Ok(Test::Compare(name.copy()?, *comparison, value.copy()?))
            }
            Test::IsNull(name) => Ok(Test::IsNull(name.copy()?)),
            Test::NotNull(name) => Ok(Test::NotNull(name.copy()?)),
        }
    }
}

impl Duplicate for Insert {
    fn copy(&self) -> Result<Insert, NoMemory> {
        Ok(Insert {
            table: self.table.copy()?,
            columns: self.columns.copy()?,
            values: self.values.copy()?,
        })
    }
}

impl Duplicate for Update {
    fn copy(&self) -> Result<Update, NoMemory> {
        Ok(Update {
            table: self.table.copy()?,
            sets: self.sets.copy()?,
            tests: self.tests.copy()?,
        })
    }
}

impl Duplicate for Delete {
    fn copy(&self) -> Result<Delete, NoMemory> {
        Ok(Delete {
            table: self.table.copy()?,
            tests: self.tests.copy()?,
        })
    }
}

impl Duplicate for Select {
    fn copy(&self) -> Result<Select, NoMemory> {
        Ok(Select {
            table: self.table.copy()?,
            columns: self.columns.copy()?,
            tests: self.tests.copy()?,
            limit: self.limit,
        })
    }
}

impl Duplicate for Statement {
    fn copy(&self) -> Result<Statement, NoMemory> {
        match self {
            Statement::Begin => Ok(Statement::Begin),
            Statement::Commit => Ok(Statement::Commit),
            Statement::Rollback => Ok(Statement::Rollback),
            Statement::Vacuum => Ok(Statement::Vacuum),
            Statement::Insert(s) => Ok(Statement::Insert(s.copy()?)),
            Statement::Upsert(s) => Ok(Statement::Upsert(s.copy()?)),
            Statement::Update(s) => Ok(Statement::Update(s.copy()?)),
            Statement::Delete(s) => Ok(Statement::Delete(s.copy()?)),
            Statement::Select(s) => Ok(Statement::Select(s.copy()?)),
        }
    }
}
