//! Values, names and columns from constants.
use sdb_types::{Columns, Name, NameRefused, Names, NoMemory, Octets, Txt, Value, Values};
use std::alloc::Global;

/// A value as a constant.
#[derive(Clone, Copy)]
pub enum Cell {
    Null,
    Bool(bool),
    Int(i32),
    BigInt(i64),
    Text(&'static str),
    Blob(&'static [u8]),
}

pub fn value_of(alloc: Global, cell: Cell) -> Result<Value, NoMemory> {
    match cell {
        Cell::Null => Ok(Value::Null),
        Cell::Bool(bit) => Ok(Value::Bool(bit)),
        Cell::Int(number) => Ok(Value::Int(number)),
        Cell::BigInt(number) => Ok(Value::BigInt(number)),
        Cell::Text(text) => Ok(Value::Text(Txt::new(alloc, text)?)),
        Cell::Blob(bytes) => Ok(Value::Blob(Octets::from_slice(alloc, bytes)?)),
    }
}

pub fn values_of(alloc: Global, cells: &[Cell]) -> Result<Values, NoMemory> {
    let mut values = Values::new(alloc);
    for cell in cells {
        values.push(value_of(alloc, *cell)?)?;
    }
    Ok(values)
}

pub fn names_of(alloc: Global, texts: &[&str]) -> Result<Names, NameRefused> {
    let mut names = Names::new(alloc);
    for text in texts {
        names.push(Name::new(alloc, text)?)?;
    }
    Ok(names)
}

pub fn set_column(
    alloc: Global,
    columns: &mut Columns,
    name: &str,
    cell: Cell,
) -> Result<(), NameRefused> {
    let name = Name::new(alloc, name)?;
    Ok(columns.set(name, value_of(alloc, cell)?)?)
}

/// Sets these columns, in this order.
pub fn set_columns(
    alloc: Global,
    columns: &mut Columns,
    cells: &[(&str, Cell)],
) -> Result<(), NameRefused> {
    for (name, cell) in cells {
        set_column(alloc, columns, name, *cell)?;
    }
    Ok(())
}

/// The columns that are set in this order.
pub fn columns_of(alloc: Global, cells: &[(&str, Cell)]) -> Result<Columns, NameRefused> {
    let mut columns = Columns::new(alloc);
    set_columns(alloc, &mut columns, cells)?;
    Ok(columns)
}
