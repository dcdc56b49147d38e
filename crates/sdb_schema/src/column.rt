//! Columns by their names. Where these rise, half of the columns that are left is passed over at each step.
ghost use Rattle.std.specs.Prelude.{◌≡◌, true, find, drop};
ghost use Rattle.std.specs.Option.{option_copied};
ghost use Rattle.sdb_record.specs.Names.{same_name};
ghost use Rattle.sdb_schema.specs.Table.{is_above_column, rises};
ghost use Rattle.sdb_schema.specs.Sought.{place_in, first_named};

use crate::table::Column;
use sdb_types::Name;

// So many columns are looked at by their names in less time than a place is found by their order.
const FEW: usize = 4;

// Where the name is, or would be.
fn place_of(columns: &[Column], name: &Name) -> usize
    requires { rises columns.now ≡ true }
    ensures { result ≡ place_in name.now columns.now }
{
    let text = name.as_str();
    columns.partition_point(|column| column.name.as_str().cmp(text).is_lt())
}

fn named_at<'a>(columns: &'a [Column], place: usize, name: &Name) -> Option<&'a Column>
    ensures { option_copied result ≡ first_named name.now (drop place columns.now) }
{
    match columns.get(place) {
        Some(column) if column.name.is_same(name) => Some(column),
        _ => None,
    }
}

fn find_by_place<'a>(columns: &'a [Column], name: &Name) -> Option<&'a Column>
    requires { rises columns.now ≡ true }
    ensures { option_copied result ≡ find (λ c. same_name c.name name.now) columns.now }
{
    named_at(columns, place_of(columns, name), name)
}

fn find_in_all<'a>(columns: &'a [Column], name: &Name) -> Option<&'a Column>
    ensures { option_copied result ≡ find (λ c. same_name c.name name.now) columns.now }
{
    columns.iter().find(|column| column.name.is_same(name))
}

/// The first column of a name. Columns that are known to rise aren't all gone through.
pub fn find_column<'a>(columns: &'a [Column], rising: bool, name: &Name) -> Option<&'a Column>
    requires { rising ≡ true → rises columns.now ≡ true }
    ensures { option_copied result ≡ find (λ c. same_name c.name name.now) columns.now }
{
    if rising {
        find_by_place(columns, name)
    } else {
        find_in_all(columns, name)
    }
}

// The place of a name among so many columns from a place on, or else one where it isn't.
fn place_ahead(columns: &[Column], few: usize, place: usize, name: &Name) -> usize {
    match columns.get(place) {
        Some(column) if few > 0 && !column.name.is_same(name) => {
            place_ahead(columns, few - 1, place.saturating_add(1), name)
        }
        _ => place,
    }
}

fn find_ahead<'a>(columns: &'a [Column], place: &mut usize, name: &Name) -> Option<&'a Column>
    requires { rises columns.now ≡ true }
    ensures { option_copied result ≡ find (λ c. same_name c.name name.now) columns.now }
{
    let ahead = place_ahead(columns, FEW, *place, name);
    if let Some(column) = named_at(columns, ahead, name) {
        *place = ahead.saturating_add(1);
        return Some(column);
    }
    let there = place_of(columns, name);
    *place = there.saturating_add(1);
    named_at(columns, there, name)
}

/// The first column of a name. Of columns that are known to rise the few from a place on are looked at first: where names are looked for in
/// their order, each is found there. The place is then the one behind the column that was found.
pub fn find_column_near<'a>(
    columns: &'a [Column],
    rising: bool,
    place: &mut usize,
    name: &Name,
) -> Option<&'a Column>
    requires { rising ≡ true → rises columns.now ≡ true }
    ensures { option_copied result ≡ find (λ c. same_name c.name name.now) columns.now }
{
    if rising {
        find_ahead(columns, place, name)
    } else {
        find_in_all(columns, name)
    }
}

fn starts_above(columns: &[Column], name: &Name) -> bool
    ensures { result ≡ is_above_column name.now columns.now }
{
    match columns.first() {
        Some(column) => name.as_str().cmp(column.name.as_str()).is_lt(),
        None => true,
    }
}

/// Whether columns are in the order of their names, each name once.
pub fn all_rise(columns: &[Column]) -> bool
    ensures { result ≡ rises columns.now }
{
    match columns.split_first() {
        Some((column, rest)) => starts_above(rest, &column.name) && all_rise(rest),
        None => true,
    }
}
