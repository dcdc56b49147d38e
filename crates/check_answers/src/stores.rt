//! What the stores contain at the moments of a run.
ghost use Rattle.std.specs.Prelude.{◌≡◌, find};
ghost use Rattle.std.specs.Option.{option_copied};
ghost use Rattle.sdb_model.specs.Events.{first_name, contents_under, moment, store_of};
ghost use Rattle.sdb_model.specs.Rows.{same_name};
ghost use Rattle.check_answers.specs.Values.{all_moments, all_contents};

use check_tables::PlainTables;
use sdb_model::{Place, Places};
use sdb_types::{Name, Seq};

/// What one store contains, with the store's name.
pub struct StoreContents {
    pub name: Name,
    pub rows: PlainTables,
}

// By hand: each drop is then one call, where a derived one is written out at each exit, with a call for each field.
impl Drop for StoreContents {
    fn drop(self) {
        let StoreContents { name: _, rows: _ } = self;
    }
}

/// What the stores contain at one moment.
pub type Shelves = Seq<StoreContents>;

/// Where namespaces are placed, and what the stores contain: before all events, and after each.
pub struct Stores {
    pub places: Places,
    pub opening: Shelves,
    pub moments: Seq<Shelves>,
}

// By hand: each drop is then one call, where a derived one is written out at each exit, with a call for each field.
impl Drop for Stores {
    fn drop(self) {
        let Stores {
            places: _,
            opening: _,
            moments: _,
        } = self;
    }
}

/// What the stores contain after so many events.
pub fn moment_at<'a>(
    opening: &'a [StoreContents],
    moments: &'a [Shelves],
    n: u64,
) -> &'a [StoreContents]
    ensures { all_contents result.now ≡ moment (all_contents opening.now) (all_moments moments.now) n }
{
    if n == 0 {
        return opening;
    }
    match moments.split_first() {
        Some((first, rest)) => moment_at(first.as_slice(), rest, n - 1),
        None => opening,
    }
}

fn placed<'a>(places: &'a [Place], ns: &Name) -> Option<&'a Place>
    ensures { option_copied result ≡ find (λ p. same_name p.ns ns.now) places.now }
{
    for place in places {
        if place.ns.cmp(ns).is_eq() {
            return Some(place);
        }
    }
    None
}

fn find_shelf<'a>(store_contents: &'a [StoreContents], name: &Name) -> Option<&'a StoreContents>
    ensures { option_copied result ≡ find (λ s. same_name s.name name.now) store_contents.now }
{
    for store_content in store_contents {
        if store_content.name.cmp(name).is_eq() {
            return Some(store_content);
        }
    }
    None
}

// What the store of a name contains.
#[tactic(auto, using(crate::proofs::StoreLaws::held_is))]
fn kept_by<'a>(store_contents: &'a [StoreContents], name: &Name) -> Option<&'a PlainTables>
    ensures { option_copied result ≡ contents_under (all_contents store_contents.now) name.now }
{
    match find_shelf(store_contents, name) {
        Some(store_content) => Some(&store_content.rows),
        None => None,
    }
}

// What the first store contains, where there is one.
#[tactic(auto)]
fn kept_first(store_contents: &[StoreContents]) -> Option<&PlainTables>
    ensures { option_copied result ≡ contents_under (all_contents store_contents.now) (first_name (all_contents store_contents.now)) }
{
    match store_contents.first() {
        Some(first) => kept_by(store_contents, &first.name),
        None => None,
    }
}

/// What the store of a namespace contains.
pub fn contents_for<'a>(
    places: &[Place],
    store_contents: &'a [StoreContents],
    ns: &Name,
) -> Option<&'a PlainTables>
    ensures { option_copied result ≡ contents_under (all_contents store_contents.now) (store_of places.now (all_contents store_contents.now) ns.now) }
{
    match placed(places, ns) {
        Some(place) => kept_by(store_contents, &place.store),
        None => kept_first(store_contents),
    }
}
