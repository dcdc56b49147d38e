//! Words that place namespaces.
ghost use Rattle.sdb_types.specs.NameText.{around};
ghost use Rattle.std.specs.Prelude.{◌≡◌, ◌≢◌, List, map, string_bytes, IfOk, IsErrOf};
ghost use Rattle.std.specs.Option.{option_map};
ghost use Rattle.sdb_types.specs.declared.place.Place.{Place};
ghost use Rattle.sdb_words.specs.declared.command.WordsRefused.{WordsRefused};
ghost use Rattle.sdb_words.specs.Places.{is_placed as is_placed_lem, place_text, ArePlaces, IsPlace};

use crate::command::WordsRefused;
use crate::names::attached;
use sdb_loader::{is_short_name, known_name};
use sdb_types::{Duplicate, Name, Names, Place, Seq};
use std::alloc::Global;

fn around_equals(word: &str) -> Option<(&str, &str)>
    ensures { option_map (λ p. (p.0.now, p.1.now)) result ≡ around 61 word.now }
{
    word.split_once('=')
}

// The place that a word is: `NS=STORE`.
fn place_in(alloc: Global, stores: &Names, word: &str) -> Result<Place, WordsRefused>
    ensures ok { IfOk result (λ place. IsPlace stores.now place × (word.now ≡ place_text place)) }
    ensures usage { IsErrOf result WordsRefused.Usage → (place : Place) → IsPlace stores.now place → word.now ≢ place_text place }
{
    let Some((ns, store)) = around_equals(word) else {
        return Err(WordsRefused::Usage);
    };
    if !is_short_name(ns) || ns == "scalardb" {
        return Err(WordsRefused::Usage);
    }
    let Some(store) = attached(stores, store) else {
        return Err(WordsRefused::Usage);
    };
    Ok(Place {
        ns: known_name(alloc, ns)?,
        store: store.copy()?,
    })
}

// Whether one of these places has the namespace.
fn is_placed(places: &Seq<Place>, ns: &Name) -> bool
    ensures { result ≡ is_placed_lem places.now ns.now }
{
    places.iter().any(|place| place.ns == *ns)
}

/// The places that words are, each namespace once.
pub fn places_in(
    alloc: Global,
    stores: &Names,
    words: &[String],
) -> Result<Seq<Place>, WordsRefused>
    ensures ok { IfOk result (λ places. ArePlaces stores.now places × (map string_bytes words.now ≡ map place_text places)) }
    ensures usage { IsErrOf result WordsRefused.Usage → (places : List Place) → ArePlaces stores.now places → map string_bytes words.now ≢ map place_text places }
{
    let mut places = Seq::new(alloc);
    for word in words {
        let place = place_in(alloc, stores, word.as_str())?;
        if is_placed(&places, &place.ns) {
            return Err(WordsRefused::Usage);
        }
        places.push(place)?;
    }
    Ok(places)
}
