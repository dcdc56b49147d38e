//! A script that is being read, line by line.
ghost use Rattle.std.specs.Prelude.{◌≡◌, ◌==◌, true, false, Ok, Err, OnOk, IfOk, IfErr};
ghost use Rattle.std.specs.List.{list_any};
ghost use Rattle.std.specs.Str.{bytes_eq};
ghost use Rattle.sdb_model.specs.Form.{is_client_name};
ghost use Rattle.sdb_script.specs.Begun.{Draft, nothing, is_first as is_first_lem, is_attached as is_attached_lem};
ghost use Rattle.sdb_script.specs.Reading as spec;

use crate::blocks::Blocks;
use crate::counted::Counted;
use crate::fault::{LineFault, LineRefused};
use crate::moves::move_in;
use crate::placings::Placings;
use crate::schema::catalog_in;
use crate::words::{after, around_space, as_text, is_short_name};
use sdb_loader::known_name;
use sdb_model::{Script, Which};
use sdb_schema::Catalog;
use sdb_types::{Name, Names, NoMemory, Txt};
use std::alloc::Global;
use std::marker::Model;

const MOST_LINE: usize = 65_536;

const MOST_CLIENTS: u32 = 64;

const MOST_STATEMENTS: usize = 20_000;

/// What was read of a script.
pub struct Drafting {
    places: Placings,
    described: bool,
    catalog: Catalog,
    clients: Blocks,
    ran: bool,
    moves: Counted,
}

impl Drop for Drafting {
    fn drop(self) {
        let Drafting {
            places: _,
            described: _,
            catalog: _,
            clients: _,
            ran: _,
            moves: _,
        } = self;
    }
}

impl Model for Drafting {
    ghost use Rattle.sdb_script.specs.Begun.{Draft};

    ghost Value = { Draft };

    ghost view = { λ d. record { places = d.places; described = d.described; catalog = d.catalog; clients = d.clients; ran = d.ran; moves = d.moves } };
}

fn is_attached(stores: &Names, store: &str) -> bool
    ensures { result ≡ is_attached_lem stores.now store.now }
{
    stores.iter().any(|name| store == name.as_str())
}

// A line that has no form that may come there.
fn no_form() -> LineRefused
    ensures { result ≡ LineRefused.Bad LineFault.Form }
{
    LineRefused::Bad(LineFault::Form)
}

impl Drafting {
    /// Nothing was read yet.
    pub fn new(alloc: Global) -> Drafting
        ensures { result ≡ nothing }
    {
        Drafting {
            places: Placings::new(alloc),
            described: false,
            catalog: Catalog::new(alloc),
            clients: Blocks::new(alloc),
            ran: false,
            moves: Counted::new(alloc),
        }
    }

    // Whether nothing but places was read.
    fn is_first(&self) -> bool
        ensures { result ≡ is_first_lem self.now }
    {
        !self.ran && !self.described && self.clients.len() == 0
    }

    // Places a namespace in a store.
    fn put_place(
        &mut self,
        alloc: Global,
        ns: &str,
        store: &str,
        stores: &Names,
    ) -> Result<(), LineRefused>
        requires ns { is_client_name ns.now ≡ true }
        requires store { is_client_name store.now ≡ true }
        ensures ok { OnOk result (spec.with_place stores.now self.old ns.now store.now ≡ Ok self.new) }
        ensures bad { IfErr result (spec.Refuses (spec.with_place stores.now self.old ns.now store.now)) }
    {
        if ns == "scalardb" || !is_attached(stores, store) {
            return Err(LineRefused::Bad(LineFault::Store));
        }
        let name = known_name(alloc, ns)?;
        if self.places.has(&name) {
            return Err(LineRefused::Bad(LineFault::Store));
        }
        self.places.push(name, known_name(alloc, store)?)?;
        Ok(())
    }

    // Takes the words of a place.
    fn take_words(
        &mut self,
        alloc: Global,
        ns: &str,
        store: &str,
        stores: &Names,
    ) -> Result<(), LineRefused>
        ensures ok { OnOk result (spec.with_words stores.now self.old (ns.now, store.now) ≡ Ok self.new) }
        ensures bad { IfErr result (spec.Refuses (spec.with_words stores.now self.old (ns.now, store.now))) }
    {
        if !is_short_name(ns) || !is_short_name(store) {
            return Err(no_form());
        }
        self.put_place(alloc, ns, store, stores)
    }

    // Takes a place.
    fn take_place(&mut self, alloc: Global, words: &str, stores: &Names) -> Result<(), LineRefused>
        ensures ok { OnOk result (spec.take_place stores.now self.old words.now ≡ Ok self.new) }
        ensures bad { IfErr result (spec.Refuses (spec.take_place stores.now self.old words.now)) }
    {
        if !self.is_first() {
            return Err(no_form());
        }
        match around_space(words) {
            Some((ns, store)) => self.take_words(alloc, ns, store, stores),
            None => Err(no_form()),
        }
    }

    // Takes the schema of this JSON.
    fn take_schema(&mut self, alloc: Global, json: &str) -> Result<(), LineRefused>
        ensures ok { OnOk result (spec.take_schema self.old json.now ≡ Ok self.new) }
        ensures bad { IfErr result (spec.Refuses (spec.take_schema self.old json.now)) }
    {
        if !self.is_first() {
            return Err(no_form());
        }
        self.catalog = catalog_in(alloc, json.as_bytes())?;
        self.described = true;
        Ok(())
    }

    // Begins the block of a client.
    fn put_client(&mut self, alloc: Global, name: Name) -> Result<(), LineRefused>
        ensures ok { OnOk result (spec.with_client self.old name ≡ Ok self.new) }
        ensures bad { IfErr result (spec.Refuses (spec.with_client self.old name)) }
    {
        if self.clients.len() >= MOST_CLIENTS {
            return Err(LineRefused::Limit(Which::Clients));
        }
        self.clients.begin(alloc, name)?;
        Ok(())
    }

    // Takes the name of a client.
    fn take_client(&mut self, alloc: Global, text: &str) -> Result<(), LineRefused>
        ensures ok { OnOk result (spec.take_client self.old text.now ≡ Ok self.new) }
        ensures bad { IfErr result (spec.Refuses (spec.take_client self.old text.now)) }
    {
        if !is_short_name(text) {
            return Err(no_form());
        }
        let name = known_name(alloc, text)?;
        if self.clients.has(&name) {
            return Err(no_form());
        }
        self.put_client(alloc, name)
    }

    // Takes the text of a statement.
    fn take_text(&mut self, alloc: Global, text: &str) -> Result<(), LineRefused>
        ensures ok { OnOk result (spec.take_text self.old text.now ≡ Ok self.new) }
        ensures bad { IfErr result (spec.Refuses (spec.take_text self.old text.now)) }
    {
        if self.clients.len() == 0 || text.is_empty() {
            return Err(no_form());
        }
        if self.clients.statements() >= MOST_STATEMENTS {
            return Err(LineRefused::Limit(Which::Statements));
        }
        self.clients.add(Txt::new(alloc, text)?)?;
        Ok(())
    }

    // Takes a line before `run`, or `run`.
    #[tactic(auto, unfolding(crate::specs::Reading::take_head))]
    fn take_head(&mut self, alloc: Global, line: &str, stores: &Names) -> Result<(), LineRefused>
        ensures ok { OnOk result (spec.take_head stores.now self.old line.now ≡ Ok self.new) }
        ensures bad { IfErr result (spec.Refuses (spec.take_head stores.now self.old line.now)) }
    {
        if line == "run" {
            self.ran = true;
            return Ok(());
        }
        if let Some(text) = after("  ", line) {
            return self.take_text(alloc, text);
        }
        if let Some(name) = after("client ", line) {
            return self.take_client(alloc, name);
        }
        if let Some(json) = after("schema ", line) {
            return self.take_schema(alloc, json);
        }
        match after("place ", line) {
            Some(words) => self.take_place(alloc, words, stores),
            None => Err(no_form()),
        }
    }

    // Takes a line after `run`.
    fn take_move(&mut self, alloc: Global, line: &str) -> Result<(), LineRefused>
        ensures ok { OnOk result (spec.take_move self.old line.now ≡ Ok self.new) }
        ensures bad { IfErr result (spec.Refuses (spec.take_move self.old line.now)) }
    {
        let Some(m) = move_in(alloc, self.clients.len(), line)? else {
            return Err(no_form());
        };
        if !self.moves.accepts(&m) {
            return Err(LineRefused::Limit(Which::Moves));
        }
        self.moves.push(m)?;
        Ok(())
    }

    // Takes a line that is UTF-8.
    fn take_line(&mut self, alloc: Global, line: &str, stores: &Names) -> Result<(), LineRefused>
        ensures ok { OnOk result (spec.take_text_line stores.now self.old line.now ≡ Ok self.new) }
        ensures bad { IfErr result (spec.Refuses (spec.take_text_line stores.now self.old line.now)) }
    {
        if self.ran {
            self.take_move(alloc, line)
        } else {
            self.take_head(alloc, line, stores)
        }
    }

    /// Takes one line more.
    #[tactic(auto, unfolding(crate::specs::Reading::read_line_on))]
    pub fn take(&mut self, alloc: Global, line: &[u8], stores: &Names) -> Result<(), LineRefused>
        ensures ok { OnOk result (spec.read_line_on stores.now self.old line.now ≡ Ok self.new) }
        ensures bad { IfErr result (spec.Refuses (spec.read_line_on stores.now self.old line.now)) }
    {
        if line.len() > MOST_LINE {
            return Err(LineRefused::Limit(Which::LineBytes));
        }
        match as_text(line) {
            Some(text) => self.take_line(alloc, text, stores),
            None => Err(LineRefused::Bad(LineFault::Text)),
        }
    }

    /// Whether `run` was read.
    pub fn has_run(&self) -> bool
        ensures { result ≡ self.now.ran }
    {
        self.ran
    }

    /// The script that was read.
    pub fn into_script(self) -> Result<Script, NoMemory>
        ensures { IfOk result (λ s. s ≡ spec.script_of self) }
    {
        let Drafting {
            places,
            described: _,
            catalog,
            clients,
            ran: _,
            moves,
        } = self;
        Ok(Script {
            places: places.into_places(),
            clients: clients.into_clients()?,
            catalog,
            moves: moves.into_moves(),
        })
    }
}
