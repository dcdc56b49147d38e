//! The clients of a script that is being read.
ghost use Rattle.std.specs.Prelude.{◌≡◌, ◌<◌, ◌≤◌, [], ◌∷◌, ◌++◌, length, option_to_list, OnOk, OnErr, IfOk};
ghost use Rattle.sdb_script.specs.Begun.{is_known, last_count};
ghost use Rattle.std.specs.Option.{option_map};
ghost use Rattle.sdb_script.specs.Reading.{add_text, with_statement, new_client};

use sdb_model::{Clients, ScriptClient, Texts};
use sdb_types::{Name, NoMemory, Txt};
use std::alloc::Global;
use std::marker::Model;

/// At most 64 clients. The last may get further statements.
pub struct Blocks {
    ended: Clients,
    last: Option<ScriptClient>,
}

impl Drop for Blocks {
    fn drop(self) {
        let Blocks { ended: _, last: _ } = self;
    }
}

impl Model for Blocks {
    ghost use Rattle.std.specs.Prelude.{List, ◌++◌, ◌≡◌, ◌≤◌, [], None, length, option_to_list};
    ghost use Rattle.sdb_model.specs.declared.script.ScriptClient.{ScriptClient as Client};

    ghost Value = { List Client };

    ghost view = { λ b. b.ended ++ option_to_list b.last };

    ghost invariant = { λ b. (length (b.ended ++ option_to_list b.last) ≤ 64) × (b.last ≡ None → b.ended ≡ []) };
}

fn is_among(clients: &Clients, name: &Name) -> bool
    ensures { result ≡ is_known clients.now name.now }
{
    clients.iter().any(|client| client.name == *name)
}

// Whether there is a client, and it has this name.
fn is_named(last: &Option<ScriptClient>, name: &Name) -> bool
    ensures { result ≡ is_known (option_to_list last.now) name.now }
{
    match last {
        Some(client) => client.name == *name,
        None => false,
    }
}

// How many statements a client has, where there is one.
fn statements_of_last(last: &Option<ScriptClient>) -> usize
    ensures { result ≡ last_count (option_to_list last.now) }
{
    match last {
        Some(client) => client.statements.len(),
        None => 0,
    }
}

// Adds a statement to a client, where there is one.
fn add_to(last: &mut Option<ScriptClient>, text: Txt) -> Result<(), NoMemory>
    ensures ok { OnOk result (last.new ≡ option_map (λ c. with_statement c text) last.old) }
    ensures err { OnErr result (last.new ≡ last.old) }
{
    match last {
        Some(client) => client.statements.push(text),
        None => Ok(()),
    }
}

impl Blocks {
    pub fn new(alloc: Global) -> Blocks
        ensures { result ≡ [] }
    {
        Blocks {
            ended: Clients::new(alloc),
            last: None,
        }
    }

    pub fn len(&self) -> u32
        ensures count { result ≡ length self.now }
        ensures few { result ≤ 64 }
    {
        match &self.last {
            Some(_) => self.ended.len() as u32 + 1,
            None => 0,
        }
    }

    /// Whether a client has this name.
    pub fn has(&self, name: &Name) -> bool
        ensures { result ≡ is_known self.now name.now }
    {
        is_among(&self.ended, name) || is_named(&self.last, name)
    }

    /// How many statements the last client has.
    pub fn statements(&self) -> usize
        ensures { result ≡ last_count self.now }
    {
        statements_of_last(&self.last)
    }

    /// Begins a client's block.
    pub fn begin(&mut self, alloc: Global, name: Name) -> Result<(), NoMemory>
        requires { length self.old < 64 }
        ensures { OnOk result (self.new ≡ self.old ++ new_client name ∷ []) }
    {
        let next = ScriptClient {
            name,
            statements: Texts::new(alloc),
        };
        match self.last.replace(next) {
            Some(client) => self.ended.push(client),
            None => Ok(()),
        }
    }

    /// Adds a statement to the last client.
    pub fn add(&mut self, text: Txt) -> Result<(), NoMemory>
        ensures { OnOk result (self.new ≡ add_text self.old text) }
    {
        add_to(&mut self.last, text)
    }

    pub fn into_clients(self) -> Result<Clients, NoMemory>
        ensures { IfOk result (λ clients. clients ≡ self) }
    {
        let Blocks { ended, last } = self;
        let mut clients = ended;
        match last {
            Some(client) => clients.push(client)?,
            None => {}
        }
        Ok(clients)
    }
}
