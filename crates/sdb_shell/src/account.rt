//! The statements of one client that is alone, one after the other.
ghost use Rattle.std.specs.Prelude.{◌≡◌, ◌<◌, ◌^◌, ◌&&◌, not, ℕ, length, is_some, IfOk};
ghost use Rattle.sdb_types.specs.Draws.{IsAppended};
ghost use Rattle.sdb_contents.specs.Board.{GoOn};
ghost use Rattle.sdb_client.specs.Client.{IsIdle, nothing_done};
ghost use Rattle.sdb_shell.specs.Drawn.{drawn_id as drawn_id_lem};
ghost use Rattle.sdb_shell.specs.Sessions.{HasAnswered, IsNextId};

use crate::answering::answer;
use crate::drawn::drawn_id;
use sdb_client::Client;
use sdb_model::Answer;
use sdb_schema::Catalog;
use sdb_stores::Registry;
use sdb_types::{Clock, Ids, NoMemory, TxId, Txt};
use std::alloc::Global;
use std::marker::Model;

// It holds now, and didn't before.
fn is_first(before: bool, now: bool) -> bool
    ensures { result ≡ (not before && now) }
{
    !before && now
}

// The next id after a statement, which began a transaction or not.
fn next_fresh<I: Ids>(fresh: TxId, began: bool, ids: &mut I) -> TxId
    ensures { IsNextId began fresh result (I.answered ids.old) (I.answered ids.new) }
{
    if began { drawn_id(ids.draw()) } else { fresh }
}

/// A client that is alone, and the id of the transaction that it begins next.
pub struct Session {
    client: Client,
    fresh: TxId,
}

// By hand: each drop is then one call, where a derived one is written out at each exit, with a call for each field.
impl Drop for Session {
    fn drop(self) {
        let Session {
            client: _,
            fresh: _,
        } = self;
    }
}

impl Model for Session {
    ghost use Rattle.sdb_shell.specs.Sessions.{SessionAt};

    ghost Value = { SessionAt };

    ghost view = { λ s. record { client = s.client; fresh = s.fresh } };
}

impl Session {
    /// A client that has done nothing, and the first id, which is drawn.
    pub fn new<I: Ids>(alloc: Global, ids: &mut I) -> Session
        ensures client { result.client ≡ nothing_done 1 }
        ensures fresh { (draw : ℕ) × IsAppended draw (I.answered ids.old) (I.answered ids.new) × (result.fresh ≡ drawn_id_lem draw) }
    {
        Session {
            client: Client::new(alloc, 1),
            fresh: drawn_id(ids.draw()),
        }
    }

    /// Whether a transaction is open. Takes no memory.
    pub fn is_open(&self) -> bool
        ensures { result ≡ is_some self.now.client.txn }
    {
        self.client.is_open()
    }

    /// Takes a statement at a moment of the clock, and makes its calls until it is answered. Where it began a transaction the next id is
    /// drawn. After out of memory the session isn't used again.
    pub fn answer<S: Registry, C: Clock, I: Ids>(
        &mut self,
        catalog: &Catalog,
        text: &Txt,
        stores: &mut S,
        clock: &mut C,
        ids: &mut I,
    ) -> Result<Answer, NoMemory>
        requires some { 0 < length (S.state stores.old).views }
        requires idle { IsIdle self.old.client }
        requires short { length text.now < 2 ^ 32 }
        ensures answered { IfOk result (λ a. HasAnswered catalog.now text.now (S.state stores.old) (S.state stores.new) (C.answered clock.old) (C.answered clock.new) (I.answered ids.old) (I.answered ids.new) self.old a self.new) }
        ensures goes { GoOn (S.state stores.old) (S.state stores.new) }
    {
        let now = clock.now();
        let was_open = self.client.is_open();
        let answer = answer(&mut self.client, catalog, text, self.fresh, now, stores)?;
        let began = is_first(was_open, self.client.is_open());
        self.fresh = next_fresh(self.fresh, began, ids);
        Ok(answer)
    }
}
