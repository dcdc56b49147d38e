//! Events with their actions, and what a list of them, newest first, says of a transaction.
ghost use Rattle.std.specs.Prelude.{◌≡◌, find};
ghost use Rattle.std.specs.Option.{option_copied};
ghost use Rattle.std.specs.List.{list_any};
ghost use Rattle.law_protocol.specs.History.{is_yes, is_met, is_out_of_memory_ack};
ghost use Rattle.check_protocol.specs.Values.{ack_of};
ghost use Rattle.check_protocol.specs.Started.{is_begin_of, is_take_of, is_prepare_of, is_applied, is_check_of, is_stage_of, is_decision, is_risk_of, is_win_of, is_death_of, is_meeting_of, is_stop_of, is_end_of, ends_with, owner_in, touches, opens, has_sign as has_sign_lem, commit_started_in, begun_in, asked_in, acknowledged_in, checked_in, staged_in, deciding_in, risked_in, won_in, dead_in, met_in, stopped_in, owner_of, open_in};

use crate::keys::has_key;
use sdb_model::Event;
use sdb_record::Decision;
use sdb_types::{Key, Seq, TxId};

/// What its client was answered to a put: that it was applied, that its condition failed, nothing, or out of memory.
#[derive(Clone, Copy, Debug, PartialEq, Eq)]
pub enum Ack {
    Yes,
    No,
    NoAck,
    OutOfMemory,
}

/// Keys of the records of one request.
pub type Keys = Seq<Key>;

/// The action of an event in the protocol.
#[derive(Debug, PartialEq, Eq)]
pub enum Action {
    /// None.
    Other,
    /// A transaction of a client begins.
    Begins(TxId, u32),
    /// Its COMMIT is accepted.
    Takes(TxId),
    /// Its prepare of keys, by one request.
    Prepares(TxId, Keys, Ack),
    /// Its check of a read of the read set, which found all as read. Items are counted from 0.
    Checks(TxId, usize),
    /// The put of its row COMMITTED.
    Decides(TxId, Ack),
    /// A put of its row ABORTED with this moment, by anybody.
    Aborts(TxId, i64, Ack),
    /// A roll of what it prepared at keys, by anybody, by one request.
    Rolls(TxId, Keys, Decision),
    /// The removal of the tombstone that it left at a key.
    Removes(Key, TxId),
    /// An answer ends it.
    Ends(TxId),
    /// A client stops.
    Stops(u32),
}

// By hand: each drop is then one call, where a derived one is written out at each exit, with a call for each field.
impl Drop for Action {
    fn drop(self) {
        match self {
            Action::Other => {}
            Action::Begins(_, _) => {}
            Action::Takes(_) => {}
            Action::Prepares(_, _, _) => {}
            Action::Checks(_, _) => {}
            Action::Decides(_, _) => {}
            Action::Aborts(_, _, _) => {}
            Action::Rolls(_, _, _) => {}
            Action::Removes(_, _) => {}
            Action::Ends(_) => {}
            Action::Stops(_) => {}
        }
    }
}

/// An event, its action, and the transaction that its answer ends, if one is ended.
#[derive(Debug)]
pub struct Labelled {
    pub event: Event,
    pub action: Action,
    pub ends: Option<TxId>,
}

// By hand: each drop is then one call, where a derived one is written out at each exit, with a call for each field.
impl Drop for Labelled {
    fn drop(self) {
        let Labelled {
            event: _,
            action: _,
            ends: _,
        } = self;
    }
}

fn says_yes(word: Ack) -> bool
    ensures { result ≡ is_yes (ack_of word) }
{
    matches!(word, Ack::Yes)
}

fn says_met(word: Ack) -> bool
    ensures { result ≡ is_met (ack_of word) }
{
    matches!(word, Ack::Yes | Ack::No)
}

fn says_wanting(word: Ack) -> bool
    ensures { result ≡ is_out_of_memory_ack (ack_of word) }
{
    matches!(word, Ack::OutOfMemory)
}

fn begins(action: &Action, id: TxId) -> bool
    ensures { result ≡ is_begin_of id.0 action.now }
{
    match action {
        Action::Begins(other, _) => id.0 == other.0,
        _ => false,
    }
}

fn takes(action: &Action, id: TxId) -> bool
    ensures { result ≡ is_take_of id.0 action.now }
{
    match action {
        Action::Takes(other) => id.0 == other.0,
        _ => false,
    }
}

fn prepares(action: &Action, id: TxId, key: &Key) -> bool
    ensures { result ≡ is_prepare_of id.0 key.now action.now }
{
    match action {
        Action::Prepares(other, keys, _) => id.0 == other.0 && has_key(keys.as_slice(), key),
        _ => false,
    }
}

fn is_applied_prepare(action: &Action) -> bool
    ensures { result ≡ is_applied action.now }
{
    match action {
        Action::Prepares(_, _, word) => says_yes(*word),
        _ => false,
    }
}

fn checks(action: &Action, id: TxId, item: usize) -> bool
    ensures { result ≡ is_check_of id.0 item action.now }
{
    match action {
        Action::Checks(other, i) => id.0 == other.0 && item == *i,
        _ => false,
    }
}

fn moves_stage(action: &Action, id: TxId) -> bool
    ensures { result ≡ is_stage_of id.0 action.now }
{
    match action {
        Action::Checks(other, _) => id.0 == other.0,
        Action::Decides(other, _) => id.0 == other.0,
        _ => false,
    }
}

fn decides(action: &Action) -> bool
    ensures { result ≡ is_decision action.now }
{
    matches!(action, Action::Decides(_, _))
}

fn risks(action: &Action, id: TxId) -> bool
    ensures { result ≡ is_risk_of id.0 action.now }
{
    match action {
        Action::Decides(other, word) => id.0 == other.0 && !says_wanting(*word),
        _ => false,
    }
}

fn wins(action: &Action, id: TxId) -> bool
    ensures { result ≡ is_win_of id.0 action.now }
{
    match action {
        Action::Decides(other, word) => id.0 == other.0 && says_yes(*word),
        _ => false,
    }
}

fn kills(action: &Action, id: TxId) -> bool
    ensures { result ≡ is_death_of id.0 action.now }
{
    match action {
        Action::Aborts(other, _, word) => id.0 == other.0 && says_yes(*word),
        _ => false,
    }
}

fn meets(action: &Action, id: TxId) -> bool
    ensures { result ≡ is_meeting_of id.0 action.now }
{
    match action {
        Action::Decides(other, word) => id.0 == other.0 && says_met(*word),
        Action::Aborts(other, _, word) => id.0 == other.0 && says_met(*word),
        _ => false,
    }
}

fn stops(action: &Action, client: u32) -> bool
    ensures { result ≡ is_stop_of client action.now }
{
    match action {
        Action::Stops(other) => client == *other,
        _ => false,
    }
}

fn ends(action: &Action, id: TxId) -> bool
    ensures { result ≡ is_end_of id.0 action.now }
{
    match action {
        Action::Ends(other) => id.0 == other.0,
        _ => false,
    }
}

fn is_ended_by(labelled: &Labelled, id: TxId) -> bool
    ensures { result ≡ ends_with id.0 labelled.now }
{
    match labelled.ends {
        Some(other) => id.0 == other.0,
        None => false,
    }
}

fn begun_by(action: &Action) -> u32
    ensures { result ≡ owner_in action.now }
{
    match action {
        Action::Begins(_, client) => *client,
        _ => 0,
    }
}

fn is_touched(labelled: &Labelled, id: TxId) -> bool
    ensures { result ≡ touches id.0 labelled.now }
{
    is_ended_by(labelled, id) || (ends(&labelled.action, id) || begins(&labelled.action, id))
}

fn is_opened(labelled: &Labelled, id: TxId) -> bool
    ensures { result ≡ opens id.0 labelled.now }
{
    !is_ended_by(labelled, id) && begins(&labelled.action, id)
}

/// What is looked for among events.
#[derive(Clone, Copy)]
enum Sign<'a> {
    Begin(TxId),
    /// Its begin or its end.
    Touch(TxId),
    Take(TxId),
    Prepare(TxId, &'a Key),
    Check(TxId, usize),
    /// A check, or the put of COMMITTED.
    Stage(TxId),
    Risk(TxId),
    Win(TxId),
    Death(TxId),
    Meeting(TxId),
    Stop(u32),
}

fn has_sign(labelled: &Labelled, sign: Sign) -> bool
    ensures { result ≡ has_sign_lem sign.entry labelled.now }
{
    match sign {
        Sign::Begin(id) => begins(&labelled.action, id),
        Sign::Touch(id) => is_touched(labelled, id),
        Sign::Take(id) => takes(&labelled.action, id),
        Sign::Prepare(id, key) => prepares(&labelled.action, id, key),
        Sign::Check(id, item) => checks(&labelled.action, id, item),
        Sign::Stage(id) => moves_stage(&labelled.action, id),
        Sign::Risk(id) => risks(&labelled.action, id),
        Sign::Win(id) => wins(&labelled.action, id),
        Sign::Death(id) => kills(&labelled.action, id),
        Sign::Meeting(id) => meets(&labelled.action, id),
        Sign::Stop(client) => stops(&labelled.action, client),
    }
}

// The newest event with this sign.
fn last<'a>(past: &'a [Labelled], sign: Sign) -> Option<&'a Labelled>
    ensures { option_copied result ≡ find (has_sign_lem sign.entry) past.now }
{
    for labelled in past {
        if has_sign(labelled, sign) {
            return Some(labelled);
        }
    }
    None
}

fn any(past: &[Labelled], sign: Sign) -> bool
    ensures { result ≡ list_any (has_sign_lem sign.entry) past.now }
{
    last(past, sign).is_some()
}

pub fn is_begun(past: &[Labelled], id: TxId) -> bool
    ensures { result ≡ begun_in past.now id.0 }
{
    any(past, Sign::Begin(id))
}

pub fn owner(past: &[Labelled], id: TxId) -> u32
    ensures { result ≡ owner_of past.now id.0 }
{
    match last(past, Sign::Begin(id)) {
        Some(labelled) => begun_by(&labelled.action),
        None => 0,
    }
}

pub fn is_open(past: &[Labelled], id: TxId) -> bool
    ensures { result ≡ open_in past.now id.0 }
{
    match last(past, Sign::Touch(id)) {
        Some(labelled) => is_opened(labelled, id),
        None => false,
    }
}

pub fn is_stopped(past: &[Labelled], client: u32) -> bool
    ensures { result ≡ stopped_in past.now client }
{
    any(past, Sign::Stop(client))
}

pub fn is_commit_started(past: &[Labelled], id: TxId) -> bool
    ensures { result ≡ commit_started_in past.now id.0 }
{
    any(past, Sign::Take(id))
}

pub fn is_asked(past: &[Labelled], id: TxId, key: &Key) -> bool
    ensures { result ≡ asked_in past.now id.0 key.now }
{
    any(past, Sign::Prepare(id, key))
}

pub fn is_acknowledged(past: &[Labelled], id: TxId, key: &Key) -> bool
    ensures { result ≡ acknowledged_in past.now id.0 key.now }
{
    match last(past, Sign::Prepare(id, key)) {
        Some(labelled) => is_applied_prepare(&labelled.action),
        None => false,
    }
}

pub fn is_checked(past: &[Labelled], id: TxId, item: usize) -> bool
    ensures { result ≡ checked_in past.now id.0 item }
{
    any(past, Sign::Check(id, item))
}

/// Whether it has passed its prepares.
pub fn is_past_prepares(past: &[Labelled], id: TxId) -> bool
    ensures { result ≡ staged_in past.now id.0 }
{
    any(past, Sign::Stage(id))
}

pub fn is_deciding(past: &[Labelled], id: TxId) -> bool
    ensures { result ≡ deciding_in past.now id.0 }
{
    match last(past, Sign::Stage(id)) {
        Some(labelled) => decides(&labelled.action),
        None => false,
    }
}

pub fn is_risked(past: &[Labelled], id: TxId) -> bool
    ensures { result ≡ risked_in past.now id.0 }
{
    any(past, Sign::Risk(id))
}

pub fn is_won(past: &[Labelled], id: TxId) -> bool
    ensures { result ≡ won_in past.now id.0 }
{
    any(past, Sign::Win(id))
}

pub fn is_dead(past: &[Labelled], id: TxId) -> bool
    ensures { result ≡ dead_in past.now id.0 }
{
    any(past, Sign::Death(id))
}

pub fn is_met_once(past: &[Labelled], id: TxId) -> bool
    ensures { result ≡ met_in past.now id.0 }
{
    any(past, Sign::Meeting(id))
}
