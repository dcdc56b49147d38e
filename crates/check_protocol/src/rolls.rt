//! Rolls, removals and answers, each decided.
ghost use Rattle.std.specs.Prelude.{◌≡◌, ◌&&◌, not, false, IfOk, OnOk};
ghost use Rattle.std.specs.Option.{option_copied, option_map_or};
ghost use Rattle.std.specs.List.{list_any};
ghost use Rattle.sdb_record.specs.Meta.{is_committed as is_committed_lem};
ghost use Rattle.law_protocol.specs.Lawful.{answer_of as answer_of_lem, is_denial as is_denial_lem};
ghost use Rattle.check_protocol.specs.Observed.{is_prepared_by as is_prepared_by_lem, is_forward_at as is_forward_at_lem};
ghost use Rattle.check_protocol.specs.Rules.{is_known_committed as is_known_committed_lem, is_known_aborted as is_known_aborted_lem, own as own_lem, with_own, has_own_moment as has_own_moment_lem, known_moments as known_moments_lem, any_prepared_forward as any_prepared_forward_lem, rolls_open as rolls_open_lem, rolls_at as rolls_at_lem, roll_each as roll_each_lem, roll_together as roll_together_lem, rolls_forward, has_before_or_none as has_before_or_none_lem, is_back as is_back_lem, undoes as undoes_lem, rolls_back, rolls_well, removes_version as removes_version_lem, removes_well, denies as denies_lem, may_answer as may_answer_lem, may_deny as may_deny_lem, answers_well};
ghost use Rattle.sdb_model.specs.Transactions.{is_committed_answer as is_committed_answer_lem};

use crate::commit::{is_data, prepared_by};
use crate::keys::are_some;
use crate::puts::puts_asked;
use crate::records::is_forward_at;
use crate::rules::are_shut;
use crate::{
    Labelled, Plan, has_no_before, is_asked, is_before_image_of, is_commit_started, is_dead,
    is_met_once, is_prepared_by, is_risked, is_same_key, is_won, moment_of, moments,
    observes_abort, observes_bad_row, observes_commit, settles_removed, write_of, writes_of,
};
use sdb_model::{Answer, Boxed, Event};
use sdb_record::{Decision, coordinator_key};
use sdb_types::{Condition, Key, NoMemory, Put, Record, Request, Seq, State, TxId};
use std::alloc::Global;

/// Whether a transaction is known to be committed: it won, or its row was observed.
pub fn is_known_committed(
    alloc: Global,
    observed: &[Record],
    past: &[Labelled],
    id: TxId,
) -> Result<bool, NoMemory>
    ensures { IfOk result (λ known. known ≡ is_known_committed_lem observed.now past.now id.0) }
{
    if is_won(past, id) {
        return Ok(true);
    }
    let row = coordinator_key(alloc, id)?;
    Ok(observes_commit(alloc, observed, &row))
}

/// Whether it is known to be aborted.
pub fn is_known_aborted(
    alloc: Global,
    observed: &[Record],
    past: &[Labelled],
    id: TxId,
) -> Result<bool, NoMemory>
    ensures { IfOk result (λ known. known ≡ is_known_aborted_lem observed.now past.now id.0) }
{
    if is_dead(past, id) || (is_met_once(past, id) && !is_risked(past, id)) {
        return Ok(true);
    }
    let row = coordinator_key(alloc, id)?;
    Ok(observes_abort(alloc, observed, &row))
}

// What a transaction has prepared itself at a key.
fn own(
    alloc: Global,
    past: &[Labelled],
    plans: &[Plan],
    id: TxId,
    key: &Key,
) -> Result<Option<Record>, NoMemory>
    ensures { IfOk result (λ found. found ≡ own_lem past.now plans.now id.0 key.now) }
{
    if is_asked(past, id, key) {
        let write = write_of(writes_of(plans, id), key);
        prepared_by(alloc, id, moment_of(plans, id), write)
    } else {
        Ok(None)
    }
}

fn add_own(found: &mut Seq<i64>, won: bool, moment: i64) -> Result<(), NoMemory>
    ensures { OnOk result (found.new ≡ with_own won moment found.old) }
{
    if won { found.push(moment) } else { Ok(()) }
}

// Whether a transaction's own moment is one at which it is known to be committed.
#[tactic(auto, unfolding(crate::specs::Rules::has_own_moment))]
fn has_own_moment(
    alloc: Global,
    observed: &[Record],
    past: &[Labelled],
    id: TxId,
) -> Result<bool, NoMemory>
    ensures { IfOk result (λ own. own ≡ has_own_moment_lem observed.now past.now id.0) }
{
    if is_won(past, id) {
        return Ok(true);
    }
    if !is_commit_started(past, id) {
        return Ok(false);
    }
    let row = coordinator_key(alloc, id)?;
    Ok(observes_commit(alloc, observed, &row))
}

fn known_moments(
    alloc: Global,
    observed: &[Record],
    past: &[Labelled],
    plans: &[Plan],
    id: TxId,
) -> Result<Seq<i64>, NoMemory>
    ensures { IfOk result (λ found. found ≡ known_moments_lem observed.now past.now plans.now id.0) }
{
    let row = coordinator_key(alloc, id)?;
    let mut found = moments(alloc, observed, &row)?;
    let own = has_own_moment(alloc, observed, past, id)?;
    add_own(&mut found, own, moment_of(plans, id))?;
    Ok(found)
}

fn any_held_forward(
    alloc: Global,
    observed: &[Record],
    moment: i64,
    id: TxId,
    key: &Key,
    target: &Record,
) -> Result<bool, NoMemory>
    ensures { IfOk result (λ found. found ≡ any_prepared_forward_lem observed.now moment id.0 key.now target.now) }
{
    for rec in observed {
        if is_prepared_by(rec, key, id) && is_forward_at(alloc, rec, moment, target)? {
            return Ok(true);
        }
    }
    Ok(false)
}

fn is_own_forward(
    alloc: Global,
    own: &Option<Record>,
    moment: i64,
    target: &Record,
) -> Result<bool, NoMemory>
    ensures { IfOk result (λ found. found ≡ option_map_or (λ r. is_forward_at_lem r moment target.now) own.now false) }
{
    match own {
        Some(rec) => is_forward_at(alloc, rec, moment, target),
        None => Ok(false),
    }
}

fn is_open_state(state: State) -> bool
    ensures { result ≡ not (is_committed_lem state) }
{
    !matches!(state, State::Committed)
}

fn rolls_open(condition: Condition, id: TxId) -> bool
    ensures { result ≡ rolls_open_lem condition id.0 }
{
    match condition {
        Condition::Absent => false,
        Condition::Version(other, state) => other.0 == id.0 && is_open_state(state),
    }
}

// Whether a put rolls forward, to a moment, what the transaction prepared at a key.
fn rolls_at(
    alloc: Global,
    observed: &[Record],
    past: &[Labelled],
    plans: &[Plan],
    id: TxId,
    moment: i64,
    key: &Key,
    put: &Put,
) -> Result<bool, NoMemory>
    ensures { IfOk result (λ well. well ≡ rolls_at_lem observed.now past.now plans.now id.0 moment key.now put.now) }
{
    if !rolls_open(put.condition, id) || !is_data(key) {
        return Ok(false);
    }
    let own = own(alloc, past, plans, id, key)?;
    if is_own_forward(alloc, &own, moment, &put.rec)? {
        return Ok(true);
    }
    any_held_forward(alloc, observed, moment, id, key, &put.rec)
}

// Whether the puts roll forward what it prepared at the keys, one after another.
fn roll_each(
    alloc: Global,
    observed: &[Record],
    past: &[Labelled],
    plans: &[Plan],
    id: TxId,
    moment: i64,
    keys: &[Key],
    puts: &[Put],
) -> Result<bool, NoMemory>
    ensures { IfOk result (λ well. well ≡ roll_each_lem observed.now past.now plans.now id.0 moment keys.now puts.now) }
{
    match (keys.split_first(), puts.split_first()) {
        (None, None) => Ok(true),
        (Some((key, others)), Some((put, more))) => {
            if !rolls_at(alloc, observed, past, plans, id, moment, key, put)? {
                return Ok(false);
            }
            roll_each(alloc, observed, past, plans, id, moment, others, more)
        }
        (None, Some(_)) | (Some(_), None) => Ok(false),
    }
}

// Whether they do so to one of these moments.
fn roll_at_any(
    alloc: Global,
    observed: &[Record],
    past: &[Labelled],
    plans: &[Plan],
    id: TxId,
    moments: &[i64],
    keys: &[Key],
    puts: &[Put],
) -> Result<bool, NoMemory>
    ensures { IfOk result (λ well. well ≡ list_any (λ m. roll_each_lem observed.now past.now plans.now id.0 m keys.now puts.now) moments.now) }
{
    for moment in moments {
        if roll_each(alloc, observed, past, plans, id, *moment, keys, puts)? {
            return Ok(true);
        }
    }
    Ok(false)
}

// Whether they do so to one moment at which it is known to be committed.
fn roll_together(
    alloc: Global,
    observed: &[Record],
    past: &[Labelled],
    plans: &[Plan],
    id: TxId,
    keys: &[Key],
    puts: &[Put],
) -> Result<bool, NoMemory>
    ensures { IfOk result (λ well. well ≡ roll_together_lem observed.now past.now plans.now id.0 keys.now puts.now) }
{
    let moments = known_moments(alloc, observed, past, plans, id)?;
    roll_at_any(
        alloc,
        observed,
        past,
        plans,
        id,
        moments.as_slice(),
        keys,
        puts,
    )
}

/// A roll forward of what is known to be committed, by anybody.
pub fn may_roll_forward(
    alloc: Global,
    observed: &[Record],
    past: &[Labelled],
    plans: &[Plan],
    event: &Event,
    id: TxId,
    keys: &[Key],
) -> Result<bool, NoMemory>
    ensures { IfOk result (λ well. well ≡ rolls_forward observed.now past.now plans.now event.now id.0 keys.now) }
{
    match event {
        Event::Call(_, _, request, _, _, _) => {
            if !are_some(keys) {
                return Ok(false);
            }
            match puts_asked(alloc, request.get())? {
                None => Ok(false),
                Some(puts) => {
                    roll_together(alloc, observed, past, plans, id, keys, puts.as_slice())
                }
            }
        }
        _ => Ok(false),
    }
}

// Whether a record keeps this one as its before image, or keeps none.
fn is_kept(rec: &Record, base: Option<&Record>) -> bool
    ensures { result ≡ has_before_or_none_lem (option_copied base.entry) rec.now }
{
    match base {
        Some(base) => is_before_image_of(rec, base),
        None => has_no_before(rec),
    }
}

fn own_keeps(own: &Option<Record>, base: Option<&Record>) -> bool
    ensures { result ≡ option_map_or (has_before_or_none_lem (option_copied base.entry)) own.now false }
{
    match own {
        Some(rec) => is_kept(rec, base),
        None => false,
    }
}

fn any_keeps(observed: &[Record], id: TxId, key: &Key, base: Option<&Record>) -> bool
    ensures { result ≡ list_any (λ r. is_prepared_by_lem id.0 key.now r && has_before_or_none_lem (option_copied base.entry) r) observed.now }
{
    for rec in observed {
        if is_prepared_by(rec, key, id) && is_kept(rec, base) {
            return true;
        }
    }
    false
}

// Whether a record that the transaction prepared keeps this.
fn is_put_back(
    observed: &[Record],
    own: &Option<Record>,
    id: TxId,
    key: &Key,
    base: Option<&Record>,
) -> bool
    ensures { result ≡ is_back_lem observed.now own.now id.0 key.now (option_copied base.entry) }
{
    own_keeps(own, base) || any_keeps(observed, id, key, base)
}

fn undoes(observed: &[Record], own: &Option<Record>, request: &Request, id: TxId, key: &Key) -> bool
    ensures { result ≡ undoes_lem observed.now own.now request.now id.0 key.now }
{
    match request {
        Request::PutIf(base, condition) => {
            rolls_open(*condition, id) && is_put_back(observed, own, id, key, Some(base))
        }
        Request::DeleteIf(at, condition) => {
            rolls_open(*condition, id)
                && (is_same_key(at, key) && is_put_back(observed, own, id, key, None))
        }
        Request::PutAll(_) => false,
        Request::Get(_) => false,
        Request::Scan(_) => false,
    }
}

/// A roll back of what is known to be aborted, by anybody.
pub fn may_roll_back(
    alloc: Global,
    observed: &[Record],
    past: &[Labelled],
    plans: &[Plan],
    event: &Event,
    id: TxId,
    key: &Key,
) -> Result<bool, NoMemory>
    ensures { IfOk result (λ well. well ≡ rolls_back observed.now past.now plans.now event.now id.0 key.now) }
{
    match event {
        Event::Call(_, _, request, _, _, _) => {
            if !is_data(key) || !is_known_aborted(alloc, observed, past, id)? {
                return Ok(false);
            }
            let own = own(alloc, past, plans, id, key)?;
            Ok(undoes(observed, &own, request.get(), id, key))
        }
        _ => Ok(false),
    }
}

/// A roll by a decision: one request rolls any number of records forward, and one back.
pub fn may_roll(
    alloc: Global,
    observed: &[Record],
    past: &[Labelled],
    plans: &[Plan],
    event: &Event,
    id: TxId,
    keys: &[Key],
    decision: Decision,
) -> Result<bool, NoMemory>
    ensures { IfOk result (λ well. well ≡ rolls_well observed.now past.now plans.now event.now id.0 keys.now decision) }
{
    match decision {
        Decision::Committed => may_roll_forward(alloc, observed, past, plans, event, id, keys),
        Decision::Aborted => match keys {
            [] => Ok(false),
            [key] => may_roll_back(alloc, observed, past, plans, event, id, key),
            [_, _, ..] => Ok(false),
        },
    }
}

fn removes_version(condition: Condition, id: TxId) -> bool
    ensures { result ≡ removes_version_lem condition id.0 }
{
    match condition {
        Condition::Absent => false,
        Condition::Version(other, state) => { other.0 == id.0 && matches!(state, State::Committed) }
    }
}

/// VACUUM's removal of a tombstone that was read, while no transaction is open of a client that hasn't stopped.
pub fn may_remove(
    alloc: Global,
    observed: &[Record],
    past: &[Labelled],
    event: &Event,
    key: &Key,
    id: TxId,
) -> Result<bool, NoMemory>
    ensures { IfOk result (λ well. well ≡ removes_well observed.now past.now event.now key.now id.0) }
{
    match event {
        Event::Call(_, _, request, _, _, _) => match request.get() {
            Request::DeleteIf(at, condition) => {
                if !is_same_key(at, key) || !removes_version(*condition, id) {
                    return Ok(false);
                }
                if !is_data(key) || !are_shut(past) {
                    return Ok(false);
                }
                settles_removed(alloc, observed, key, id)
            }
            _ => Ok(false),
        },
        _ => Ok(false),
    }
}

fn given(answer: &Option<Boxed<Answer>>) -> Option<&Answer>
    ensures { option_copied result ≡ answer.now }
{
    match answer {
        Some(answer) => Some(answer.get()),
        None => None,
    }
}

fn answer_of(event: &Event) -> Option<&Answer>
    ensures { option_copied result ≡ answer_of_lem event.now }
{
    match event {
        Event::Take(_, _, answer) => given(answer),
        Event::Call(_, _, _, _, _, answer) => given(answer),
        Event::Stop(_) => None,
        Event::Clock(_) => None,
        Event::Idle(_) => None,
        Event::Land(_, _, _, _, _) => None,
        Event::Alter(_, _, _, _) => None,
    }
}

fn is_committed_answer(answer: Option<&Answer>) -> bool
    ensures { result ≡ is_committed_answer_lem (option_copied answer.entry) }
{
    matches!(answer, Some(Answer::Committed))
}

fn is_denial(answer: &Answer) -> bool
    ensures { result ≡ is_denial_lem answer.now }
{
    !matches!(answer, Answer::Committed | Answer::Unknown(_))
}

fn denies(answer: Option<&Answer>) -> bool
    ensures { result ≡ denies_lem (option_copied answer.entry) }
{
    match answer {
        Some(answer) => is_denial(answer),
        None => false,
    }
}

/// Committed may be answered.
pub fn may_answer(
    alloc: Global,
    observed: &[Record],
    whole: &[Labelled],
    past: &[Labelled],
    ends: Option<TxId>,
) -> Result<bool, NoMemory>
    ensures { IfOk result (λ well. well ≡ may_answer_lem observed.now whole.now past.now ends) }
{
    match ends {
        None => Ok(false),
        Some(id) => {
            if !is_commit_started(past, id) {
                return Ok(false);
            }
            is_known_committed(alloc, observed, whole, id)
        }
    }
}

/// An answer may be given that denies a COMMIT.
pub fn may_deny(
    alloc: Global,
    observed: &[Record],
    whole: &[Labelled],
    past: &[Labelled],
    ends: Option<TxId>,
) -> Result<bool, NoMemory>
    ensures { IfOk result (λ well. well ≡ may_deny_lem observed.now whole.now past.now ends) }
{
    match ends {
        None => Ok(true),
        Some(id) => {
            if !is_commit_started(past, id) || is_known_aborted(alloc, observed, whole, id)? {
                return Ok(true);
            }
            if !is_risked(whole, id) {
                return Ok(true);
            }
            let row = coordinator_key(alloc, id)?;
            Ok(observes_bad_row(alloc, observed, &row))
        }
    }
}

/// The answer that an event gives is true as far as the events show.
pub fn answers_truly(
    alloc: Global,
    observed: &[Record],
    whole: &[Labelled],
    past: &[Labelled],
    labelled: &Labelled,
) -> Result<bool, NoMemory>
    ensures { IfOk result (λ well. well ≡ answers_well observed.now whole.now past.now labelled.now) }
{
    let answer = answer_of(&labelled.event);
    if is_committed_answer(answer) && !may_answer(alloc, observed, whole, past, labelled.ends)? {
        return Ok(false);
    }
    if denies(answer) {
        return may_deny(alloc, observed, whole, past, labelled.ends);
    }
    Ok(true)
}
