//! The points of transactions, and their order.
ghost use Rattle.std.specs.Prelude.{◌≡◌, ◌≢◌, ◌<◌, ◌^◌, ◌↔◌, All, Contains, IfOk, IfSome, OnOk, ℕ, map};
ghost use Rattle.std.specs.List.Sorted.{IsNonDecreasingBy, IsPermutation, IsStrictlyIncreasing};
ghost use Rattle.std.specs.Ordering.{nat_cmp};
ghost use Rattle.std.specs.BTreeMap.{get};
ghost use Rattle.sdb_types.specs.declared.txid.TxId.{TxId};
ghost use Rattle.sdb_model.specs.Transactions.{client_of as client_of_lem, last_prepare, ordinal_of as ordinal_of_lem, point, statements_by as statements_by_lem, ArePointsApart, point_at};
ghost use Rattle.sdb_contents.specs.Commits.{commit_at as commit_at_lem, commits_of};
ghost use Rattle.sdb_contents.specs.Order.{rising_from};

use crate::commits::{commit_at, commits_by};
use crate::prepares::last_prepares;
use sdb_model::{Event, Point, Points};
use sdb_types::{NoMemory, Seq, TxId};
use std::alloc::Global;
use std::collections::BTreeMap;

// Of each transaction of a client, in order, the event that took its COMMIT.
#[derive(Drop)]
struct Commits {
    client: u64,
    accepted: Seq<u64>,
}

fn client_of(id: TxId) -> u64
    ensures { result ≡ client_of_lem id }
{
    (id.0 >> 64) as u64
}

fn ordinal_of(id: TxId) -> u64
    ensures { result ≡ ordinal_of_lem id }
{
    (id.0 & 0xffff_ffff_ffff_ffff) as u64
}

// The event that took a transaction's COMMIT, and 0 where there is none. What is known of a client is kept for its next
// transaction.
fn accepted_of(
    alloc: Global,
    events: &[Event],
    known: &mut Option<Commits>,
    id: TxId,
) -> Result<u64, NoMemory>
    requires { IfSome known.old (λ k. k.accepted ≡ commits_of (statements_by_lem k.client events.now)) }
    ensures accepted { IfOk result (λ n. n ≡ commit_at_lem (ordinal_of_lem id) (commits_of (statements_by_lem (client_of_lem id) events.now))) }
    ensures known { OnOk result (IfSome known.new (λ k. k.accepted ≡ commits_of (statements_by_lem k.client events.now))) }
{
    let client = client_of(id);
    let k = ordinal_of(id);
    if let Some(commits) = known {
        if commits.client == client {
            return Ok(commit_at(commits.accepted.as_slice(), k));
        }
    }
    let accepted = commits_by(alloc, client, events)?;
    let event = commit_at(accepted.as_slice(), k);
    *known = Some(Commits { client, accepted });
    Ok(event)
}

// A transaction's point.
fn event_of(
    alloc: Global,
    events: &[Event],
    prepared: &BTreeMap<u128, u64>,
    known: &mut Option<Commits>,
    id: TxId,
) -> Result<u64, NoMemory>
    requires prepared { (id : TxId) → id.0 < 2 ^ 128 → get nat_cmp prepared.now id.0 ≡ last_prepare events.now id }
    requires known { IfSome known.old (λ k. k.accepted ≡ commits_of (statements_by_lem k.client events.now)) }
    ensures point { IfOk result (λ n. n ≡ point events.now id) }
    ensures known { OnOk result (IfSome known.new (λ k. k.accepted ≡ commits_of (statements_by_lem k.client events.now))) }
{
    match prepared.get(&id.0) {
        Some(number) => Ok(*number),
        None => accepted_of(alloc, events, known, id),
    }
}

fn points_of(alloc: Global, events: &[Event], ids: &[TxId]) -> Result<Vec<Point>, NoMemory>
    ensures { IfOk result (λ points. points.items ≡ map (point_at events.now) ids.now) }
{
    let prepared = last_prepares(alloc, events)?;
    let mut known = None;
    let mut points = Vec::new(alloc);
    for id in ids {
        let event = event_of(alloc, events, &prepared, &mut known, *id)?;
        points.push(Point { id: *id, event })?;
    }
    Ok(points)
}

// The ids in order, so that those of one client are together.
fn by_client(alloc: Global, ids: &[TxId]) -> Result<Vec<TxId>, NoMemory>
    ensures { IfOk result (λ sorted. IsPermutation ids.now sorted.items) }
{
    let mut sorted = Vec::from_slice(alloc, ids)?;
    sorted.sort_by_key(|id| id.0)?;
    Ok(sorted)
}

fn by_event(points: Vec<Point>) -> Result<Vec<Point>, NoMemory>
    ensures permutation { IfOk result (λ sorted. IsPermutation points.items sorted.items) }
    ensures sorted { IfOk result (λ sorted. IsNonDecreasingBy (λ p. p.event) sorted.items) }
{
    let mut sorted = points;
    sorted.sort_by_key(|point| point.event)?;
    Ok(sorted)
}

// The points whose events rise, from 1.
fn rising(alloc: Global, points: &[Point]) -> Result<Points, NoMemory>
    ensures { IfOk result (λ order. order ≡ rising_from 0 points.now) }
{
    let mut order = Points::new(alloc);
    let mut last = 0;
    for point in points {
        if last < point.event {
            order.push(*point)?;
            last = point.event;
        }
    }
    Ok(order)
}

/// The order of some transactions: each with its point, by rising point. Those without a point aren't among it.
pub fn order_of(alloc: Global, events: &[Event], recorded: &[TxId]) -> Result<Points, NoMemory>
    ensures points { IfOk result (λ order. All (λ p. p.event ≡ point events.now p.id) order) }
    ensures rising { IfOk result (λ order. IsStrictlyIncreasing (map (λ p. p.event) order)) }
    ensures among { IfOk result (λ order. (id : TxId) → Contains (map (λ p. p.id) order) id → Contains recorded.now id × (point events.now id ≢ 0)) }
    ensures ids { IfOk result (λ order. ArePointsApart events.now recorded.now → (id : TxId) → Contains recorded.now id → point events.now id ≢ 0 → Contains (map (λ p. p.id) order) id) }
{
    let ids = by_client(alloc, recorded)?;
    let points = points_of(alloc, events, ids.as_slice())?;
    let sorted = by_event(points)?;
    let order = rising(alloc, sorted.as_slice())?;
    Ok(order)
}
