//! A store that answers with the replies of a list.
use crate::calls::replies_of;
use sdb_model::Event;
use sdb_report::read_report;
use sdb_store::{Puppet, Replies};
use sdb_types::Duplicate;
use std::alloc::Global;
use std::test::Fail;

// The replies of the list, each to a request that it fits.
const LISTED: &str =
    "scalardb report 1\nevents 11\n1 call 1 s get shop.item(1;1) seen found none -\n2 call 1 s get shop.item(1;2) seen found shop.item(1;2){amount=5,tx_id='00000000-0000-0000-0000-000000000007',tx_state=3} -\n3 call 1 s scan shop.item seen rows 2 shop.item(1;1){amount=5,tx_id='00000000-0000-0000-0000-000000000007',tx_state=3} shop.item(2;1){amount=5,tx_id='00000000-0000-0000-0000-000000000007',tx_state=3} -\n4 call 1 s scan shop.item(1) seen rows 1 shop.item(1;1){amount=5,tx_id='00000000-0000-0000-0000-000000000007',tx_state=3} -\n5 call 1 s delete shop.item(1;1) if absent seen applied -\n6 call 1 s put shop.item(1;1){amount=6,tx_id='00000000-0000-0000-0000-000000000007',tx_state=3} if absent seen applied -\n7 call 1 s put shop.item(1;1){amount=6,tx_id='00000000-0000-0000-0000-000000000007',tx_state=3} if absent seen notmet shop.item(1;1){amount=5,tx_id='00000000-0000-0000-0000-000000000007',tx_state=3} -\n8 call 1 s put shop.item(1;1){amount=6,tx_id='00000000-0000-0000-0000-000000000007',tx_state=3} if absent seen notmet shop.item(1;1){amount=5,tx_id='00000000-0000-0000-0000-000000000007',tx_state=3} -\n9 call 1 s delete shop.item(1;1) if 00000000-0000-0000-0000-000000000007 3 seen notmet none -\n10 call 1 s get shop.item(1;1) seen fault -\n11 call 1 s get shop.item(1;1) seen found none -\norder 0\ntables 0\nend\n";

// What the store answers: a fault in place of a record of another key, of rows outside the span, of a write's reply to a get and of a
// record that meets the condition, and once the list has ended.
const ANSWERED: &str =
    "scalardb report 1\nevents 12\n1 call 1 s get shop.item(3;1) seen found none -\n2 call 1 s get shop.item(1;1) seen fault -\n3 call 1 s scan shop.item(1) seen fault -\n4 call 1 s scan shop.item seen rows 1 shop.item(1;1){amount=5,tx_id='00000000-0000-0000-0000-000000000007',tx_state=3} -\n5 call 1 s get shop.item(1;1) seen fault -\n6 call 1 s delete shop.item(9;9) if absent seen applied -\n7 call 1 s put shop.item(1;1){amount=6,tx_id='00000000-0000-0000-0000-000000000007',tx_state=3} if absent seen notmet shop.item(1;1){amount=5,tx_id='00000000-0000-0000-0000-000000000007',tx_state=3} -\n8 call 1 s put shop.item(1;1){amount=6,tx_id='00000000-0000-0000-0000-000000000007',tx_state=3} if 00000000-0000-0000-0000-000000000007 3 seen fault -\n9 call 1 s put shop.item(1;1){amount=6,tx_id='00000000-0000-0000-0000-000000000007',tx_state=3} if absent seen fault -\n10 call 1 s scan shop.item seen fault -\n11 call 1 s scan shop.item seen fault -\n12 call 1 s get shop.item(1;1) seen fault -\norder 0\ntables 0\nend\n";

/// The replies of a report's calls.
pub fn listed(alloc: Global, report: &str) -> Result<Replies, Fail> {
    let report = read_report(alloc, report.as_bytes())?;
    let mut replies = Replies::new(alloc);
    for event in &report.events {
        if let Event::Call(_, _, _, _, reply, _) = event {
            replies.push(reply.get().copy()?)?;
        }
    }
    Ok(replies)
}

#[test]
fn a_puppet_answers_with_the_replies_that_fit(rt: HostRuntime) -> Result<(), Fail> {
    let replies = listed(rt.alloc(), LISTED)?;
    replies_of(rt.alloc(), "puppet", Puppet::new(replies), ANSWERED)
}
