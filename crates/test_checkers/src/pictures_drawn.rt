//! Parts of pictures.
use sdb_picture::picture;
use std::alloc::Global;
use std::test::Fail;
use test_builders::{Case, all_cases};

// Texts that the picture of a report contains, each so often.
#[derive(Clone, Copy)]
struct Part {
    report: &'static str,
    text: &'static str,
    times: usize,
}

impl Case for Part {
    fn holds(self, alloc: Global) -> Result<bool, Fail> {
        let drawn = picture(alloc, self.report.as_bytes())?;
        Ok(drawn.as_str().matches(self.text).count() == self.times)
    }
}

// A put of each fate: seen, lost, dropped and failed, of two records and of a decision; a client that stops, the clock, an idle step;
// a lost put whose condition did not hold, one that failed, and a lost one after it.
const FATES: &str =
    "scalardb report 1\nevents 13\n1 take 1 done : BEGIN\n2 call 1 ordered put a.b(1){tx_id='00000000-0000-0001-0000-000000000001',tx_state=1} if absent seen applied -\n3 call 1 ordered put a.b(2){tx_id='00000000-0000-0001-0000-000000000001',tx_state=1} if absent lost fault -\n4 call 1 hashed put a.b(2){tx_id='00000000-0000-0001-0000-000000000001',tx_state=1} if absent dropped fault -\n5 call 1 ordered put coordinator.state('00000000-0000-0001-0000-000000000001'){tx_created_at=0L,tx_state=3} if absent failed fault committed\n6 call 2 ordered put a.b(1){tx_id='00000000-0000-0001-0000-000000000001',tx_state=3} if 00000000-0000-0001-0000-000000000001 1 seen applied -\n7 call 2 ordered delete a.b(1) if 00000000-0000-0001-0000-000000000001 3 seen applied -\n8 stop 1\n9 clock 15000\n10 idle 1\n11 call 2 ordered put a.b(2){tx_id='00000000-0000-0001-0000-000000000001',tx_state=3} if absent lost fault -\n12 call 2 ordered put a.b(2){tx_id='00000000-0000-0001-0000-000000000001',tx_state=3} if 00000000-0000-0001-0000-000000000001 1 failed fault -\n13 call 2 ordered put a.b(2){tx_id='00000000-0000-0001-0000-000000000001',tx_state=1} if 00000000-0000-0001-0000-000000000001 3 lost fault -\norder 2\n00000000-0000-0001-0000-000000000001 3\n00000000-0000-0002-0000-000000000001 14\ntables 0\nend\n";

static FATES_DRAWN: [Part; 16] = [
    Part {
        report: FATES,
        text: "<path class=\"call seen\" d=\"M190,305H720\"/>",
        times: 1,
    },
    Part {
        report: FATES,
        text: "<path class=\"call lost\" d=\"M190,331H720\"/>",
        times: 1,
    },
    Part {
        report: FATES,
        text: "<path class=\"call dropped\" d=\"M190,357H820\"/>",
        times: 1,
    },
    Part {
        report: FATES,
        text: "<path class=\"call failed\" d=\"M190,383H720\"/>",
        times: 1,
    },
    Part {
        report: FATES,
        text: "<path class=\"call seen\" d=\"M330,",
        times: 2,
    },
    Part {
        report: FATES,
        text: "<rect class=\"band prepared sure\" x=\"920\" y=\"305\" width=\"20\" height=\"104\"/>",
        times: 1,
    },
    Part {
        report: FATES,
        text: "<rect class=\"band prepared sure\" x=\"946\" y=\"331\" width=\"20\" height=\"234\"/>",
        times: 1,
    },
    Part {
        report: FATES,
        text: "<rect class=\"band committed sure\" x=\"920\" y=\"409\" width=\"20\" height=\"26\"/>",
        times: 1,
    },
    Part {
        report: FATES,
        text: "<rect class=\"band committed doubtful\" x=\"946\" y=\"565\" width=\"20\" height=\"26\"/>",
        times: 1,
    },
    Part {
        report: FATES,
        text: "<rect class=\"band prepared doubtful\" x=\"946\" y=\"591\" width=\"20\" height=\"26\"/>",
        times: 1,
    },
    Part {
        report: FATES,
        text: "<rect class=\"band",
        times: 12,
    },
    Part {
        report: FATES,
        text: "<path class=\"decision commit doubtful\"",
        times: 1,
    },
    Part {
        report: FATES,
        text: "y=\"274\">done</text>",
        times: 1,
    },
    Part {
        report: FATES,
        text: "<title>1: 00000000-0000-0001-0000-000000000001</title>\n<path class=\"point\" d=\"M58,338H982\"/>",
        times: 1,
    },
    Part {
        report: FATES,
        text: "<title>2: ",
        times: 0,
    },
    Part {
        report: FATES,
        text: "clock 15000</text>",
        times: 1,
    },
];

#[test]
fn fates_are_drawn(rt: HostRuntime) -> Result<(), Fail> {
    all_cases(rt.alloc(), "fates", FATES_DRAWN.as_slice())
}

// Columns that are to be added to tables: notes of no client.
const ADDED: &str =
    "scalardb report 1\nevents 3\n1 take 1 done : BEGIN\n2 alter bank.account note TEXT open\n3 alter bank.account id BIGINT refused 2\norder 0\ntables 0\nend\n";

static ADDED_DRAWN: [Part; 4] = [
    Part {
        report: ADDED,
        text: ">alter bank.account note TEXT open</text>",
        times: 1,
    },
    Part {
        report: ADDED,
        text: "<title>2 alter bank.account note TEXT open</title>",
        times: 1,
    },
    Part {
        report: ADDED,
        text: ">alter bank.account id BIGINT refused 2</text>",
        times: 1,
    },
    // No arrows but those of the legend.
    Part {
        report: ADDED,
        text: "class=\"call",
        times: 5,
    },
];

#[test]
fn added_columns_are_noted(rt: HostRuntime) -> Result<(), Fail> {
    all_cases(rt.alloc(), "added", ADDED_DRAWN.as_slice())
}

// A statement of signs, of a character that XML doesn't have, and of more characters than are drawn.
const SIGNS: &str =
    "scalardb report 1\nevents 2\n1 take 1 - : <a href=\"x\">&\u{1}\u{7F}\u{FFFE}</a>\n2 take 1 - : äbcdefghij1bcdefghij2bcdefghij3bcdefghij4bcdefghij5bcdefghij\norder 0\ntables 0\nend\n";

static SIGNS_DRAWN: [Part; 5] = [
    Part {
        report: SIGNS,
        text: ">&lt;a href=&quot;x&quot;&gt;&amp;\u{FFFD}\u{FFFD}\u{FFFD}&lt;/a&gt;</text>",
        times: 1,
    },
    Part {
        report: SIGNS,
        text: "<title>1 &lt;a href=&quot;x&quot;&gt;&amp;\u{FFFD}\u{FFFD}\u{FFFD}&lt;/a&gt;</title>",
        times: 1,
    },
    Part {
        report: SIGNS,
        text: "<a href",
        times: 0,
    },
    Part {
        report: SIGNS,
        text: ">äbcdefghij1bcdefghij2bcdefghij3bcdefghij4bcdefghij5bcdefgh…</text>",
        times: 1,
    },
    Part {
        report: SIGNS,
        text: "<title>2 äbcdefghij1bcdefghij2bcdefghij3bcdefghij4bcdefghij5bcdefghij</title>",
        times: 1,
    },
];

#[test]
fn signs_are_escaped(rt: HostRuntime) -> Result<(), Fail> {
    all_cases(rt.alloc(), "signs", SIGNS_DRAWN.as_slice())
}
