//! The head of a picture: its size, its style, its legend and its lanes.
ghost use Rattle.std.specs.Prelude.{◌≡◌, ◌++◌, OnOk, IfOk};
ghost use Rattle.std.specs.String.{string_bytes};
ghost use Rattle.sdb_picture.specs.Svg as spec;

use crate::drawing::put_text;
use crate::labels::{put_escaped, put_label};
use crate::places::{client_x, height_of, letter_x, row_y, store_x, width_of};
use crate::{Lanes, Place};
use sdb_model::put_key;
use sdb_types::{Name, NoMemory};
use std::alloc::Global;
use std::fmt::Write;

// Colours, each beside a dash, a shape or a letter, so that a picture is read in grey too.
const STYLE: &str = "<style>
svg{font:13px ui-monospace,Menlo,Consolas,'DejaVu Sans Mono',monospace}
text{fill:#1b1f24;paint-order:stroke;stroke:#fff;stroke-width:3px;stroke-linejoin:round}
.paper{fill:#fff}
.rows{fill:url(#stripes)}
.stripe{fill:#f4f6f8}
.lane{stroke:#aab2bd;stroke-width:1.5;fill:none}
.head{text-anchor:middle;font-weight:bold}
.key,.number,.place,.letter,.verdict,.note,.came,.legend{font-size:12px}
.number{text-anchor:end;fill:#6a737d}
.title{font-size:15px;font-weight:bold}
.take{fill:#1b1f24}
.answer{fill:#6f42c1}
.answered{text-anchor:end;fill:#5a32a3;font-weight:bold}
.note,.came{fill:#57606a}
.rest{fill:none;stroke:#1b1f24;stroke-width:2.5}
.call{fill:none;stroke-width:1.8}
.call.seen{stroke:#0072b2}
.call.lost{stroke:#c04f00;stroke-dasharray:9 4}
.call.dropped,.call.delayed{stroke:#6a737d;stroke-dasharray:2 4}
.call.failed{stroke:#a40e4c;stroke-dasharray:10 3 2 3}
.tip.seen{fill:#0072b2}
.tip.lost{fill:#fff;stroke:#c04f00;stroke-width:1.5}
.tip.dropped,.tip.delayed{fill:none;stroke:#6a737d;stroke-width:2}
.tip.failed{fill:#a40e4c}
.band{stroke:#1b1f24;stroke-width:1}
.band.doubtful{stroke-dasharray:3 3;fill-opacity:.35}
.prepared{fill:#f0b429}
.deleting{fill:#d98ab8}
.committed{fill:#5cb88a}
.deleted{fill:#9aa5b1}
.rolledback{fill:#7cc0ee}
.other{fill:#e4e7eb}
.letter,.verdict,.place{text-anchor:middle;dominant-baseline:central;stroke:none;font-weight:bold}
.letter{dominant-baseline:auto}
.decision{stroke:#fff;stroke-width:1.5}
.commit{fill:#14593a}
.abort{fill:#a40e4c}
.decision.doubtful{fill-opacity:.65;stroke:#1b1f24;stroke-dasharray:2 2}
.verdict,.place{fill:#fff}
.point{stroke:#5a32a3;stroke-width:1.2;stroke-dasharray:1 3;fill:none}
.badge{fill:#5a32a3}
</style>
<defs><pattern id=\"stripes\" patternUnits=\"userSpaceOnUse\" y=\"260\" width=\"52\" height=\"52\"><rect class=\"stripe\" width=\"52\" height=\"26\"/></pattern></defs>
";

// What each mark means, left of the heads of the records.
const LEGEND: &str = "<g>
<text class=\"title\" x=\"20\" y=\"28\">A replay, one row for each event</text>
<path class=\"call seen\" d=\"M20,54H70\"/>
<path class=\"tip seen\" d=\"M70,54l-10,-5v10z\"/>
<text class=\"legend\" x=\"80\" y=\"58\">a call, its reply seen</text>
<path class=\"call lost\" d=\"M20,78H70\"/>
<path class=\"tip lost\" d=\"M70,78l-10,-5v10z\"/>
<text class=\"legend\" x=\"80\" y=\"82\">made, its reply lost</text>
<path class=\"call dropped\" d=\"M20,102H70\"/>
<path class=\"tip dropped\" d=\"M70,102m-12,-5l10,10m0,-10l-10,10\"/>
<text class=\"legend\" x=\"80\" y=\"106\">dropped or delayed</text>
<path class=\"call failed\" d=\"M20,126H70\"/>
<path class=\"tip failed\" d=\"M70,126m-10,-5h10v10h-10z\"/>
<text class=\"legend\" x=\"80\" y=\"130\">the store failed</text>
<circle class=\"take\" cx=\"66\" cy=\"150\" r=\"4\"/>
<text class=\"legend\" x=\"80\" y=\"154\">a statement</text>
<path class=\"answer\" d=\"M60,174l10,-5v10z\"/>
<text class=\"legend\" x=\"80\" y=\"178\">its answer</text>
<path class=\"rest\" d=\"M66,198m-5,-5l10,10m0,-10l-10,10\"/>
<text class=\"legend\" x=\"80\" y=\"202\">a client stops or idles</text>
<rect class=\"band prepared\" x=\"270\" y=\"44\" width=\"20\" height=\"20\"/>
<text class=\"letter\" x=\"280\" y=\"59\">P</text>
<text class=\"legend\" x=\"300\" y=\"58\">prepared</text>
<rect class=\"band deleting\" x=\"270\" y=\"68\" width=\"20\" height=\"20\"/>
<text class=\"letter\" x=\"280\" y=\"83\">D</text>
<text class=\"legend\" x=\"300\" y=\"82\">prepared to delete</text>
<rect class=\"band committed\" x=\"270\" y=\"92\" width=\"20\" height=\"20\"/>
<text class=\"letter\" x=\"280\" y=\"107\">C</text>
<text class=\"legend\" x=\"300\" y=\"106\">committed</text>
<rect class=\"band deleted\" x=\"270\" y=\"116\" width=\"20\" height=\"20\"/>
<text class=\"letter\" x=\"280\" y=\"131\">X</text>
<text class=\"legend\" x=\"300\" y=\"130\">deleted, as a tombstone</text>
<rect class=\"band rolledback\" x=\"270\" y=\"140\" width=\"20\" height=\"20\"/>
<text class=\"letter\" x=\"280\" y=\"155\">R</text>
<text class=\"legend\" x=\"300\" y=\"154\">rolled back</text>
<rect class=\"band other\" x=\"270\" y=\"164\" width=\"20\" height=\"20\"/>
<text class=\"letter\" x=\"280\" y=\"179\">?</text>
<text class=\"legend\" x=\"300\" y=\"178\">another record</text>
<rect class=\"band prepared doubtful\" x=\"270\" y=\"188\" width=\"20\" height=\"20\"/>
<text class=\"letter\" x=\"280\" y=\"203\">P</text>
<text class=\"legend\" x=\"300\" y=\"202\">may not have been put</text>
<path class=\"decision commit\" d=\"M500,54m0,-11l11,11l-11,11l-11,-11z\"/>
<text class=\"verdict\" x=\"500\" y=\"54\">C</text>
<text class=\"legend\" x=\"520\" y=\"58\">decided: committed</text>
<path class=\"decision abort\" d=\"M500,82m0,-11l11,11l-11,11l-11,-11z\"/>
<text class=\"verdict\" x=\"500\" y=\"82\">A</text>
<text class=\"legend\" x=\"520\" y=\"86\">decided: aborted</text>
<circle class=\"badge\" cx=\"500\" cy=\"110\" r=\"10\"/>
<text class=\"place\" x=\"500\" y=\"110\">1</text>
<path class=\"point\" d=\"M510,110H540\"/>
<text class=\"legend\" x=\"548\" y=\"114\">the point of a recorded</text>
<text class=\"legend\" x=\"548\" y=\"130\">transaction, by its place</text>
<text class=\"legend\" x=\"548\" y=\"146\">in the order</text>
<path class=\"call seen\" d=\"M490,170H540\"/>
<path class=\"tip seen\" d=\"M540,170l-10,-5v10z\"/>
<text class=\"legend\" x=\"548\" y=\"174\">from no client: a late</text>
<text class=\"legend\" x=\"548\" y=\"190\">request lands</text>
</g>
";

#[tactic(auto, unfolding(crate::specs::Svg::opening_svg))]
fn put_opening(out: &mut String, width: u128, height: u128) -> Result<(), NoMemory>
    ensures { OnOk result (string_bytes out.new ≡ string_bytes out.old ++ spec.opening_svg width height) }
{
    write!(
        out,
        "<svg xmlns=\"http://www.w3.org/2000/svg\" style=\"width:100%;height:auto\" viewBox=\"0 0 {width} {height}\">\n"
    )?;
    Ok(())
}

#[tactic(auto, unfolding(crate::specs::Svg::paper_svg))]
fn put_paper(out: &mut String, width: u128, height: u128) -> Result<(), NoMemory>
    ensures { OnOk result (string_bytes out.new ≡ string_bytes out.old ++ spec.paper_svg width height) }
{
    write!(
        out,
        "<rect class=\"paper\" width=\"{width}\" height=\"{height}\"/>\n"
    )?;
    Ok(())
}

#[tactic(auto, unfolding(crate::specs::Svg::stripes_svg))]
fn put_stripes(out: &mut String, width: u128, rows: usize) -> Result<(), NoMemory>
    ensures { OnOk result (string_bytes out.new ≡ string_bytes out.old ++ spec.stripes_svg width rows) }
{
    let height = 26 * rows as u128;
    write!(
        out,
        "<rect class=\"rows\" y=\"260\" width=\"{width}\" height=\"{height}\"/>\n"
    )?;
    Ok(())
}

#[tactic(auto, unfolding(crate::specs::Svg::lane_svg))]
fn put_lane(out: &mut String, x: u128, rows: usize) -> Result<(), NoMemory>
    ensures { OnOk result (string_bytes out.new ≡ string_bytes out.old ++ spec.lane_svg x rows) }
{
    let end = row_y(rows);
    write!(out, "<path class=\"lane\" d=\"M{x},252V{end}\"/>\n")?;
    Ok(())
}

#[tactic(auto, unfolding(crate::specs::Svg::client_title))]
fn client_title(alloc: Global, client: u32) -> Result<String, NoMemory>
    ensures { IfOk result (λ title. string_bytes title ≡ spec.client_title client) }
{
    let mut title = String::new(alloc);
    write!(title, "client {client}")?;
    Ok(title)
}

#[tactic(auto, unfolding(crate::specs::Svg::client_svg))]
fn put_client(out: &mut String, rows: usize, lane: usize, client: u32) -> Result<(), NoMemory>
    ensures { OnOk result (string_bytes out.new ≡ string_bytes out.old ++ spec.client_svg rows lane client) }
{
    let title = client_title(*out.allocator(), client)?;
    put_lane(out, client_x(lane), rows)?;
    put_text(out, "head", client_x(lane), 244, 15, title.as_str())
}

fn put_clients(out: &mut String, rows: usize, clients: &[u32]) -> Result<(), NoMemory>
    ensures { OnOk result (string_bytes out.new ≡ string_bytes out.old ++ spec.clients_svg rows 0 clients.now) }
{
    for (lane, client) in clients.iter().enumerate() {
        put_client(out, rows, lane, *client)?;
    }
    Ok(())
}

#[tactic(auto, unfolding(crate::specs::Svg::store_svg))]
fn put_store(
    out: &mut String,
    lanes: &Lanes,
    rows: usize,
    lane: usize,
    store: &Name,
) -> Result<(), NoMemory>
    ensures { OnOk result (string_bytes out.new ≡ string_bytes out.old ++ spec.store_svg lanes.now rows lane store.now) }
{
    let x = store_x(lanes, lane);
    put_lane(out, x, rows)?;
    put_text(out, "head", x, 244, 12, store.as_str())
}

fn put_stores(out: &mut String, lanes: &Lanes, rows: usize, stores: &[Name]) -> Result<(), NoMemory>
    ensures { OnOk result (string_bytes out.new ≡ string_bytes out.old ++ spec.stores_svg lanes.now rows 0 stores.now) }
{
    for (lane, store) in stores.iter().enumerate() {
        put_store(out, lanes, rows, lane, store)?;
    }
    Ok(())
}

#[tactic(auto, unfolding(crate::specs::Svg::place_text))]
fn place_text(alloc: Global, place: &Place) -> Result<String, NoMemory>
    ensures { IfOk result (λ text. string_bytes text ≡ spec.place_text place.now) }
{
    let mut text = String::new(alloc);
    text.push_str(place.store.as_str())?;
    text.push_str(" ")?;
    put_key(&mut text, &place.key)?;
    Ok(text)
}

// A text written upwards from the heads of the lanes.
#[tactic(auto, unfolding(crate::specs::Svg::upwards_svg))]
fn put_upwards(out: &mut String, x: u128, text: &str) -> Result<(), NoMemory>
    ensures { OnOk result (string_bytes out.new ≡ string_bytes out.old ++ spec.upwards_svg x text.now) }
{
    write!(
        out,
        "<text class=\"key\" transform=\"translate({x},248)rotate(-90)\"><title>"
    )?;
    put_escaped(out, text)?;
    out.push_str("</title>")?;
    put_label(out, text, 32)
}

#[tactic(auto, unfolding(crate::specs::Svg::record_svg))]
fn put_record(out: &mut String, lanes: &Lanes, lane: usize, place: &Place) -> Result<(), NoMemory>
    ensures { OnOk result (string_bytes out.new ≡ string_bytes out.old ++ spec.record_svg lanes.now lane place.now) }
{
    let text = place_text(*out.allocator(), place)?;
    put_upwards(out, letter_x(lanes, lane), text.as_str())?;
    out.push_str("</text>\n")?;
    Ok(())
}

fn put_records(out: &mut String, lanes: &Lanes, records: &[Place]) -> Result<(), NoMemory>
    ensures { OnOk result (string_bytes out.new ≡ string_bytes out.old ++ spec.records_svg lanes.now 0 records.now) }
{
    for (lane, place) in records.iter().enumerate() {
        put_record(out, lanes, lane, place)?;
    }
    Ok(())
}

#[tactic(auto, unfolding(crate::specs::Svg::lanes_svg))]
fn put_lanes(out: &mut String, lanes: &Lanes, rows: usize) -> Result<(), NoMemory>
    ensures { OnOk result (string_bytes out.new ≡ string_bytes out.old ++ spec.lanes_svg lanes.now rows) }
{
    put_clients(out, rows, lanes.clients.as_slice())?;
    put_stores(out, lanes, rows, lanes.stores.as_slice())?;
    put_records(out, lanes, lanes.records.as_slice())
}

// The size, the style and the background.
#[tactic(auto, unfolding(crate::specs::Svg::ground_svg))]
fn put_ground(out: &mut String, lanes: &Lanes, rows: usize) -> Result<(), NoMemory>
    ensures { OnOk result (string_bytes out.new ≡ string_bytes out.old ++ spec.ground_svg lanes.now rows) }
{
    put_opening(out, width_of(lanes), height_of(rows))?;
    out.push_str(STYLE)?;
    put_paper(out, width_of(lanes), height_of(rows))?;
    put_stripes(out, width_of(lanes), rows)
}

/// Adds the head of a picture.
#[tactic(auto, unfolding(crate::specs::Svg::heading_svg))]
pub fn put_heading(out: &mut String, lanes: &Lanes, rows: usize) -> Result<(), NoMemory>
    ensures { OnOk result (string_bytes out.new ≡ string_bytes out.old ++ spec.heading_svg lanes.now rows) }
{
    put_ground(out, lanes, rows)?;
    out.push_str(LEGEND)?;
    put_lanes(out, lanes, rows)
}
