//! Marks as SVG. Each `put_` function adds a mark at the end of a text.
ghost use Rattle.std.specs.Prelude.{◌≡◌, ◌++◌, OnOk, decimal};
ghost use Rattle.std.specs.String.{string_bytes};
ghost use Rattle.sdb_picture.specs.Svg as spec;

use crate::fate::{how_word, tip_path};
use crate::labels::{put_escaped, put_label};
use crate::places::{
    answer_x, arrow_y, came_x, client_x, decision_x, label_x, letter_x, letter_y, record_x, row_y,
    statement_x, store_x, text_y, width_of,
};
use crate::{Effect, Lanes, Stage, Verdict};
use sdb_model::How;
use sdb_types::NoMemory;
use std::fmt::Write;

// What a label begins with.
#[tactic(auto, unfolding(crate::specs::Svg::tag_svg))]
fn put_tag(out: &mut String, class: &str, x: u128, y: u128) -> Result<(), NoMemory>
    ensures { OnOk result (string_bytes out.new ≡ string_bytes out.old ++ spec.tag_svg class.now x y) }
{
    write!(out, "<text class=\"{class}\" x=\"{x}\" y=\"{y}\">")?;
    Ok(())
}

/// Adds a label of a class, cut to a width in characters.
#[tactic(auto, unfolding(crate::specs::Svg::text_svg))]
pub fn put_text(
    out: &mut String,
    class: &str,
    x: u128,
    y: u128,
    width: usize,
    text: &str,
) -> Result<(), NoMemory>
    ensures { OnOk result (string_bytes out.new ≡ string_bytes out.old ++ spec.text_svg class.now x y width text.now) }
{
    put_tag(out, class, x, y)?;
    put_label(out, text, width)?;
    out.push_str("</text>\n")?;
    Ok(())
}

fn doubt_word(effect: Effect) -> &'static str
    ensures { result.now ≡ spec.doubt_text effect }
{
    match effect {
        Effect::Sure => "sure",
        Effect::Doubtful => "doubtful",
        Effect::Nothing => "sure",
    }
}

fn stage_word(stage: Stage) -> &'static str
    ensures { result.now ≡ spec.stage_text stage }
{
    match stage {
        Stage::Prepared => "prepared",
        Stage::Deleting => "deleting",
        Stage::Committed => "committed",
        Stage::Deleted => "deleted",
        Stage::RolledBack => "rolledback",
        Stage::Other => "other",
    }
}

fn stage_letter(stage: Stage) -> &'static str
    ensures { result.now ≡ spec.stage_letter stage }
{
    match stage {
        Stage::Prepared => "P",
        Stage::Deleting => "D",
        Stage::Committed => "C",
        Stage::Deleted => "X",
        Stage::RolledBack => "R",
        Stage::Other => "?",
    }
}

fn verdict_word(verdict: Verdict) -> &'static str
    ensures { result.now ≡ spec.verdict_text verdict }
{
    match verdict {
        Verdict::Committed => "commit",
        Verdict::Aborted => "abort",
        Verdict::Other => "other",
    }
}

fn verdict_letter(verdict: Verdict) -> &'static str
    ensures { result.now ≡ spec.verdict_letter verdict }
{
    match verdict {
        Verdict::Committed => "C",
        Verdict::Aborted => "A",
        Verdict::Other => "?",
    }
}

#[tactic(auto, unfolding(crate::specs::Svg::dot_svg))]
fn put_dot(out: &mut String, x: u128, y: u128) -> Result<(), NoMemory>
    ensures { OnOk result (string_bytes out.new ≡ string_bytes out.old ++ spec.dot_svg x y) }
{
    write!(
        out,
        "<circle class=\"take\" cx=\"{x}\" cy=\"{y}\" r=\"4\"/>\n"
    )?;
    Ok(())
}

/// Adds a statement that a client takes.
#[tactic(auto, unfolding(crate::specs::Svg::statement_svg))]
pub fn put_statement(
    out: &mut String,
    row: usize,
    client: usize,
    text: &str,
) -> Result<(), NoMemory>
    ensures { OnOk result (string_bytes out.new ≡ string_bytes out.old ++ spec.statement_svg row client text.now) }
{
    put_dot(out, client_x(client), arrow_y(row))?;
    put_text(out, "statement", statement_x(client), text_y(row), 58, text)
}

#[tactic(auto, unfolding(crate::specs::Svg::line_svg))]
fn put_line(out: &mut String, class: &str, from: u128, to: u128, y: u128) -> Result<(), NoMemory>
    ensures { OnOk result (string_bytes out.new ≡ string_bytes out.old ++ spec.line_svg class.now from to y) }
{
    write!(
        out,
        "<path class=\"call {class}\" d=\"M{from},{y}H{to}\"/>\n"
    )?;
    Ok(())
}

#[tactic(auto, unfolding(crate::specs::Svg::tip_svg))]
fn put_tip(out: &mut String, how: How, x: u128, y: u128) -> Result<(), NoMemory>
    ensures { OnOk result (string_bytes out.new ≡ string_bytes out.old ++ spec.tip_svg how x y) }
{
    let class = how_word(how);
    let tip = tip_path(how);
    write!(out, "<path class=\"tip {class}\" d=\"M{x},{y}{tip}\"/>\n")?;
    Ok(())
}

/// Adds a call: an arrow from the client to the store, what it asks, and what came of it.
#[tactic(auto, unfolding(crate::specs::Svg::arrow_svg))]
pub fn put_arrow(
    out: &mut String,
    lanes: &Lanes,
    row: usize,
    client: usize,
    store: usize,
    how: How,
    asked: &str,
    came: &str,
) -> Result<(), NoMemory>
    ensures { OnOk result (string_bytes out.new ≡ string_bytes out.old ++ spec.arrow_svg lanes.now row client store how asked.now came.now) }
{
    let to = store_x(lanes, store);
    put_line(out, how_word(how), client_x(client), to, arrow_y(row))?;
    put_tip(out, how, to, arrow_y(row))?;
    put_text(out, "ask", label_x(lanes), text_y(row), 42, asked)?;
    put_text(out, "came", came_x(lanes, store), text_y(row), 10, came)
}

/// Adds a landing: an arrow from where the labels begin to the store, what the request asks, and what came of it.
#[tactic(auto, unfolding(crate::specs::Svg::landing_svg))]
pub fn put_landing(
    out: &mut String,
    lanes: &Lanes,
    row: usize,
    store: usize,
    how: How,
    asked: &str,
    came: &str,
) -> Result<(), NoMemory>
    ensures { OnOk result (string_bytes out.new ≡ string_bytes out.old ++ spec.landing_svg lanes.now row store how asked.now came.now) }
{
    let to = store_x(lanes, store);
    put_line(out, how_word(how), label_x(lanes), to, arrow_y(row))?;
    put_tip(out, how, to, arrow_y(row))?;
    put_text(out, "ask", label_x(lanes), text_y(row), 42, asked)?;
    put_text(out, "came", came_x(lanes, store), text_y(row), 10, came)
}

#[tactic(auto, unfolding(crate::specs::Svg::wedge_svg))]
fn put_wedge(out: &mut String, x: u128, y: u128) -> Result<(), NoMemory>
    ensures { OnOk result (string_bytes out.new ≡ string_bytes out.old ++ spec.wedge_svg x y) }
{
    write!(
        out,
        "<path class=\"answer\" d=\"M{x},{y}m-15,0l10,-5v10z\"/>\n"
    )?;
    Ok(())
}

/// Adds an answer that a client is given.
#[tactic(auto, unfolding(crate::specs::Svg::answer_svg))]
pub fn put_answered(out: &mut String, row: usize, client: usize, text: &str) -> Result<(), NoMemory>
    ensures { OnOk result (string_bytes out.new ≡ string_bytes out.old ++ spec.answer_svg row client text.now) }
{
    put_wedge(out, client_x(client), arrow_y(row))?;
    put_text(out, "answered", answer_x(client), text_y(row), 15, text)
}

// A rectangle of the width of a band.
#[tactic(auto, unfolding(crate::specs::Svg::box_svg))]
fn put_box(out: &mut String, x: u128, y: u128, height: u128) -> Result<(), NoMemory>
    ensures { OnOk result (string_bytes out.new ≡ string_bytes out.old ++ spec.box_svg x y height) }
{
    write!(
        out,
        "\" x=\"{x}\" y=\"{y}\" width=\"20\" height=\"{height}\"/>\n"
    )?;
    Ok(())
}

#[tactic(auto, unfolding(crate::specs::Svg::band_tag_svg))]
fn put_band_tag(out: &mut String, stage: Stage, effect: Effect) -> Result<(), NoMemory>
    ensures { OnOk result (string_bytes out.new ≡ string_bytes out.old ++ spec.band_tag_svg stage effect) }
{
    out.push_str("<rect class=\"band ")?;
    out.push_str(stage_word(stage))?;
    out.push_str(" ")?;
    out.push_str(doubt_word(effect))?;
    Ok(())
}

/// Adds the band of a record, from its row on and for so many rows after it.
#[tactic(auto, unfolding(crate::specs::Svg::band_svg))]
pub fn put_band(
    out: &mut String,
    lanes: &Lanes,
    lane: usize,
    row: usize,
    rows: usize,
    stage: Stage,
    effect: Effect,
) -> Result<(), NoMemory>
    ensures { OnOk result (string_bytes out.new ≡ string_bytes out.old ++ spec.band_svg lanes.now lane row rows stage effect) }
{
    let height = 26 + 26 * rows as u128;
    put_band_tag(out, stage, effect)?;
    put_box(out, record_x(lanes, lane), arrow_y(row), height)?;
    put_text(
        out,
        "letter",
        letter_x(lanes, lane),
        letter_y(row),
        1,
        stage_letter(stage),
    )
}

#[tactic(auto, unfolding(crate::specs::Svg::diamond_svg))]
fn put_diamond(
    out: &mut String,
    verdict: Verdict,
    effect: Effect,
    x: u128,
    y: u128,
) -> Result<(), NoMemory>
    ensures { OnOk result (string_bytes out.new ≡ string_bytes out.old ++ spec.diamond_svg verdict effect x y) }
{
    let verdict = verdict_word(verdict);
    let doubt = doubt_word(effect);
    write!(
        out,
        "<path class=\"decision {verdict} {doubt}\" d=\"M{x},{y}m0,-11l11,11l-11,11l-11,-11z\"/>\n"
    )?;
    Ok(())
}

/// Adds the mark of a decision on a transaction.
#[tactic(auto, unfolding(crate::specs::Svg::decision_svg))]
pub fn put_decided(
    out: &mut String,
    lanes: &Lanes,
    row: usize,
    store: usize,
    verdict: Verdict,
    effect: Effect,
) -> Result<(), NoMemory>
    ensures { OnOk result (string_bytes out.new ≡ string_bytes out.old ++ spec.decision_svg lanes.now row store verdict effect) }
{
    let x = decision_x(lanes, store);
    put_diamond(out, verdict, effect, x, arrow_y(row))?;
    put_text(out, "verdict", x, arrow_y(row), 1, verdict_letter(verdict))
}

#[tactic(auto, unfolding(crate::specs::Svg::cross_svg))]
fn put_cross(out: &mut String, x: u128, y: u128) -> Result<(), NoMemory>
    ensures { OnOk result (string_bytes out.new ≡ string_bytes out.old ++ spec.cross_svg x y) }
{
    write!(
        out,
        "<path class=\"rest\" d=\"M{x},{y}m-5,-5l10,10m0,-10l-10,10\"/>\n"
    )?;
    Ok(())
}

/// Adds the mark of a client that stops or idles.
#[tactic(auto, unfolding(crate::specs::Svg::rest_svg))]
pub fn put_rested(out: &mut String, row: usize, client: usize, text: &str) -> Result<(), NoMemory>
    ensures { OnOk result (string_bytes out.new ≡ string_bytes out.old ++ spec.rest_svg row client text.now) }
{
    put_cross(out, client_x(client), arrow_y(row))?;
    put_text(out, "note", statement_x(client), text_y(row), 48, text)
}

/// Adds a note that is no client's.
#[tactic(auto, unfolding(crate::specs::Svg::tick_svg))]
pub fn put_ticked(out: &mut String, row: usize, text: &str) -> Result<(), NoMemory>
    ensures { OnOk result (string_bytes out.new ≡ string_bytes out.old ++ spec.tick_svg row text.now) }
{
    put_text(out, "note", 66, text_y(row), 48, text)
}

#[tactic(auto, unfolding(crate::specs::Svg::point_title_svg))]
fn put_point_title(out: &mut String, place: u64, id: &str) -> Result<(), NoMemory>
    ensures { OnOk result (string_bytes out.new ≡ string_bytes out.old ++ spec.point_title_svg place id.now) }
{
    write!(out, "<g>\n<title>{place}: ")?;
    put_escaped(out, id)?;
    out.push_str("</title>\n")?;
    Ok(())
}

#[tactic(auto, unfolding(crate::specs::Svg::point_line_svg))]
fn put_point_line(out: &mut String, y: u128, width: u128) -> Result<(), NoMemory>
    ensures { OnOk result (string_bytes out.new ≡ string_bytes out.old ++ spec.point_line_svg y width) }
{
    write!(
        out,
        "<path class=\"point\" d=\"M58,{y}H{width}\"/>\n<circle class=\"badge\" cx=\"48\" cy=\"{y}\" r=\"10\"/>\n"
    )?;
    Ok(())
}

/// Adds the point of a recorded transaction, below so many events.
#[tactic(auto, unfolding(crate::specs::Svg::point_svg))]
pub fn put_pointed(
    out: &mut String,
    lanes: &Lanes,
    events: usize,
    place: u64,
    id: &str,
) -> Result<(), NoMemory>
    ensures { OnOk result (string_bytes out.new ≡ string_bytes out.old ++ spec.point_svg lanes.now events place id.now) }
{
    put_point_title(out, place, id)?;
    put_point_line(out, row_y(events), width_of(lanes))?;
    put_place(out, row_y(events), place)?;
    out.push_str("</g>\n")?;
    Ok(())
}

#[tactic(auto, unfolding(crate::specs::Svg::place_svg))]
fn put_place(out: &mut String, y: u128, place: u64) -> Result<(), NoMemory>
    ensures { OnOk result (string_bytes out.new ≡ string_bytes out.old ++ spec.place_svg y place) }
{
    write!(
        out,
        "<text class=\"place\" x=\"48\" y=\"{y}\">{place}</text>\n"
    )?;
    Ok(())
}
