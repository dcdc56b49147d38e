//! The rows of a picture: a group for each event, and the points.
ghost use Rattle.std.specs.Prelude.{◌≡◌, ◌++◌, ◌+◌, OnOk};
ghost use Rattle.std.specs.List.{flat_map};
ghost use Rattle.std.specs.String.{string_bytes};
ghost use Rattle.sdb_picture.specs.Marks as spec;
ghost use Rattle.sdb_picture.specs.Svg.{group_svg, mark_svg, number_svg, title_svg};

use crate::Lanes;
use crate::drawing::put_pointed;
use crate::labels::put_escaped;
use crate::marks::put_marks;
use crate::places::text_y;
use crate::titles::title_of;
use sdb_model::{Event, Point};
use sdb_types::NoMemory;
use std::fmt::Write;

#[tactic(auto, unfolding(crate::specs::Svg::title_svg))]
fn put_title(out: &mut String, title: &str) -> Result<(), NoMemory>
    ensures { OnOk result (string_bytes out.new ≡ string_bytes out.old ++ title_svg title.now) }
{
    out.push_str("<g>\n<title>")?;
    put_escaped(out, title)?;
    out.push_str("</title>\n")?;
    Ok(())
}

fn put_title_of(out: &mut String, row: usize, event: &Event) -> Result<(), NoMemory>
    ensures { OnOk result (string_bytes out.new ≡ string_bytes out.old ++ title_svg (spec.title_of row event.now)) }
{
    let title = title_of(*out.allocator(), row, event)?;
    put_title(out, title.as_str())
}

#[tactic(auto, unfolding(crate::specs::Svg::number_svg))]
fn put_number_of(out: &mut String, row: usize) -> Result<(), NoMemory>
    ensures { OnOk result (string_bytes out.new ≡ string_bytes out.old ++ number_svg row) }
{
    let y = text_y(row);
    let number = row as u128 + 1;
    write!(
        out,
        "<text class=\"number\" x=\"32\" y=\"{y}\">{number}</text>\n"
    )?;
    Ok(())
}

#[tactic(auto, unfolding(crate::specs::Svg::group_svg))]
fn put_group(
    out: &mut String,
    lanes: &Lanes,
    past: &[Event],
    row: usize,
    event: &Event,
    rest: &[Event],
) -> Result<(), NoMemory>
    ensures { OnOk result (string_bytes out.new ≡ string_bytes out.old ++ group_svg lanes.now (spec.group_of lanes.now past.now row event.now rest.now)) }
{
    put_title_of(out, row, event)?;
    put_number_of(out, row)?;
    put_marks(out, lanes, past, row, event, rest)?;
    out.push_str("</g>\n")?;
    Ok(())
}

/// Adds the groups of all events.
pub fn put_groups(out: &mut String, lanes: &Lanes, events: &[Event]) -> Result<(), NoMemory>
    ensures { OnOk result (string_bytes out.new ≡ string_bytes out.old ++ flat_map (group_svg lanes.now) (spec.groups_of lanes.now events.now 0 events.now)) }
{
    for (row, event) in events.iter().enumerate() {
        put_group(out, lanes, &events[..row], row, event, &events[row + 1..])?;
    }
    Ok(())
}

fn put_point(
    out: &mut String,
    lanes: &Lanes,
    events: usize,
    place: u64,
    point: Point,
) -> Result<(), NoMemory>
    ensures { OnOk result (string_bytes out.new ≡ string_bytes out.old ++ flat_map (mark_svg lanes.now) (spec.point_marks events place point)) }
{
    if point.event > events as u64 {
        return Ok(());
    }
    let text = point.id.text(*out.allocator())?;
    put_pointed(out, lanes, point.event as usize, place, text.as_str())
}

/// Adds the points that lie among so many events.
pub fn put_points(
    out: &mut String,
    lanes: &Lanes,
    events: usize,
    order: &[Point],
) -> Result<(), NoMemory>
    ensures { OnOk result (string_bytes out.new ≡ string_bytes out.old ++ flat_map (mark_svg lanes.now) (spec.points_of events 1 order.now)) }
{
    for (i, point) in order.iter().enumerate() {
        put_point(out, lanes, events, i as u64 + 1, *point)?;
    }
    Ok(())
}
