//! The text of a crease pattern.
ghost use Rattle.std.specs.Prelude.{◌≡◌, ◌≤◌, length, IfOk, Some};
ghost use Rattle.serde_json.specs.View.{view};
ghost use Rattle.ff_read.specs.Read.{IsReadAs};
ghost use Rattle.ff_read.specs.Spelling.{object_of};
ghost use Rattle.ff_lined.specs.Texts.{IsMarked, IsTextOf, ends_data, letter_text, list_data, mark_data, pattern_data, pattern_line, point_data};

use ff_tables::{NoMemory, Text};
use ff_types::{EdgeEnds, Mark, Pattern};
use ff_whole::Pt;
use serde_json::{Value, json};
use std::alloc::{AllocError, Global};

fn letter_of(mark: Mark) -> &'static str
    ensures { result.now ≡ letter_text mark }
{
    match mark {
        Mark::B => "B",
        Mark::M => "M",
        Mark::V => "V",
        Mark::F => "F",
        Mark::U => "U",
    }
}

fn point_value(alloc: Global, p: Pt) -> Result<Value, AllocError>
    ensures { IfOk result (λ v. view v ≡ point_data p) }
{
    json!(in alloc; [p.x, p.y])
}

fn ends_value(alloc: Global, e: EdgeEnds) -> Result<Value, AllocError>
    ensures { IfOk result (λ v. view v ≡ ends_data e) }
{
    json!(in alloc; [e.a, e.b])
}

fn mark_value(alloc: Global, mark: Mark) -> Result<Value, AllocError>
    ensures { IfOk result (λ v. view v ≡ mark_data mark) }
{
    Value::try_from_str(alloc, letter_of(mark))
}

fn points_value(alloc: Global, points: &[Pt]) -> Result<Value, AllocError>
    ensures { IfOk result (λ v. view v ≡ list_data point_data points.now) }
{
    let mut list = Vec::with_capacity(alloc, points.len())?;
    for i in 0..points.len() {
        list.push(point_value(alloc, points[i])?)?;
    }
    Ok(Value::Array(list))
}

fn edges_value(alloc: Global, edges: &[EdgeEnds]) -> Result<Value, AllocError>
    ensures { IfOk result (λ v. view v ≡ list_data ends_data edges.now) }
{
    let mut list = Vec::with_capacity(alloc, edges.len())?;
    for i in 0..edges.len() {
        list.push(ends_value(alloc, edges[i])?)?;
    }
    Ok(Value::Array(list))
}

fn marks_value(alloc: Global, marks: &[Mark]) -> Result<Value, AllocError>
    ensures { IfOk result (λ v. view v ≡ list_data mark_data marks.now) }
{
    let mut list = Vec::with_capacity(alloc, marks.len())?;
    for i in 0..marks.len() {
        list.push(mark_value(alloc, marks[i])?)?;
    }
    Ok(Value::Array(list))
}

fn pattern_value(
    alloc: Global,
    points: &[Pt],
    edges: &[EdgeEnds],
    marks: &[Mark],
) -> Result<Value, AllocError>
    ensures { IfOk result (λ v. view v ≡ pattern_data points.now edges.now marks.now) }
{
    let letters = marks_value(alloc, marks)?;
    let ends = edges_value(alloc, edges)?;
    let coordinates = points_value(alloc, points)?;
    json!(in alloc; {"edges_assignment": letters, "edges_vertices": ends, "vertices_coords": coordinates})
}

// The line of a pattern with these marks, which is read as the object that it is the text of.
fn line_with(
    alloc: Global,
    points: &[Pt],
    edges: &[EdgeEnds],
    marks: &[Mark],
) -> Result<Text, NoMemory>
    ensures is { IfOk result (λ text. text ≡ pattern_line points.now edges.now marks.now) }
    ensures read { IfOk result (λ text. object_of text ≡ Some (pattern_data points.now edges.now marks.now)) }
{
    let value = pattern_value(alloc, points, edges, marks)?;
    let mut text = value.to_string(alloc)?;
    text.push_str("\n")?;
    Ok(Text::of(text))
}

/// The line of JSON that is a crease pattern with marks: the keys `edges_assignment`, `edges_vertices` and `vertices_coords`,
/// without spaces. Where the pattern has three vertices at least, the text is read as that pattern.
pub fn pattern_text(alloc: Global, pattern: &Pattern) -> Result<Text, NoMemory>
    requires marked { IsMarked pattern.now }
    ensures is { IfOk result (IsTextOf pattern.now) }
    ensures read { IfOk result (λ text. 3 ≤ length pattern.now.points → IsReadAs text pattern.now) }
{
    match &pattern.marks {
        Some(marks) => line_with(
            alloc,
            pattern.points.as_slice(),
            pattern.edges.as_slice(),
            marks.as_slice(),
        ),
        None => Err(NoMemory),
    }
}
