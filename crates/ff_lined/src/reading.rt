//! Lines as they are read.
ghost use Rattle.std.specs.Prelude.{◌≡◌, ◌<◌, ◌^◌, length, map, None, Some, option_map, IfOk, MatchResult};
ghost use Rattle.std.specs.List.{All};
ghost use Rattle.serde_json.specs.View.{view};
ghost use Rattle.ff_read.specs.Read.{IsBadItem};
ghost use Rattle.ff_read.specs.Spelling.{all_of as all_spelled};
ghost use Rattle.ff_lines.specs.Lines.{IsProper};
ghost use Rattle.ff_lined.specs.Reading.{AreLinesIn, AreLinesOf, HasFewLines, WhyNoLines, WhyNoLinesOf, coordinate as small_whole, line_between as line_from, line_in, line_of, lines_in};

use ff_lines::{LineItem, MOST_LINES};
use ff_read::{FromJson, ItemNo, items_of, read_object};
use ff_tables::Items;
use ff_types::{Key, Mark, No, Refusal, What};
use ff_whole::{POINT_SIZE, Pt};
use serde_json::Value;
use std::alloc::Global;

fn coordinate(value: &Value) -> Option<i64>
    ensures { result ≡ small_whole (view value.now) }
{
    let z = value.as_i64()?;
    if z.unsigned_abs() < POINT_SIZE {
        Some(z)
    } else {
        None
    }
}

fn line_between(a: i64, b: i64, c: i64, d: i64, mark: Mark) -> Option<LineItem>
    ensures { result ≡ line_from a b c d mark }
{
    if a == c && b == d {
        return None;
    }
    Some(LineItem {
        p: Pt { x: a, y: b },
        q: Pt { x: c, y: d },
        mark,
    })
}

fn line_at(list: &[Value]) -> Option<LineItem>
    ensures { result ≡ line_in (map view list.now) }
{
    let [x, y, z, w, letter] = list else {
        return None;
    };
    let a = coordinate(x)?;
    let b = coordinate(y)?;
    let c = coordinate(z)?;
    let d = coordinate(w)?;
    let mark = Mark::from_json(letter)?;
    line_between(a, b, c, d, mark)
}

fn line_from_json(value: &Value) -> Option<LineItem>
    ensures { result ≡ line_of (view value.now) }
{
    line_at(items_of(value)?)
}

// What all items spell, or the first that isn't of its form.
fn all_lines(alloc: Global, list: &[Value]) -> Result<Items<LineItem>, ItemNo>
    requires few { length list.now < 2 ^ 32 }
    ensures { MatchResult result (λ lines. all_spelled line_of (map view list.now) ≡ Some lines) (IsBadItem line_of (map view list.now)) }
{
    let mut lines = Vec::new(alloc);
    for i in 0..list.len() {
        match line_from_json(&list[i]) {
            Some(line) => {
                let Ok(()) = lines.push(line) else {
                    return Err(ItemNo::NoMemory);
                };
            }
            None => return Err(ItemNo::Bad { index: i as u32 }),
        }
    }
    Ok(Items::of(lines))
}

fn lines_at(object: &Value) -> Option<&[Value]>
    ensures { option_map (λ l. map view l.now) result ≡ lines_in (view object.now) }
{
    items_of(object.get("lines")?)
}

// The lines that an object spells.
fn lines_of(alloc: Global, object: &Value) -> Result<Items<LineItem>, No>
    requires few { HasFewLines (view object.now) }
    ensures { MatchResult result (AreLinesOf (view object.now)) (WhyNoLinesOf (view object.now)) }
{
    let Some(list) = lines_at(object) else {
        return Err(No::Refused(Refusal::BadKey { key: Key::Lines }));
    };
    let lines = match all_lines(alloc, list) {
        Ok(lines) => lines,
        Err(ItemNo::Bad { index }) => return Err(No::Refused(Refusal::BadLine { line: index })),
        Err(ItemNo::NoMemory) => return Err(No::NoMemory),
    };
    if MOST_LINES < lines.as_slice().len() {
        return Err(No::Refused(Refusal::TooMany {
            what: What::Lines,
            limit: MOST_LINES as u64,
        }));
    }
    Ok(lines)
}

/// The lines that bytes spell: refused where they are no JSON object, where the key isn't an array, at the first item that isn't
/// a line, and where there are too many. They may be drawn.
pub fn read_lines(alloc: Global, bytes: &[u8]) -> Result<Items<LineItem>, No>
    requires { length bytes.now < 2 ^ 32 }
    ensures read { MatchResult result (AreLinesIn bytes.now) (WhyNoLines bytes.now) }
    ensures proper { IfOk result (All IsProper) }
{
    let object = read_object(alloc, bytes)?;
    lines_of(alloc, &object)
}
