//! The input of `check`: a crease pattern, pins, and the lines of a log.
ghost use Rattle.std.specs.Prelude.{◌≡◌, ◌==◌, ◌<◌, ◌^◌, IfOk, MatchResult, List, length, map, codes, option_map};
ghost use Rattle.std.specs.List.{list_any};
ghost use Rattle.serde_json.specs.Data.{Data};
ghost use Rattle.serde_json.specs.View.{view};
ghost use Rattle.ff_read.specs.Spelling.{all_of as all_spelled};
ghost use Rattle.ff_read.specs.Checks.{ArePins, HasFewMembers, IsCheck, IsCheckOf, IsNoCheck, IsNoCheckOf, LiesUnder, face_of, fold_in, line_of, lines_in, order_of, pin_in, pin_of, pins_in};

use crate::items::{FromJson, ItemNo, all_of};
use crate::keys::{bad, fold_keys, items_of};
use crate::objects::read_object;
use crate::patterns::fold_items;
use ff_tables::{Items, NoMemory, Order, Text};
use ff_types::{Key, MOST_FACES, No, Pattern, Pin, Refusal, What};
use ff_viewer::read_order;
use serde_json::Value;
use std::alloc::Global;

/// The most pins of an input of `check`. The limit is this project's own.
pub const MOST_PINS: usize = 1024;

/// What `check` reads: a crease pattern, pins, and the lines of a log, which are any texts without a line feed.
#[derive(Drop)]
pub struct CheckInput {
    pub pattern: Pattern,
    pub pins: Items<Pin>,
    pub lines: Items<Text>,
}

// The number of a face, whether or not there is such a face.
fn face_in(value: &Value) -> Option<u32>
    ensures { result ≡ face_of (view value.now) }
{
    let n = value.as_u64()?;
    if n < MOST_FACES as u64 {
        Some(n as u32)
    } else {
        None
    }
}

fn order_in(value: &Value) -> Option<Order>
    ensures { result ≡ order_of (view value.now) }
{
    read_order(value.as_str()?)
}

fn pin_at(list: &[Value]) -> Option<Pin>
    ensures { result ≡ pin_in (map view list.now) }
{
    if list.len() != 3 {
        return None;
    }
    let f = face_in(&list[0])?;
    let g = face_in(&list[1])?;
    if f == g {
        return None;
    }
    Some(Pin {
        f,
        g,
        value: order_in(&list[2])?,
    })
}

impl FromJson for Pin {
    ghost spelled = { pin_of };

    fn from_json(value: &Value) -> Option<Pin> {
        pin_at(items_of(value)?)
    }
}

/// The object under `fold`.
pub(crate) fn fold_at(object: &Value) -> Option<&Value>
    ensures { option_map (λ v. view v.now) result ≡ fold_in (view object.now) }
{
    let fold = object.get("fold")?;
    if fold.is_object() { Some(fold) } else { None }
}

// The pins of a list, None where an item is none.
#[tactic(auto, using(crate::proofs::Members::bad_none))]
fn pins_of(alloc: Global, list: &[Value]) -> Result<Option<Items<Pin>>, NoMemory>
    requires { length list.now < 2 ^ 32 }
    ensures { IfOk result (λ pins. pins ≡ all_spelled pin_of (map view list.now)) }
{
    match all_of(alloc, list) {
        Ok(pins) => Ok(Some(pins)),
        Err(ItemNo::Bad { .. }) => Ok(None),
        Err(ItemNo::NoMemory) => Err(NoMemory),
    }
}

// The pins of the object, none where the key is absent.
fn pins_at(alloc: Global, object: &Value) -> Result<Option<Items<Pin>>, NoMemory>
    requires { (ds : List Data) → LiesUnder (codes "pins") (view object.now) ds → length ds < 2 ^ 32 }
    ensures { IfOk result (λ pins. pins ≡ pins_in (view object.now)) }
{
    let Some(value) = object.get("pins") else {
        return Ok(Some(Items::of(Vec::new(alloc))));
    };
    match items_of(value) {
        Some(list) => pins_of(alloc, list),
        None => Ok(None),
    }
}

fn has_line_feed(text: &str) -> bool
    ensures { result ≡ list_any (λ b. b == 10) text.now }
{
    text.as_bytes().iter().any(|b| *b == b'\n')
}

// The text of a line.
fn line_in(value: &Value) -> Option<&str>
    ensures { option_map (λ t. t.now) result ≡ line_of (view value.now) }
{
    let text = value.as_str()?;
    if has_line_feed(text) {
        None
    } else {
        Some(text)
    }
}

// The texts of a list, None where an item is none.
fn texts_of(alloc: Global, list: &[Value]) -> Result<Option<Items<Text>>, NoMemory>
    ensures { IfOk result (λ texts. texts ≡ all_spelled line_of (map view list.now)) }
{
    let mut texts = Vec::new(alloc);
    for i in 0..list.len() {
        match line_in(&list[i]) {
            Some(text) => texts.push(Text::of(String::from_str(alloc, text)?))?,
            None => return Ok(None),
        }
    }
    Ok(Some(Items::of(texts)))
}

// The lines of the object's log.
fn lines_at(alloc: Global, object: &Value) -> Result<Option<Items<Text>>, NoMemory>
    ensures { IfOk result (λ lines. lines ≡ lines_in (view object.now)) }
{
    let Some(value) = object.get("log") else {
        return Ok(None);
    };
    match items_of(value) {
        Some(list) => texts_of(alloc, list),
        None => Ok(None),
    }
}

// The input that the object spells, refused at the first member that is absent or not of its form, and then as its crease
// pattern is, or where there are too many pins.
fn check_of(alloc: Global, object: &Value) -> Result<CheckInput, No>
    requires few { HasFewMembers (view object.now) }
    ensures { MatchResult result (IsCheckOf (view object.now)) (IsNoCheckOf (view object.now)) }
{
    let Some(fold) = fold_at(object) else {
        return Err(bad(Key::Fold));
    };
    fold_keys(fold)?;
    let Some(pins) = pins_at(alloc, object)? else {
        return Err(bad(Key::Pins));
    };
    let Some(lines) = lines_at(alloc, object)? else {
        return Err(bad(Key::Log));
    };
    let pattern = fold_items(alloc, fold)?;
    if MOST_PINS < pins.as_slice().len() {
        return Err(No::Refused(Refusal::TooMany {
            what: What::Pins,
            limit: MOST_PINS as u64,
        }));
    }
    Ok(CheckInput {
        pattern,
        pins,
        lines,
    })
}

/// The input of `check` that bytes spell, `{"fold": {..}, "pins": [..], "log": [..]}`: refused where they are no JSON object, at the
/// first key that is absent or not of its form, and then as `fold_items` refuses `fold`, or where there are too many pins. `pins` may
/// be absent; a pin is `[f, g, "above"]` or `[f, g, "below"]` with two different numbers below `MOST_FACES`.
pub fn read_check(alloc: Global, bytes: &[u8]) -> Result<CheckInput, No>
    requires few { length bytes.now < 2 ^ 32 }
    ensures read { MatchResult result (IsCheck bytes.now) (IsNoCheck bytes.now) }
    ensures lines { IfOk result (λ input. length input.lines < 2 ^ 32) }
    ensures pins { IfOk result (λ input. ArePins input.pins) }
{
    let object = read_object(alloc, bytes)?;
    check_of(alloc, &object)
}
