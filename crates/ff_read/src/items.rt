//! The items of a list, read in order.
ghost use Rattle.std.specs.Prelude.{◌≡◌, ◌<◌, ◌^◌, length, map, Option, None, Some, option_map, MatchResult};
ghost use Rattle.serde_json.specs.Data.{Data};
ghost use Rattle.serde_json.specs.View.{view};
ghost use Rattle.ff_read.specs.Spelling.{list_of, point_in, point_of, ends_in, ends_of, mark_of};
ghost use Rattle.ff_read.specs.Spelling.{whole as whole_number, vertex_of as vertex, all_of as all_spelled};
ghost use Rattle.ff_read.specs.Read.{IsBadItem};

use crate::keys::items_of;
use ff_tables::Items;
use ff_types::{EdgeEnds, Mark};
use ff_whole::Pt;
use serde_json::Value;
use std::alloc::Global;

/// What an item of a list is read as.
pub trait FromJson: Drop {
    /// What a value spells, None where it isn't of the form.
    ghost spelled: { Data → Option Self };

    /// The item that the value spells.
    fn from_json(value: &Value) -> Option<Self>
    where
        Self: Sized,
        ensures { result ≡ spelled (view value.now) };
}

/// Why not all items of a list were read: the first that isn't of its form, or want of memory.
#[derive(Clone, Copy, Debug, PartialEq, Eq)]
pub enum ItemNo {
    Bad { index: u32 },
    NoMemory,
}

fn whole(value: &Value) -> Option<i64>
    ensures { result ≡ whole_number (view value.now) }
{
    value.as_i64()
}

fn point_at(list: &[Value]) -> Option<Pt>
    ensures { result ≡ point_in (map view list.now) }
{
    if list.len() < 2 || 3 < list.len() {
        return None;
    }
    if list.len() == 3 && whole(&list[2])? != 0 {
        return None;
    }
    Some(Pt {
        x: whole(&list[0])?,
        y: whole(&list[1])?,
    })
}

impl FromJson for Pt {
    ghost spelled = { point_of };

    fn from_json(value: &Value) -> Option<Pt> {
        point_at(items_of(value)?)
    }
}

fn vertex_of(value: &Value) -> Option<u32>
    ensures { result ≡ vertex (view value.now) }
{
    let n = value.as_u64()?;
    if n < 1 << 32 { Some(n as u32) } else { None }
}

fn ends_at(list: &[Value]) -> Option<EdgeEnds>
    ensures { result ≡ ends_in (map view list.now) }
{
    if list.len() != 2 {
        return None;
    }
    Some(EdgeEnds {
        a: vertex_of(&list[0])?,
        b: vertex_of(&list[1])?,
    })
}

impl FromJson for EdgeEnds {
    ghost spelled = { ends_of };

    fn from_json(value: &Value) -> Option<EdgeEnds> {
        ends_at(items_of(value)?)
    }
}

impl FromJson for Mark {
    ghost spelled = { mark_of };

    fn from_json(value: &Value) -> Option<Mark> {
        match value.as_str()?.as_bytes() {
            b"B" => Some(Mark::B),
            b"M" => Some(Mark::M),
            b"V" => Some(Mark::V),
            b"F" => Some(Mark::F),
            b"U" => Some(Mark::U),
            _ => None,
        }
    }
}

/// What all items spell, or the first that isn't of its form.
pub fn all_of<T: FromJson>(alloc: Global, list: &[Value]) -> Result<Items<T>, ItemNo>
    requires few { length list.now < 2 ^ 32 }
    ensures { MatchResult result (λ items. all_spelled T.spelled (map view list.now) ≡ Some items) (IsBadItem T.spelled (map view list.now)) }
{
    let mut items = Vec::new(alloc);
    for i in 0..list.len() {
        match T::from_json(&list[i]) {
            Some(item) => {
                let Ok(()) = items.push(item) else {
                    return Err(ItemNo::NoMemory);
                };
            }
            None => return Err(ItemNo::Bad { index: i as u32 }),
        }
    }
    Ok(Items::of(items))
}
