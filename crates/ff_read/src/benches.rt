//! The input of `bench`: a crease pattern, and a script of commands for each viewer.
ghost use Rattle.std.specs.Prelude.{◌≡◌, ◌<◌, ◌^◌, IfOk, MatchResult, Some, length, map, is_some, option_map};
ghost use Rattle.std.specs.List.{list_all};
ghost use Rattle.serde_json.specs.Find.{as_str as text_of};
ghost use Rattle.serde_json.specs.View.{view};
ghost use Rattle.ff_read.specs.Spelling.{all_of};
ghost use Rattle.ff_read.specs.Read.{IsBadItem};
ghost use Rattle.ff_read.specs.Scripts.{AreFewScripts, AreFewScriptsNot, AreScripts, AreScriptsNot, AreShort, script_no, seen_in, seen_lists};
ghost use Rattle.ff_read.specs.Benches.{AreFew, HasFewScripts, HaveFew, IsBench, IsBenchOf, IsNoBench, IsNoBenchOf, command_in, commands_in, script_in, scripts_in, total, viewers_in};

use crate::checks::fold_at;
use crate::items::ItemNo;
use crate::keys::{bad, fold_keys, items_of};
use crate::objects::read_object;
use crate::patterns::fold_items;
use ff_tables::{Items, NoMemory};
use ff_types::{Key, No, Pattern, Refusal, What};
use ff_viewer::{Command, read_command};
use serde_json::Value;
use std::alloc::Global;

/// The most viewers of an input of `bench`. The limit is this project's own.
pub const MOST_VIEWERS: usize = 64;

/// The most commands that all viewers of an input of `bench` have together. The limit is this project's own.
pub const MOST_COMMANDS: usize = 1024;

/// What `bench` reads: a crease pattern, and the commands of each viewer.
#[derive(Drop)]
pub struct BenchInput {
    pub pattern: Pattern,
    pub scripts: Items<Items<Command>>,
}

fn is_text(value: &Value) -> bool
    ensures { result ≡ is_some (text_of (view value.now)) }
{
    value.as_str().is_some()
}

fn are_texts(list: &[Value]) -> bool
    ensures { result ≡ list_all (λ value. is_some (text_of (view value))) list.now }
{
    list.iter().all(|value| is_text(value))
}

// The items of an array of strings.
#[tactic(auto, using(crate::proofs::ScriptLists::texts_seen))]
fn script_at(value: &Value) -> Option<&[Value]>
    ensures { option_map (λ l. map view l.now) result ≡ script_in (view value.now) }
{
    let list = items_of(value)?;
    if are_texts(list) { Some(list) } else { None }
}

// The items of each array.
fn scripts_at(alloc: Global, list: &[Value]) -> Result<Option<Vec<&[Value]>>, NoMemory>
    ensures { IfOk result (λ scripts. option_map seen_in scripts ≡ all_of script_in (map view list.now)) }
{
    let mut scripts = Vec::new(alloc);
    for i in 0..list.len() {
        match script_at(&list[i]) {
            Some(script) => scripts.push(script)?,
            None => return Ok(None),
        }
    }
    Ok(Some(scripts))
}

fn some_scripts_at(alloc: Global, list: &[Value]) -> Result<Option<Vec<&[Value]>>, NoMemory>
    ensures { IfOk result (λ scripts. option_map seen_in scripts ≡ scripts_in (map view list.now)) }
{
    if list.is_empty() {
        return Ok(None);
    }
    scripts_at(alloc, list)
}

// The items of the viewers' arrays.
fn viewers_at(alloc: Global, object: &Value) -> Result<Option<Vec<&[Value]>>, NoMemory>
    ensures { IfOk result (λ viewers. option_map seen_in viewers ≡ viewers_in (view object.now)) }
{
    let Some(value) = object.get("viewers") else {
        return Ok(None);
    };
    match items_of(value) {
        Some(list) => some_scripts_at(alloc, list),
        None => Ok(None),
    }
}

// The command of a string.
fn command_at(alloc: Global, value: &Value) -> Result<Option<Command>, NoMemory>
    ensures { IfOk result (λ command. command ≡ command_in (view value.now)) }
{
    match value.as_str() {
        Some(text) => read_command(alloc, text.as_bytes()),
        None => Ok(None),
    }
}

// The commands of a script, or the first item that spells none.
fn commands_of(alloc: Global, list: &[Value]) -> Result<Items<Command>, ItemNo>
    requires { length list.now < 2 ^ 32 }
    ensures { MatchResult result (λ commands. commands_in (map view list.now) ≡ Some commands) (IsBadItem command_in (map view list.now)) }
{
    let mut commands = Vec::new(alloc);
    for i in 0..list.len() {
        let Ok(read) = command_at(alloc, &list[i]) else {
            return Err(ItemNo::NoMemory);
        };
        match read {
            Some(command) => {
                let Ok(()) = commands.push(command) else {
                    return Err(ItemNo::NoMemory);
                };
            }
            None => return Err(ItemNo::Bad { index: i as u32 }),
        }
    }
    Ok(Items::of(commands))
}

// How many items the scripts have.
fn count_of(viewers: &[&[Value]]) -> usize
    requires short { AreShort (seen_lists viewers.now) }
    ensures { result ≡ total (seen_lists viewers.now) }
{
    let mut count = 0;
    for v in 0..viewers.len() {
        count += viewers[v].len();
    }
    count
}

// Why a viewer's commands weren't read.
fn bad_script(viewer: u32, no: ItemNo) -> No
    ensures { result ≡ script_no viewer no }
{
    match no {
        ItemNo::Bad { index } => No::Refused(Refusal::BadScript {
            viewer,
            line: index,
        }),
        ItemNo::NoMemory => No::NoMemory,
    }
}

// The commands of each script, or the first item that spells none.
fn all_commands(alloc: Global, viewers: &[&[Value]]) -> Result<Items<Items<Command>>, No>
    requires short { AreShort (seen_lists viewers.now) }
    ensures { MatchResult result (AreScripts (seen_lists viewers.now)) (AreScriptsNot (seen_lists viewers.now)) }
{
    let mut scripts = Vec::new(alloc);
    for v in 0..viewers.len() {
        match commands_of(alloc, viewers[v]) {
            Ok(commands) => {
                let Ok(()) = scripts.push(commands) else {
                    return Err(No::NoMemory);
                };
            }
            Err(no) => return Err(bad_script(v as u32, no)),
        }
    }
    Ok(Items::of(scripts))
}

fn too_many(what: What, limit: usize) -> No
    ensures { result ≡ No.Refused (Refusal.TooMany what limit) }
{
    No::Refused(Refusal::TooMany {
        what,
        limit: limit as u64,
    })
}

// The commands of each script, refused where there are too many viewers or commands, and then at the first item that spells none.
fn scripts_of(alloc: Global, viewers: &[&[Value]]) -> Result<Items<Items<Command>>, No>
    requires few { HaveFew (seen_lists viewers.now) }
    ensures { MatchResult result (AreFewScripts (seen_lists viewers.now)) (AreFewScriptsNot (seen_lists viewers.now)) }
{
    if MOST_VIEWERS < viewers.len() {
        return Err(too_many(What::Viewers, MOST_VIEWERS));
    }
    if MOST_COMMANDS < count_of(viewers) {
        return Err(too_many(What::Commands, MOST_COMMANDS));
    }
    all_commands(alloc, viewers)
}

// The input that the object spells, refused at the first member that is absent or not of its form, and then as its crease
// pattern and its scripts are.
fn bench_of(alloc: Global, object: &Value) -> Result<BenchInput, No>
    requires few { HasFewScripts (view object.now) }
    ensures { MatchResult result (IsBenchOf (view object.now)) (IsNoBenchOf (view object.now)) }
{
    let Some(fold) = fold_at(object) else {
        return Err(bad(Key::Fold));
    };
    fold_keys(fold)?;
    let Some(viewers) = viewers_at(alloc, object)? else {
        return Err(bad(Key::Viewers));
    };
    let pattern = fold_items(alloc, fold)?;
    let scripts = scripts_of(alloc, viewers.as_slice())?;
    Ok(BenchInput { pattern, scripts })
}

/// The input of `bench` that bytes spell, `{"fold": {..}, "viewers": [[..], ..]}`: refused where they are no JSON object, at the
/// first key that is absent or not of its form, as `fold_items` refuses `fold`, where there are more than `MOST_VIEWERS` viewers or
/// `MOST_COMMANDS` commands, and at the first text that spells no command. `viewers` is an array of at least one array of strings.
pub fn read_bench(alloc: Global, bytes: &[u8]) -> Result<BenchInput, No>
    requires few { length bytes.now < 2 ^ 32 }
    ensures read { MatchResult result (IsBench bytes.now) (IsNoBench bytes.now) }
    ensures few { IfOk result (λ input. AreFew input.scripts) }
{
    let object = read_object(alloc, bytes)?;
    bench_of(alloc, &object)
}
