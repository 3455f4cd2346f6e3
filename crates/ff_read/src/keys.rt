//! The three keys of a FOLD object.
ghost use Rattle.std.specs.Prelude.{◌≡◌, ℕ, length, map, None, Some, option_map, MatchResult};
ghost use Rattle.serde_json.specs.View.{view};
ghost use Rattle.ff_types.specs.declared.refusals.Refusal.{Refusal as why};
ghost use Rattle.ff_read.specs.Spelling.{Keys, IsKeyed, list_of, vertices_in, edges_in, marks_in};
ghost use Rattle.ff_read.specs.Lists.{keys_of};
ghost use Rattle.ff_read.specs.Refused.{IsNoKey};

use ff_types::{Key, No, Refusal};
use serde_json::Value;

/// The lists under the three keys. `marks` is None where there is no assignment.
#[derive(Clone, Copy)]
pub struct Lists<'a> {
    pub vertices: &'a [Value],
    pub edges: &'a [Value],
    pub marks: Option<&'a [Value]>,
}

/// Refused by a key.
pub(crate) fn bad(key: Key) -> No
    ensures { result ≡ No.Refused (Refusal.BadKey key) }
{
    No::Refused(Refusal::BadKey { key })
}

/// The items of an array.
pub fn items_of(value: &Value) -> Option<&[Value]>
    ensures { option_map (λ l. map view l.now) result ≡ list_of (view value.now) }
{
    let list = value.as_array()?;
    Some(list.as_slice())
}

fn vertices_at(object: &Value) -> Option<&[Value]>
    ensures { option_map (λ l. map view l.now) result ≡ vertices_in (view object.now) }
{
    let list = items_of(object.get("vertices_coords")?)?;
    if list.len() < 3 { None } else { Some(list) }
}

fn edges_at(object: &Value) -> Option<&[Value]>
    ensures { option_map (λ l. map view l.now) result ≡ edges_in (view object.now) }
{
    items_of(object.get("edges_vertices")?)
}

// None where there is an assignment that isn't an array of `n` items.
fn marks_at(object: &Value, n: usize) -> Option<Option<&[Value]>>
    ensures { option_map (λ marks. option_map (λ l. map view l.now) marks) result ≡ marks_in n (view object.now) }
{
    match object.get("edges_assignment") {
        None => Some(None),
        Some(value) => {
            let list = items_of(value)?;
            if list.len() == n {
                Some(Some(list))
            } else {
                None
            }
        }
    }
}

/// The lists under the three keys, refused at the first key that is absent or not of its form.
pub fn lists_of(object: &Value) -> Result<Lists<'_>, No>
    ensures { MatchResult result (λ lists. IsKeyed (view object.now) (keys_of lists)) (IsNoKey (view object.now)) }
{
    let vertices = match vertices_at(object) {
        Some(list) => list,
        None => return Err(bad(Key::VerticesCoords)),
    };
    let edges = match edges_at(object) {
        Some(list) => list,
        None => return Err(bad(Key::EdgesVertices)),
    };
    match marks_at(object, edges.len()) {
        Some(marks) => Ok(Lists {
            vertices,
            edges,
            marks,
        }),
        None => Err(bad(Key::EdgesAssignment)),
    }
}

/// Whether the object has the keys of FOLD: refused at the first of `vertices_coords`, `edges_vertices` and
/// `edges_assignment` that is absent or not of its form. Memory isn't taken.
pub fn fold_keys(object: &Value) -> Result<(), No>
    ensures { MatchResult result (λ _. (keys : Keys) × IsKeyed (view object.now) keys) (IsNoKey (view object.now)) }
{
    lists_of(object)?;
    Ok(())
}
