//! The cuts of a project file, which part its record into reels.
ghost use Rattle.std.specs.Prelude.{◌≡◌, ◌≤◌, IfOk, length};
ghost use Rattle.toml.specs.View.{items_view, table_view, view};
ghost use Rattle.project_file.specs.Keys.{all_items, is_text};
ghost use Rattle.project_file.specs.inside.Keys.{seen_as, GivesSeen};
ghost use Rattle.project_file.specs.Projects.{cut_texts_at, cuts_at, cuts_in, paths_of};

use crate::fault::{Place, ProjectFault, ProjectKind};
use crate::keys::member;
use crate::settings::path_at;
use cf_base::{Fail, Items, PathText};
use std::alloc::Global;
use toml::{Table, Value};

/// The cuts of a project, in its order: each is the text of the record label with which a further reel begins.
pub type CutRows = Items<PathText>;

/// Key 16: the cuts, none where there is no list.
pub(crate) fn cuts_in(alloc: Global, table: &Table) -> Result<Vec<PathText>, Fail<ProjectFault>>
    ensures cuts { GivesSeen (λ cuts. cuts.items) result (cuts_in (table_view table.now)) }
    ensures few { IfOk result (λ cuts. length cuts.items ≤ 998) }
{
    let Some(value) = member(table, "cuts") else {
        return Ok(Vec::new(alloc));
    };
    cuts_at(alloc, value)
}

fn cuts_at(alloc: Global, value: &Value) -> Result<Vec<PathText>, Fail<ProjectFault>>
    ensures cuts { GivesSeen (λ cuts. cuts.items) result (cuts_at (view value.now)) }
    ensures few { IfOk result (λ cuts. length cuts.items ≤ 998) }
{
    match cut_texts_at(value) {
        Ok(texts) => paths_of(alloc, texts),
        Err(fault) => Err(Fail::Fault(fault)),
    }
}

/// The members of the list of cuts.
#[tactic(auto, using(crate::proofs::Projects::count_view))]
fn cut_texts_at(value: &Value) -> Result<&[Value], ProjectFault>
    ensures texts { seen_as (λ values. items_view values.now) result ≡ cut_texts_at (view value.now) }
    ensures few { IfOk result (λ values. length values.now ≤ 998) }
{
    let place = Place::top(16);
    let Some(items) = value.as_array() else {
        return Err(place.fault(ProjectKind::WrongType));
    };
    if !all_texts(items) {
        return Err(place.fault(ProjectKind::WrongType));
    }
    if items.len() <= 998 {
        Ok(items.as_slice())
    } else {
        Err(place.fault(ProjectKind::OutOfRange))
    }
}

fn all_texts(items: &[Value]) -> bool
    ensures texts { result ≡ all_items is_text (items_view items.now) }
{
    'items: for item in items {
        if !item.is_str() {
            return false;
        }
    }
    true
}

/// The paths that the texts are.
fn paths_of(alloc: Global, values: &[Value]) -> Result<Vec<PathText>, Fail<ProjectFault>>
    ensures paths { GivesSeen (λ paths. paths.items) result (paths_of (items_view values.now)) }
    ensures count { IfOk result (λ paths. length paths.items ≡ length values.now) }
{
    let mut paths = Vec::new(alloc);
    'values: for value in values {
        let path = match path_at(Place::top(16), value) {
            Ok(path) => path,
            Err(fault) => return Err(Fail::Fault(fault)),
        };
        let Ok(()) = paths.push(path) else {
            return Err(Fail::NoMemory);
        };
    }
    Ok(paths)
}
