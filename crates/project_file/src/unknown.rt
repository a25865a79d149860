//! Keys that a project file doesn't know.
ghost use Rattle.std.specs.Prelude.{◌≡◌, ◌≤◌, length, map};
ghost use Rattle.toml.specs.View.{items_view, table_view, view};
ghost use Rattle.project_file.specs.Keys.{all_keys};
ghost use Rattle.project_file.specs.Projects.{is_among, knows, knows_reel, knows_reels, knows_top, reel_keys};

use crate::fault::{Place, ProjectFault, ProjectKind};
use toml::{Table, Value};

/// That no key at the top is unknown.
pub(crate) fn knows_top(table: &Table) -> Result<(), ProjectFault>
    ensures known { result ≡ knows_top (table_view table.now) }
{
    let names = [
        "title", "rate", "width", "height", "black", "bands", "edl", "cube", "reel", "cuts",
    ];
    if keys_are_among(names.as_slice(), table) {
        Ok(())
    } else {
        Err(Place::top(0).fault(ProjectKind::UnknownKey))
    }
}

/// That no key of a reel is unknown.
pub(crate) fn knows_reels(values: &[Value]) -> Result<(), ProjectFault>
    requires few { length values.now ≤ 1024 }
    ensures known { result ≡ knows_reels 1 (items_view values.now) }
{
    let mut number: u32 = 1;
    'values: for value in values {
        match knows_reel(number, value) {
            Ok(()) => {}
            Err(fault) => return Err(fault),
        }
        number += 1;
    }
    Ok(())
}

fn knows_reel(reel: u32, value: &Value) -> Result<(), ProjectFault>
    ensures known { result ≡ knows_reel reel (view value.now) }
{
    let Some(table) = value.as_table() else {
        return Ok(());
    };
    knows_keys_of_reel(reel, table)
}

fn knows_keys_of_reel(reel: u32, table: &Table) -> Result<(), ProjectFault>
    ensures known { result ≡ knows reel_keys reel (table_view table.now) }
{
    let names = ["name", "prefix", "start", "drop", "frames", "file"];
    if keys_are_among(names.as_slice(), table) {
        Ok(())
    } else {
        let place = Place { key: 0, reel };
        Err(place.fault(ProjectKind::UnknownKey))
    }
}

fn keys_are_among(names: &[&str], table: &Table) -> bool
    ensures known { result ≡ all_keys (is_among (map (λ n. n.now) names.now)) (table_view table.now) }
{
    'members: for (key, _value) in table.iter() {
        if !is_among(names, key.as_str()) {
            return false;
        }
    }
    true
}

fn is_among(names: &[&str], key: &str) -> bool
    ensures among { result ≡ is_among (map (λ n. n.now) names.now) key.now }
{
    'names: for name in names {
        if *name == key {
            return true;
        }
    }
    false
}
