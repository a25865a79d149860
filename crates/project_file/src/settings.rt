//! The keys at the top of a project file.
ghost use Rattle.std.specs.Prelude.{◌≡◌, ◌≤◌, IfOk, IfSome, option_map};
ghost use Rattle.toml.specs.View.{items_view, table_view, view};
ghost use Rattle.toml.specs.Data.{get_member};
ghost use Rattle.project_file.specs.Projects.{bands_in, black_at, black_in, code_at, cube_in, edl_in, height_in, rate_in};
ghost use Rattle.project_file.specs.Projects.{rate_of, rgb_of, title_in, width_in};
ghost use Rattle.project_file.specs.Keys.{all_items, is_whole, needed, text_at, whole_at};
ghost use Rattle.cf_base.specs.Text.{path_text_of};

use crate::fault::{Place, ProjectFault, ProjectKind};
use crate::keys::{member, number_between, whole_at};
use cf_base::{LARGEST, PathText, Rate, Rgb, TitleText};
use toml::{Table, Value};

/// Key 1.
pub(crate) fn title_in(table: &Table) -> Result<TitleText, ProjectFault>
    ensures title { result ≡ title_in (table_view table.now) }
{
    let place = Place::top(1);
    let Some(value) = member(table, "title") else {
        return Ok(TitleText::empty());
    };
    let Some(text) = value.as_str() else {
        return Err(place.fault(ProjectKind::WrongType));
    };
    TitleText::of(text.as_bytes()).ok_or(place.fault(ProjectKind::OutOfRange))
}

/// Key 2.
pub(crate) fn rate_in(table: &Table) -> Result<Rate, ProjectFault>
    ensures rate { result ≡ rate_in (table_view table.now) }
{
    let place = Place::top(2);
    let Some(value) = member(table, "rate") else {
        return Err(place.fault(ProjectKind::MissingKey));
    };
    let Some(number) = value.as_integer() else {
        return Err(place.fault(ProjectKind::WrongType));
    };
    rate_of(number).ok_or(place.fault(ProjectKind::OutOfRange))
}

fn rate_of(number: i64) -> Option<Rate>
    ensures { result ≡ rate_of number }
{
    if number == 24 {
        Some(Rate::R24)
    } else if number == 25 {
        Some(Rate::R25)
    } else if number == 30 {
        Some(Rate::R30)
    } else {
        None
    }
}

/// A whole number from `low` to `high` that has to be there.
fn needed_whole(
    place: Place,
    low: u32,
    high: u32,
    table: &Table,
    key: &str,
) -> Result<u32, ProjectFault>
    ensures whole { result ≡ needed place (whole_at place low high) (get_member key.now (table_view table.now)) }
    ensures range { IfOk result (λ n. (low ≤ n) × (n ≤ high)) }
{
    let Some(value) = member(table, key) else {
        return Err(place.fault(ProjectKind::MissingKey));
    };
    whole_at(place, low, high, value)
}

/// Key 3.
pub(crate) fn width_in(table: &Table) -> Result<u32, ProjectFault>
    ensures width { result ≡ width_in (table_view table.now) }
    ensures range { IfOk result (λ n. (1 ≤ n) × (n ≤ LARGEST)) }
{
    needed_whole(Place::top(3), 1, LARGEST, table, "width")
}

/// Key 4.
pub(crate) fn height_in(table: &Table) -> Result<u32, ProjectFault>
    ensures height { result ≡ height_in (table_view table.now) }
    ensures range { IfOk result (λ n. (1 ≤ n) × (n ≤ LARGEST)) }
{
    needed_whole(Place::top(4), 1, LARGEST, table, "height")
}

/// Key 5.
pub(crate) fn black_in(table: &Table) -> Result<Rgb, ProjectFault>
    ensures black { result ≡ black_in (table_view table.now) }
{
    let Some(value) = member(table, "black") else {
        return Ok(Rgb {
            r: 95,
            g: 95,
            b: 95,
        });
    };
    black_at(value)
}

fn black_at(value: &Value) -> Result<Rgb, ProjectFault>
    ensures black { result ≡ black_at (view value.now) }
{
    let place = Place::top(5);
    let Some(items) = value.as_array() else {
        return Err(place.fault(ProjectKind::WrongType));
    };
    if !all_whole(items) {
        return Err(place.fault(ProjectKind::WrongType));
    }
    rgb_of(items).ok_or(place.fault(ProjectKind::OutOfRange))
}

fn all_whole(items: &[Value]) -> bool
    ensures whole { result ≡ all_items is_whole (items_view items.now) }
{
    'items: for item in items {
        if !item.is_integer() {
            return false;
        }
    }
    true
}

fn rgb_of(items: &[Value]) -> Option<Rgb>
    ensures color { result ≡ rgb_of (items_view items.now) }
{
    if items.len() != 3 {
        return None;
    }
    let Some(r) = code_at(&items[0]) else {
        return None;
    };
    let Some(g) = code_at(&items[1]) else {
        return None;
    };
    let Some(b) = code_at(&items[2]) else {
        return None;
    };
    Some(Rgb { r, g, b })
}

/// The code that a value is.
#[tactic(auto, using(crate::proofs::RgbLaws::code_is))]
fn code_at(value: &Value) -> Option<u16>
    ensures code { option_map (λ code. code.0) (code_at (view value.now)) ≡ result }
    ensures range { IfSome result (λ n. n ≤ 1023) }
{
    let Some(number) = value.as_integer() else {
        return None;
    };
    let Some(code) = number_between(0, 1023, number) else {
        return None;
    };
    Some(code as u16)
}

/// Key 6.
pub(crate) fn bands_in(table: &Table) -> Result<u32, ProjectFault>
    ensures bands { result ≡ bands_in (table_view table.now) }
    ensures range { IfOk result (λ n. (1 ≤ n) × (n ≤ 64)) }
{
    let Some(value) = member(table, "bands") else {
        return Ok(4);
    };
    whole_at(Place::top(6), 1, 64, value)
}

/// A text that is a path.
pub(crate) fn path_at(place: Place, value: &Value) -> Result<PathText, ProjectFault>
    ensures path { result ≡ text_at place path_text_of (view value.now) }
{
    let Some(text) = value.as_str() else {
        return Err(place.fault(ProjectKind::WrongType));
    };
    PathText::of(text.as_bytes()).ok_or(place.fault(ProjectKind::OutOfRange))
}

/// Key 7.
pub(crate) fn edl_in(table: &Table) -> Result<PathText, ProjectFault>
    ensures edl { result ≡ edl_in (table_view table.now) }
{
    let place = Place::top(7);
    let Some(value) = member(table, "edl") else {
        return Err(place.fault(ProjectKind::MissingKey));
    };
    path_at(place, value)
}

/// Key 8.
pub(crate) fn cube_in(table: &Table) -> Result<Option<PathText>, ProjectFault>
    ensures cube { result ≡ cube_in (table_view table.now) }
{
    let Some(value) = member(table, "cube") else {
        return Ok(None);
    };
    path_at(Place::top(8), value).map(Some)
}
