//! One key: that it is there, that its value has the type, that it is in range.
ghost use Rattle.std.specs.Prelude.{◌≡◌, ◌≤◌, option_map, IfOk, IfSome};
ghost use Rattle.toml.specs.Data.{get_member};
ghost use Rattle.toml.specs.View.{table_view, view};
ghost use Rattle.project_file.specs.Keys.{fault, flag_at, number_between, whole_at};

use crate::fault::{Place, ProjectFault, ProjectKind};
use toml::{Table, Value};

/// The value of a key, if the table has it.
pub(crate) fn member<'a>(table: &'a Table, key: &str) -> Option<&'a Value>
    ensures found { option_map (λ v. view v.now) result ≡ get_member key.now (table_view table.now) }
{
    table.get(key)
}

/// Whether a value is true.
pub(crate) fn flag_at(place: Place, value: &Value) -> Result<bool, ProjectFault>
    ensures flag { result ≡ flag_at place (view value.now) }
{
    match value.as_bool() {
        Some(flag) => Ok(flag),
        None => Err(place.fault(ProjectKind::WrongType)),
    }
}

/// A whole number from `low` to `high`.
pub(crate) fn whole_at(
    place: Place,
    low: u32,
    high: u32,
    value: &Value,
) -> Result<u32, ProjectFault>
    ensures whole { result ≡ whole_at place low high (view value.now) }
    ensures range { IfOk result (λ n. (low ≤ n) × (n ≤ high)) }
{
    let Some(number) = value.as_integer() else {
        return Err(place.fault(ProjectKind::WrongType));
    };
    let Some(number) = number_between(low, high, number) else {
        return Err(place.fault(ProjectKind::OutOfRange));
    };
    Ok(number)
}

/// The number, if it is one of these.
pub(crate) fn number_between(low: u32, high: u32, number: i64) -> Option<u32>
    ensures number { result ≡ number_between low high number }
    ensures range { IfSome result (λ n. (low ≤ n) × (n ≤ high)) }
{
    let Ok(number) = u32::try_from(number) else {
        return None;
    };
    if low <= number && number <= high {
        Some(number)
    } else {
        None
    }
}
