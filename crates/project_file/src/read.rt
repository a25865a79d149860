//! A project file, from its bytes.
ghost use Rattle.std.specs.Prelude.{IfOk, IfErr, length};
ghost use Rattle.toml.specs.View.{table_view};
ghost use Rattle.cf_base.specs.Fail.{Gives};
ghost use Rattle.project_file.specs.Keys.{fault};
ghost use Rattle.project_file.specs.Projects.{Answers, IsInRange, IsRead, project_of};
ghost use Rattle.project_file.specs.inside.Projects.{IsTextFault};

use crate::Project;
use crate::cuts::{CutRows, cuts_in};
use crate::fault::{Place, ProjectFault, ProjectKind};
use crate::reels::{read_reels, reels_in};
use crate::settings::{
    bands_in, black_in, cube_in, edl_in, height_in, rate_in, title_in, width_in,
};
use crate::unknown::{knows_reels, knows_top};
use cf_base::{Fail, PROJECT_BYTES, ReelRows};
use std::alloc::Global;
use toml::Table;

/// The project of a text, or its first fault.
///
/// A text over 1,048,576 bytes, or one that `toml` doesn't read as a table, is 14.1. Then the keys at the top are checked in
/// the order of their numbers, then the reels in order, each in the order of its keys but for `drop` before `start`, and
/// last that no key is unknown (14.5): first at the top, then in the reels in order. A key that has to be there and isn't is
/// 14.2, another type is 14.3, a value out of range is 14.4. In a list the type of all members comes first, then its length.
///
/// | No. | Key | Type | Range | If missing |
/// |---|---|---|---|---|
/// | 1 | `title` | text | a TitleText | empty |
/// | 2 | `rate` | whole number | 24, 25, 30 | 14.2 |
/// | 3, 4 | `width`, `height` | whole number | 1 to 4096 | 14.2 |
/// | 5 | `black` | list of three whole numbers | 0 to 1023 each | 95, 95, 95 |
/// | 6 | `bands` | whole number | 1 to 64 | 4 |
/// | 7 | `edl` | text | a PathText | 14.2 |
/// | 8 | `cube` | text | a PathText | no look |
/// | 9 | `reel` | list of tables | at most 1024 | no reels |
/// | 10 | `name` | text | a Name other than `BL` | 14.2 |
/// | 11 | `prefix` | text | a PathText of at most 200 bytes | 14.2 |
/// | 12 | `start` | text | a label of SMPTE ST 12-1 in the mode of key 13 | 14.2 |
/// | 13 | `drop` | true or false | true at rate 30 alone | false |
/// | 14 | `frames` | whole number | 1 to 2,592,000 | 14.2 |
/// | 15 | `file` | whole number | 0 to 9,999,999 | the number of `start` |
/// | 16 | `cuts` | list of texts | at most 998, a PathText each | no cuts |
pub fn read_project(alloc: Global, text: &[u8]) -> Result<Project, Fail<ProjectFault>>
    ensures project { Answers text.now result }
    ensures range { IfOk result IsInRange }
{
    let table = read_table(alloc, text)?;
    project_in(alloc, &table)
}

/// The table that the text is.
fn read_table(alloc: Global, text: &[u8]) -> Result<Table, Fail<ProjectFault>>
    ensures read { IfOk result (λ table. IsRead text.now (table_view table)) }
    ensures unread { IfErr result (λ fail. IsTextFault text.now fail) }
{
    if text.len() > PROJECT_BYTES {
        return Err(Fail::Fault(Place::top(0).fault(ProjectKind::Text)));
    }
    match toml::table_from_slice(alloc, text) {
        Ok(table) => Ok(table),
        Err(error) => {
            if error.is_memory() {
                Err(Fail::NoMemory)
            } else {
                Err(Fail::Fault(Place::top(0).fault(ProjectKind::Text)))
            }
        }
    }
}

/// The project of the table, or its first fault.
fn project_in(alloc: Global, table: &Table) -> Result<Project, Fail<ProjectFault>>
    ensures project { Gives result (project_of (table_view table.now)) }
    ensures range { IfOk result IsInRange }
{
    let title = title_in(table).map_err(Fail::Fault)?;
    let rate = rate_in(table).map_err(Fail::Fault)?;
    let width = width_in(table).map_err(Fail::Fault)?;
    let height = height_in(table).map_err(Fail::Fault)?;
    let black = black_in(table).map_err(Fail::Fault)?;
    let bands = bands_in(table).map_err(Fail::Fault)?;
    let edl = edl_in(table).map_err(Fail::Fault)?;
    let cube = cube_in(table).map_err(Fail::Fault)?;
    let values = reels_in(table).map_err(Fail::Fault)?;
    let cuts = cuts_in(alloc, table)?;
    let reels = read_reels(alloc, rate, values)?;
    knows_top(table).map_err(Fail::Fault)?;
    knows_reels(values).map_err(Fail::Fault)?;
    Ok(Project {
        title,
        rate,
        width,
        height,
        black,
        bands,
        edl,
        cube,
        reels: ReelRows::of(reels),
        cuts: CutRows::of(cuts),
    })
}
