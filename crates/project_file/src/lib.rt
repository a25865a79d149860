//! The project file: what a conform is made of, as TOML. Its keys, their ranges and the order of their faults are this
//! project's own rule; what a text comes to as TOML is what the crate `toml` states.
#![tactic(auto)]

mod cuts;
mod fault;
mod keys;
mod read;
mod reels;
mod settings;
mod unknown;

ghost use Rattle.project_file.specs.Projects.{OneMeaning};

use cf_base::{PathText, Rate, ReelRows, Rgb, TitleText};
pub use cuts::CutRows;
pub use fault::{ProjectFault, ProjectKind};
pub use read::read_project;
pub use reels::label_number;

/// A project.
#[derive(Drop)]
pub struct Project {
    /// The title in the headers of the frames that are written.
    pub title: TitleText,
    /// The counting base of all labels.
    pub rate: Rate,
    /// Pixels in a line, 1 to 4096, of the scans and of the frames that are written.
    pub width: u32,
    /// Lines of a frame, 1 to 4096.
    pub height: u32,
    /// The codes of black.
    pub black: Rgb,
    /// How many bands a frame is rendered in, 1 to 64.
    pub bands: u32,
    /// The edit list.
    pub edl: PathText,
    /// The table of the look, if there is one.
    pub cube: Option<PathText>,
    /// The source reels, at most 1024.
    pub reels: ReelRows,
    /// The cuts of the record, at most 998: the labels with which its further reels begin.
    pub cuts: CutRows,
}

/// A text comes to one answer.
pub fn project_laws()
    ensures one { OneMeaning }
{}
