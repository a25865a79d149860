//! Source reels: their table, the paths of their frames, and what the head of a frame's file says. The rules of reels and
//! paths are this project's own; headers are those of SMPTE 268M.
#![tactic(auto)]

mod path;
mod seen;
mod table;

ghost use Rattle.source_reels.specs.Laws.{FindsFaults, NamesFirstFault, PathsAgree};

pub use seen::{Seen, inspect};
pub use table::{ReelFault, ReelKind, ReelTable};

/// What the definitions come to. No reel is refused exactly where all names differ and no reel goes past its end, and else
/// the first one is that has an earlier one's name or goes past its end. A source frame's path is that of its key.
pub fn reel_laws()
    ensures none { FindsFaults }
    ensures first { NamesFirstFault }
    ensures paths { PathsAgree }
{}
