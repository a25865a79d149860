//! The types that the crates of the conform station share: texts, numbers, timing, edit lists, lines and tokens of a
//! text, names of files, reading, the sink that takes output, and why a call on the system failed.
#![tactic(auto)]

mod digits;
mod event;
mod fail;
mod file;
mod fixed;
mod inline;
mod interrupted;
mod items;
mod key;
mod limits;
mod lines;
mod pixel;
mod reading;
mod reel;
mod sink;
mod text;
mod timing;
mod tokens;
mod trouble;

pub use digits::{are_digits, digits_value, frame_file_name, last_digits};
pub use event::{EventList, EventRec, EventRows, Transition};
pub use fail::{Fail, Never};
pub use file::{FileId, is_same_file};
pub use fixed::{Fixed, FixedFault, read_fixed};
pub use interrupted::again;
pub use items::Items;
pub use key::Key;
pub use limits::{
    CUBE_BYTES, FRAMES, HEADER, LARGEST, LIST_BYTES, LONGEST, PIECE, PROBES, PROJECT_BYTES, SHARED,
    WORKERS,
};
pub use lines::{LineSpan, Span, line_at, lines_in_turn};
pub use pixel::Rgb;
pub use reading::fill;
pub use reel::{ReelEntry, ReelRows};
pub use sink::{MemorySink, Put, Sink, StreamSink};
pub use text::{Name, PathText, TitleText};
pub use timing::{FrameNo, Mode, Rate, can_count, day};
pub use tokens::{TokenSpan, is_blank, token_from};
pub use trouble::{FilePath, LONGEST_PATH, Tried, Trouble, told};
