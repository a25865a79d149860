//! What a record frame needs.
ghost use Rattle.std.specs.Prelude.{◌≡◌};
ghost use Rattle.record_timeline.specs.Shots.{IsSideIn, IsShotIn};
ghost use Rattle.conform_job.specs.Job.{need_of_side, need_of_shot};
ghost use Rattle.conform_job.specs.inside.Lines.{places_of};

use crate::JobParts;
use crate::frames::{Ask, key_of};
use crate::infos::Infos;
use cf_base::Key;
use dpx_header::FrameInfo;
use record_timeline::{Shot, Side};

/// The source frames that a record frame needs, with what their files say. A gap and a black side need nothing; outside of
/// a transition there is the new side alone.
#[derive(Clone, Copy)]
pub struct Need {
    pub old: Option<(Key, FrameInfo)>,
    pub new: Option<(Key, FrameInfo)>,
}

/// What a side needs.
fn need_of_side(
    parts: &JobParts,
    places: &[Option<u16>],
    infos: &Infos,
    side: Side,
) -> Option<(Key, FrameInfo)>
    requires places { places.now ≡ places_of parts.now.reels parts.now.timeline.events }
    requires within { IsSideIn parts.now.timeline.events side }
    ensures { result ≡ need_of_side parts.now infos.now side }
{
    let ask = match side {
        Side::Black => return None,
        Side::Frame { event, source } => Ask { event, source },
    };
    let Some(key) = key_of(parts, places, ask) else {
        return None;
    };
    match infos.get(key) {
        Some(info) => Some((key, info)),
        None => None,
    }
}

/// What a shot needs.
pub fn need_of_shot(parts: &JobParts, places: &[Option<u16>], infos: &Infos, shot: Shot) -> Need
    requires places { places.now ≡ places_of parts.now.reels parts.now.timeline.events }
    requires within { IsShotIn parts.now.timeline.events shot }
    ensures { result ≡ need_of_shot parts.now infos.now shot }
{
    match shot {
        Shot::Gap => Need {
            old: None,
            new: None,
        },
        Shot::One { side } => Need {
            old: None,
            new: need_of_side(parts, places, infos, side),
        },
        Shot::Two { old, new, .. } => Need {
            old: need_of_side(parts, places, infos, old),
            new: need_of_side(parts, places, infos, new),
        },
    }
}
