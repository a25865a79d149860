//! What an event shows at a record frame, alone or in a transition.
ghost use Rattle.std.specs.Prelude.{◌≡◌, ◌≤◌, ◌<◌, ◌+◌, IfSome, IsSome, nat_abs, length};
ghost use Rattle.std.specs.Option.{ForSome, option_copied};
ghost use Rattle.record_timeline.specs.Shots.{side_of, shot_within, duration_of, event_before};

use crate::{Shot, Side};
use cf_base::{EventRec, LONGEST, Rate, Transition};
use speed_map::source_offset;

/// The event before a place, if there is one.
pub fn event_before(events: &[EventRec], place: usize) -> Option<&EventRec>
    requires { place < length events.now }
    ensures value { option_copied result ≡ event_before events.now place }
    ensures later { ForSome result (λ old. 1 ≤ place) }
{
    if place == 0 {
        None
    } else {
        Some(&events[place - 1])
    }
}

/// What an event shows at record frame `n`, also past its end.
pub fn side_of(rate: Rate, place: u32, e: &EventRec, n: u32) -> Side
    requires begun { e.now.rec_in ≤ n }
    requires frames { n ≤ LONGEST }
    requires speed { IfSome e.now.speed (λ s. nat_abs s ≤ 999999) }
    ensures { result ≡ side_of rate place e.now n }
{
    if e.is_black() {
        return Side::Black;
    }
    let distance = n - e.rec_in;
    let offset = match e.speed {
        Some(speed) => source_offset(rate, speed, distance),
        None => i64::from(distance),
    };
    Side::Frame {
        event: place,
        source: i64::from(e.src_in) + offset,
    }
}

/// The shot of a record frame that an event covers, with the event before it in the list if there is one.
pub fn shot_within(rate: Rate, place: u32, e: &EventRec, old: Option<&EventRec>, n: u32) -> Shot
    requires begun { e.now.rec_in ≤ n }
    requires frames { n ≤ LONGEST }
    requires speed { IfSome e.now.speed (λ s. nat_abs s ≤ 999999) }
    requires speed_before { ForSome old (λ o. IfSome o.now.speed (λ s. nat_abs s ≤ 999999)) }
    requires place { ForSome old (λ o. 1 ≤ place) }
    requires before { ForSome old (λ o. IsSome (duration_of e.now.transition) → o.now.rec_in ≤ n) }
    ensures { result ≡ shot_within rate place e.now (option_copied old.entry) n (duration_of e.now.transition) }
{
    let j = n - e.rec_in;
    let new = side_of(rate, place, e, n);
    match (duration_of(e.transition), old) {
        (Some(d), Some(old)) if j < d => {
            let old = side_of(rate, place - 1, old, n);
            Shot::Two {
                old,
                new,
                transition: e.transition,
                k: j,
                d,
            }
        }
        _ => Shot::One { side: new },
    }
}

/// How long a transition lasts.
fn duration_of(transition: Transition) -> Option<u32>
    ensures { result ≡ duration_of transition }
{
    match transition {
        Transition::Cut => None,
        Transition::Dissolve { d } => Some(d),
        Transition::Wipe { d, .. } => Some(d),
    }
}
