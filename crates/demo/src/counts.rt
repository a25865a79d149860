//! How many frames there are.
ghost use Rattle.std.specs.Prelude.{◌≡◌, ◌+◌, ◌-◌, ◌*◌, ◌/◌, ◌%◌, ◌≤◌};
ghost use Rattle.demo.specs.Counts.{source_count, record_count};
ghost use Rattle.demo.specs.Texts.{hour, record_in, source_in};

/// How many frames each of the four source reels of the demonstration job of 1 to 1000 events has: six more than the last
/// event shows, for a transition behind it.
pub fn source_count(events: u32) -> u32
    requires some { 1 ≤ events }
    requires most { events ≤ 1000 }
    ensures count { result ≡ source_count events }
    ensures enough { hour + result ≡ source_in ((events - 1) / 4) + 6 + 6 }
{
    6 * ((events - 1) / 4) + 12
}

/// How many frames the record reel of the demonstration job of 1 to 1000 events has: it ends where the last event does.
pub fn record_count(events: u32) -> u32
    requires some { 1 ≤ events }
    requires most { events ≤ 1000 }
    ensures count { result ≡ record_count events }
    ensures end { hour + result ≡ record_in ((events - 1) / 4) ((events - 1) % 4) + 6 }
{
    end_of((events - 1) / 4, (events - 1) % 4)
}

/// Where the event at this place of this group of four ends, counted from the reel's first frame.
fn end_of(group: u32, place: u32) -> u32
    requires group { group ≤ 249 }
    requires place { place ≤ 3 }
    ensures { result ≡ 26 * group + 6 * place + 6 }
{
    26 * group + 6 * place + 6
}
