//! What a worker holds of the totals of stops, and of what claimed frames need.
ghost use Rattle.std.specs.Prelude.{◌≡◌};
ghost use Rattle.station.specs.Marks.{HasMoreThan, fresh, joined};
ghost use Rattle.station.specs.inside.Marks.{HasParts};

use crate::crewed::Crewed;
use std::marker::Model;
use std::sync::ledger::Share;

/// Shares of five totals: one for each why of a stop, and one of the source frames that claimed frames need. Contracts see the parts
/// and the amount of each; at least one part of each is there.
#[derive(Drop)]
pub struct Marks<C: Crewed> {
    pub(crate) source: Share<C::SourceStops>,
    pub(crate) disk: Share<C::DiskStops>,
    pub(crate) memory: Share<C::MemoryStops>,
    pub(crate) changed: Share<C::ChangeStops>,
    pub(crate) claims: Share<C::Claims>,
}

impl<C: Crewed> Model for Marks<C> {
    ghost use Rattle.std.specs.Prelude.{◌≤◌};
    ghost use Rattle.station.specs.Marks.{Tallies};
    ghost use Rattle.station.specs.inside.Marks.{HasParts};

    ghost Value = { Tallies };

    ghost view = { λ m. record {
      source = record { parts = m.source.parts; amount = m.source.amount };
      disk = record { parts = m.disk.parts; amount = m.disk.amount };
      memory = record { parts = m.memory.parts; amount = m.memory.amount };
      changed = record { parts = m.changed.parts; amount = m.changed.amount };
      claims = record { parts = m.claims.parts; amount = m.claims.amount };
    } };

    ghost invariant = { λ m. HasParts (record {
      source = record { parts = m.source.parts; amount = m.source.amount };
      disk = record { parts = m.disk.parts; amount = m.disk.amount };
      memory = record { parts = m.memory.parts; amount = m.memory.amount };
      changed = record { parts = m.changed.parts; amount = m.changed.amount };
      claims = record { parts = m.claims.parts; amount = m.claims.amount };
    }) };
}

impl<C: Crewed> Marks<C> {
    /// Hands out one part of each, with nothing counted. Takes no memory.
    pub fn split(&mut self) -> Marks<C>
        requires more { HasMoreThan 1 self.old }
        ensures new { result ≡ fresh }
        ensures all { joined self.new result ≡ self.old }
    {
        Marks {
            source: self.source.split_off(1, 0),
            disk: self.disk.split_off(1, 0),
            memory: self.memory.split_off(1, 0),
            changed: self.changed.split_off(1, 0),
            claims: self.claims.split_off(1, 0),
        }
    }

    /// Takes in the parts of other marks, and what was counted with them. Takes no memory.
    pub fn join(&mut self, other: Marks<C>)
        ensures all { self.new ≡ joined self.old other }
    {
        let Marks {
            source,
            disk,
            memory,
            changed,
            claims,
        } = other;
        self.source.merge(source);
        self.disk.merge(disk);
        self.memory.merge(memory);
        self.changed.merge(changed);
        self.claims.merge(claims);
    }
}
