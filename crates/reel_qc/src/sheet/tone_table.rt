//! Tables of codes that never fall.
ghost use Rattle.std.specs.Prelude.{◌≡◌, ◌≤◌, ◌<◌, slice_index, MatchOption};
ghost use Rattle.reel_qc.specs.Tones.{IsToneTable};

use std::marker::Model;

/// A code for each code from 0 to 1023, which never falls. Contracts see the list of its values.
#[derive(Drop)]
pub struct ToneTable {
    values: [u16; 1024],
}

impl Model for ToneTable {
    ghost use Rattle.std.specs.Prelude.{ℕ, List};
    ghost use Rattle.reel_qc.specs.Tones.{IsToneTable};

    ghost Value = { List ℕ };

    ghost view = { λ table. table.values };

    ghost invariant = { λ table. IsToneTable table.values };
}

impl ToneTable {
    /// The table of these values, or none where a value is over 1023 or below the one before it. Takes no memory, as all here.
    pub fn of(values: &[u16; 1024]) -> Option<ToneTable>
        ensures { MatchOption result (IsToneTable values.now → ⊥) (λ table. (table ≡ values.now) × IsToneTable values.now) }
    {
        let mut last = 0;
        for value in values {
            if *value > 1023 || *value < last {
                return None;
            }
            last = *value;
        }
        Some(ToneTable { values: *values })
    }

    /// Recalls what every table keeps, for the proof of the caller, and does nothing when it runs.
    pub fn recall(&self)
        ensures { IsToneTable self.now }
    {
        let _ = self.at(0);
    }

    /// The value of a code from 0 to 1023.
    pub fn at(&self, code: u16) -> u16
        requires { code ≤ 1023 }
        ensures value { result ≡ slice_index self.now code }
        ensures table { IsToneTable self.now }
    {
        self.values[code as usize]
    }
}
