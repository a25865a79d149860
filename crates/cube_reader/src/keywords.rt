//! The keywords of a cube text (Adobe Cube LUT 1.0), and two of this project's own leniency: the ranges.
ghost use Rattle.std.specs.Prelude.{◌≡◌, IfNone, IfSome};
ghost use Rattle.cube_reader.specs.inside.Steps.{spelling, has_stood, noted};

/// What a keyword line sets.
#[derive(Clone, Copy, Debug, PartialEq, Eq)]
pub enum Keyword {
    /// `TITLE`: nothing.
    Title,
    /// `LUT_1D_SIZE`: the size of a table of one dimension.
    LineSize,
    /// `LUT_3D_SIZE`: the size of a table of three dimensions.
    CubeSize,
    /// `DOMAIN_MIN`: the input of the first place, for each channel.
    DomainMin,
    /// `DOMAIN_MAX`: the input of the last place, for each channel.
    DomainMax,
    /// `LUT_1D_INPUT_RANGE`: both inputs, for all channels.
    LineRange,
    /// `LUT_3D_INPUT_RANGE`: both inputs, for all channels.
    CubeRange,
}

/// The keyword that a word spells.
pub fn keyword_of(word: &[u8]) -> Option<Keyword>
    ensures none { IfNone result ((k : Keyword) → word.now ≡ spelling k → ⊥) }
    ensures some { IfSome result (λ k. word.now ≡ spelling k) }
{
    if word == b"TITLE".as_slice() {
        Some(Keyword::Title)
    } else if word == b"LUT_1D_SIZE".as_slice() {
        Some(Keyword::LineSize)
    } else if word == b"LUT_3D_SIZE".as_slice() {
        Some(Keyword::CubeSize)
    } else if word == b"DOMAIN_MIN".as_slice() {
        Some(Keyword::DomainMin)
    } else if word == b"DOMAIN_MAX".as_slice() {
        Some(Keyword::DomainMax)
    } else if word == b"LUT_1D_INPUT_RANGE".as_slice() {
        Some(Keyword::LineRange)
    } else if word == b"LUT_3D_INPUT_RANGE".as_slice() {
        Some(Keyword::CubeRange)
    } else {
        None
    }
}

/// Which keywords stood.
#[derive(Clone, Copy, Debug, PartialEq, Eq)]
pub struct Keywords {
    pub title: bool,
    pub line_size: bool,
    pub cube_size: bool,
    pub domain_min: bool,
    pub domain_max: bool,
    pub line_range: bool,
    pub cube_range: bool,
}

impl Keywords {
    /// Whether a keyword stood.
    pub fn has(&self, keyword: Keyword) -> bool
        ensures { result ≡ has_stood self.now keyword }
    {
        match keyword {
            Keyword::Title => self.title,
            Keyword::LineSize => self.line_size,
            Keyword::CubeSize => self.cube_size,
            Keyword::DomainMin => self.domain_min,
            Keyword::DomainMax => self.domain_max,
            Keyword::LineRange => self.line_range,
            Keyword::CubeRange => self.cube_range,
        }
    }

    /// These keywords and one more.
    pub fn with(&self, keyword: Keyword) -> Self
        ensures { result ≡ noted self.now keyword }
    {
        match keyword {
            Keyword::Title => Keywords {
                title: true,
                ..*self
            },
            Keyword::LineSize => Keywords {
                line_size: true,
                ..*self
            },
            Keyword::CubeSize => Keywords {
                cube_size: true,
                ..*self
            },
            Keyword::DomainMin => Keywords {
                domain_min: true,
                ..*self
            },
            Keyword::DomainMax => Keywords {
                domain_max: true,
                ..*self
            },
            Keyword::LineRange => Keywords {
                line_range: true,
                ..*self
            },
            Keyword::CubeRange => Keywords {
                cube_range: true,
                ..*self
            },
        }
    }
}
