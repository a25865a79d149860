//! A scan that is lent.
ghost use Rattle.scan_source.specs.State.{lent_by};

use crate::{Head, Loaded, Scans};
use cf_base::{HEADER, PathText};

impl<S: Scans> Scans for &mut S {
    ghost state = { λ scan. lent_by (record { name = scan.ghost_name; place = scan.ref_ptr }) (S.state scan.now) };

    fn load(&mut self, path: &PathText, most: u64, into: &mut Vec<u8>) -> Loaded {
        (**self).load(path, most, into)
    }

    fn head(&mut self, path: &PathText, into: &mut [u8; HEADER]) -> Head {
        (**self).head(path, into)
    }

    ghost bounded = { λ scan. S.bounded scan.now };
}
