//! The name of a disk on which a run began: what it held, how it is lent, and which calls were made on it before.
//! * name of a start: what a disk held when a run began, how it is lent, and which calls were made on it before
use std::marker::Brand;

/// Names what a disk held when a run began, where the disk tells it, the loans by which the disk is lent, and the calls that had
/// been made on it. A value that stands behind a lock is known by its type alone, so its type has such a name as a parameter.
/// A name has no call and no constant, and its meanings never change; the caller of a function that has a name picks them.
pub trait Start {
    ghost use Rattle.std.specs.Prelude.{List, Option};
    ghost use Rattle.reel_disk.specs.Call.{Call};
    ghost use Rattle.reel_disk.specs.Disk.{Moment};
    ghost use Rattle.cf_base.specs.Loan.{Loan};

    /// What a read answered at the start, and what was loose: both are told, or neither is.
    ghost start: { Option Moment };

    /// The loans of the disk.
    ghost loans: { List Loan };

    /// The calls on the disk before the start, the newest first.
    ghost calls: { List Call };
}

impl Start for Brand {
    ghost use Rattle.std.specs.Prelude.{[], None};

    ghost start = { None };

    ghost loans = { [] };

    ghost calls = { [] };
}
