//! What follows from the definitions of the ledger.
ghost use Rattle.resume_ledger.specs.Laws.{ByItsFiles, AgreesWhileSpared, AgreesIsShown, SoundHasItsFiles, OneAnswer, OneNumber, ClosedBodyIsOwn};

/// Laws: which frames are acknowledged, and whether the files are fit, depends on the ledger's files alone; calls that
/// spare these files keep a ledger's agreement with the disk, and where it agrees a crash leaves just its frames
/// acknowledged; sound files have those of a frame's length; a folder has one answer, and a peek one number, that of an
/// attach; the closed body of a job is that job's.
pub fn ledger_laws()
    ensures by_its_files { ByItsFiles }
    ensures spared { AgreesWhileSpared }
    ensures shown { AgreesIsShown }
    ensures has_its_files { SoundHasItsFiles }
    ensures one_answer { OneAnswer }
    ensures one_number { OneNumber }
    ensures closed_is_own { ClosedBodyIsOwn }
{}
