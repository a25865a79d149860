//! What follows from the headline.
ghost use Rattle.command_answers.specs.Headline.{PartsMakeTheReel};

use frame_range::part_laws;

/// Law: where so many folders have the parts of a job, one each, every frame of its reel is in one of them, byte for byte and
/// acknowledged.
pub fn parts_law()
    ensures parts { PartsMakeTheReel }
{
    part_laws();
}
