//! What follows from the definitions of the command line.
ghost use Rattle.command_words.specs.Laws.{SpellsOne, SpellsInRange};

/// Laws: words spell at most one command, and its numbers are in their ranges.
pub fn command_laws()
    ensures one { SpellsOne }
    ensures in_range { SpellsInRange }
{}
