// What holds of the definition of the text: laws and worked examples.
ghost use Rattle.texts.specs.Examples.{Examples};
ghost use Rattle.texts.specs.Valid.{ReadsValid};
ghost use Rattle.texts.specs.Written.{ReadsWritten};

// What a text spells is a valid instance.
pub fn reads_valid()
    ensures { ReadsValid }
{}

// Every valid instance has a text that spells it.
pub fn reads_written()
    ensures { ReadsWritten }
{}

// Texts with what they spell, or why they are refused.
#[tactic(auto, unfolding(crate::specs::Split::lines, crate::specs::Split::words, crate::specs::Words::number_from, crate::specs::Grammar::numbers_at, crate::specs::Grammar::items_at, crate::specs::Grammar::section, crate::specs::Grammar::reads,))]
pub fn examples_hold()
    ensures { Examples }
{}
