//! Laws of blocks for loops that declare variables: each function does nothing, and its contract is the law.
#![tactic(auto)]

ghost use Rattle.for_blocks.specs.Laws.{BlocksAreKept, BlocksDeclareNone, BlocksFormTheFile, ConditionsStay, GroupsStay, OthersStay};
ghost use Rattle.for_blocks.specs.Names.{DeclarationsStay, NamesStay};

/// With blocks the items form the same file, and no `for` declares variables; preprocessing them gives the blocks of what is
/// preprocessed.
pub fn blocks_form_the_file()
    ensures file { BlocksFormTheFile }
    ensures none { BlocksDeclareNone }
    ensures kept { BlocksAreKept }
{}

/// Items stay where no `for` declares variables, and group directives stay everywhere.
pub fn others_stay()
    ensures items { OthersStay }
    ensures groups { GroupsStay }
    ensures conditions { ConditionsStay }
{}

/// The names of items stay, in their order, and the same ones of them are declared.
#[tactic(auto, using(crate::proofs::NamesBehind::names_stay, crate::proofs::NamesBehind::declarations_stay))]
pub fn names_stay()
    ensures names { NamesStay }
    ensures declarations { DeclarationsStay }
{}
