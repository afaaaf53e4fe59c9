//! Laws of the faults of names.
#![tactic(auto)]

ghost use Rattle.family_names.specs.Laws.{NamesAreJudgedOnce, PlainFunctions, PlainNames};

/// Behind items without group directives the fault of a name is that of a file without groups: a use has no example, unless it
/// stands in the name's own declarator; there, and at a second declaration, it is the least valid configuration, if there is
/// one.
#[tactic(auto, using(crate::proofs::Plain::plain_names))]
pub fn plain_names()
    ensures { PlainNames }
{}

/// So it is of functions: a call has no example, and a declaration behind an unlike one has the least valid configuration, if
/// there is one.
#[tactic(auto, using(crate::proofs::PlainFunctions::plain_functions))]
pub fn plain_functions()
    ensures { PlainFunctions }
{}

/// Items have one first fault of a name, or none: over two settings whose models have the same features and constraints,
/// whose names and words of functions are the same, and whose conditions have the same truths at each configuration.
#[tactic(auto, using(crate::proofs::Alike::judged_once))]
pub fn names_are_judged_once()
    ensures { NamesAreJudgedOnce }
{}
