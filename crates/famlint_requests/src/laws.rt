//! Laws of what words ask for.
#![tactic(auto)]

ghost use Rattle.std.specs.Prelude.{◌≡◌, List, ℕ, Some, None};
ghost use Rattle.std.specs.Option.{option_and_then};
ghost use Rattle.command_words.specs.Arguments.{arguments_of};
ghost use Rattle.famlint_requests.specs.Guides.{guide_of};
ghost use Rattle.famlint_requests.specs.Requests.{request_of};
ghost use Rattle.famlint_requests.specs.declared.request.guide.Guide.{Guide};

/// Words that ask for a text about the program ask for nothing else: they would be refused without it.
#[tactic(auto, using(crate::proofs::GuideWords::nothing_else))]
pub fn guides_ask_for_nothing_else()
    ensures { (words : List (List ℕ)) (guide : Guide) → guide_of words ≡ Some guide
        → option_and_then request_of (arguments_of words) ≡ None }
{}
