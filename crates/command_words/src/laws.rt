//! Laws of what words say.
#![tactic(auto)]

ghost use Rattle.std.specs.Prelude.{◌≡◌, ◌++◌, ◌∷◌, List, ℕ, Some, codes, not, true, false};
ghost use Rattle.std.specs.List.{list_all};
ghost use Rattle.std.specs.Str.{bytes_eq};
ghost use Rattle.command_words.specs.Arguments.{arguments_of, all_positional};
ghost use Rattle.command_words.specs.Sorting.{begins_with_dash, text_of};
ghost use Rattle.command_words.specs.declared.named.OptionName.{OptionName};

/// Words of which none begins with `-` are all positional, and all settings have their defaults.
#[tactic(auto, using(crate::proofs::Positional::no_option))]
pub fn words_with_no_option()
    ensures { (words : List (List ℕ)) → list_all (λ word. not (begins_with_dash word)) words ≡ true
        → arguments_of words ≡ Some (all_positional words) }
{}

/// All words after the first `--` are positional, whatever they are.
#[tactic(auto, using(crate::proofs::Positional::after_dashes))]
pub fn words_after_dashes()
    ensures { (front back : List (List ℕ)) → list_all (λ word. not (begins_with_dash word)) front ≡ true
        → arguments_of (front ++ codes "--" ∷ back) ≡ Some (all_positional (front ++ back)) }
{}

/// Before the first `--` the two spellings of an option say the same, where the value does not begin
/// with `-`.
#[tactic(auto, using(crate::proofs::Spellings::both_same))]
pub fn spellings_agree()
    ensures { (front back : List (List ℕ)) (name : OptionName) (value : List ℕ)
        → list_all (λ word. not (bytes_eq word (codes "--"))) front ≡ true
        → begins_with_dash value ≡ false
        → arguments_of (front ++ (codes "--" ++ text_of name ++ codes "=" ++ value) ∷ back) ≡ arguments_of (front ++ (codes "--" ++ text_of name) ∷ value ∷ back) }
{}
