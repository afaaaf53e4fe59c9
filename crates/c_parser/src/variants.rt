//! Laws of the variants of a family, for the crates above: each function does nothing, and its contract is the law.
#![tactic(auto)]

ghost use Rattle.c_parser.specs.Variants.{FamiliesAreNotRefused, FamiliesAreReadOnce, FamiliesAreRefusedOnce, FamiliesHaveTexts, FamilyNamesAreFew, TextsSpellProjections, VariantsAreRead, VariantsAreTexts, VariantsDeclareAmong};

use crate::laws::family_names_occur;
use c_grammar::laws::{
    files_are_programs, leaving_out_makes_nothing_deeper, reads_within_the_limits,
    within_the_limits_is_a_file,
};
use c_tokens::laws::{lines_are_apart, literals_are_numbers, one_reading, reads_longest_lexemes};
use cpp_lines::laws::{texts_are_read_once, variants_are_plain};
use fam_outer::places_rise;
use family_names::laws::names_are_judged_once;
use feature_values::laws::{conditions_are_enough, values_are_starts};
use for_blocks::laws::{blocks_form_the_file, names_stay};

/// A file is read as one family, with one program and with one truth of each condition at each configuration, or it has one
/// refusal. It is so over each model, and the same over models with the same features and the same constraints.
pub fn families_are_read_once()
    ensures once { FamiliesAreReadOnce }
    ensures accepted { FamiliesAreNotRefused }
    ensures refused { FamiliesAreRefusedOnce }
{
    texts_are_read_once();
    reads_within_the_limits();
    names_are_judged_once();
}

/// The names of a family are distinct, and there are at most 48: 16 variables, 16 that `main` declares, and 16 constants and
/// features together.
pub fn family_names_are_few()
    ensures { FamilyNamesAreFew }
{
    family_names_occur();
    names_stay();
}

/// Preprocessing and then reading is reading and then projecting. What stays of the text of an accepted family spells,
/// over the family's names, the family's projection, but for the start values of features, for every list of truths of its
/// conditions: so no variant is deeper than the limits. At a valid configuration that text is read over these names and the
/// features' values as this program: so no name of a variant has a fault, and of each that a variant uses a declaration is in
/// scope in it, behind the end of its declarator and before that of its block, or of the `for` that declares it. The lines of
/// an accepted family have none either, so `variant_text` has no refusal but want of memory.
pub fn variants_are_projections()
    ensures spelled { TextsSpellProjections }
    ensures texts { VariantsAreTexts }
    ensures declared { VariantsDeclareAmong }
    ensures read { VariantsAreRead }
    ensures accepted { FamiliesHaveTexts }
{
    reads_longest_lexemes();
    literals_are_numbers();
    places_rise();
    lines_are_apart();
    one_reading();
    texts_are_read_once();
    variants_are_plain();
    leaving_out_makes_nothing_deeper();
    within_the_limits_is_a_file();
    files_are_programs();
    values_are_starts();
    conditions_are_enough();
    family_names_occur();
    names_stay();
    blocks_form_the_file();
}
