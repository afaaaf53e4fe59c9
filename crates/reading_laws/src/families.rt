//! Laws of families: each function does nothing, and its contract is the law.
#![tactic(auto)]

ghost use Rattle.reading_laws.specs.Families.{FamiliesArePromised, FamiliesHaveAnswers};

use crate::answers::files_have_answers;
use c_grammar::laws::{files_are_programs, within_the_limits_is_a_file};
use c_parser::variants::family_names_are_few;
use c_tokens::laws::{literals_are_numbers, reads_longest_lexemes};
use cpp_conditions::laws::few_atoms_are_not_more;
use cpp_lines::laws::places_stay;
use fam_outer::places_rise;
use feature_values::laws::{tests_are_open, uses_stand, values_keep_programs};

/// Each family that a file is read as, over a model that `read_family` may be given, has all that `read_family` promises of its
/// answer. So each file has an answer over each such model: such a family, or a fault, the first one.
pub fn families_have_answers()
    ensures promised { FamiliesArePromised }
    ensures answer { FamiliesHaveAnswers }
{
    files_have_answers();
    reads_longest_lexemes();
    literals_are_numbers();
    places_rise();
    family_names_are_few();
    places_stay();
    files_are_programs();
    within_the_limits_is_a_file();
    few_atoms_are_not_more();
    uses_stand();
    tests_are_open();
    values_keep_programs();
}
