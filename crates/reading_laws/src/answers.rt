//! Laws of the answers that files have: each function does nothing, and its contract is the law.
#![tactic(auto)]

ghost use Rattle.reading_laws.specs.Answered.{FilesAreAnswered, FirstConfigurationsAreFound, NamesAreJudged, TextsHaveLines, VariantsHaveTexts};

use c_grammar::laws::reads_within_the_limits;
use c_tokens::laws::{literals_are_numbers, reads_longest_lexemes};
use cpp_conditions::laws::bytes_have_a_reading;
use cpp_lines::laws::places_stay;
use fam_outer::places_rise;

/// Each text has its lines and conditions, or a first line with a fault. So each file has the text that stays of it at any
/// truths of its conditions, or a first fault of its length, its comments or its lines. Whatever is asked of the valid
/// configurations of a model, there is a first one at which it is so, or none. Items have a first fault of a name, or none.
pub fn phases_have_answers()
    ensures lines { TextsHaveLines }
    ensures variants { VariantsHaveTexts }
    ensures configurations { FirstConfigurationsAreFound }
    ensures names { NamesAreJudged }
{
    bytes_have_a_reading();
}

/// Each file has an answer of `read_family` that is not want of memory, whatever its bytes are and over each model: a family,
/// or the first fault with its code, its place and its example. So the definitions leave out no file.
pub fn files_have_answers()
    ensures { FilesAreAnswered }
{
    phases_have_answers();
    reads_within_the_limits();
    reads_longest_lexemes();
    literals_are_numbers();
    places_rise();
    places_stay();
}
