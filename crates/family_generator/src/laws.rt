//! The laws of generated families: each function does nothing, and its contract is the law.
#![tactic(auto)]

ghost use Rattle.family_generator.specs.Laws.{GeneratedFamiliesAreAccepted};

use c_grammar::laws::reads_within_the_limits;
use c_tokens::laws::{lines_are_apart, literals_are_numbers, one_reading, reads_longest_lexemes};
use cpp_lines::laws::texts_are_read_once;
use fam_outer::places_rise;
use for_blocks::laws::others_stay;

/// A generated family of at most 2000 blocks is accepted: reading it over the generated model has no refusal but
/// want of memory. It has no comment, its groups nest and have conditions over few tests, it spells a file within
/// the limits, and its names are declared once for every member.
pub fn generated_families_are_accepted()
    ensures { GeneratedFamiliesAreAccepted }
{
    reads_longest_lexemes();
    literals_are_numbers();
    places_rise();
    lines_are_apart();
    one_reading();
    texts_are_read_once();
    reads_within_the_limits();
    others_stay();
}
