//! Laws of the names of a family: each function does nothing, and its contract is the law.
#![tactic(auto)]

ghost use Rattle.reading_laws.specs.Declaring.{DeclarationsAreOfTheGrammar, FamiliesHaveDeclaredNames, InnerScopesHold, OuterScopesHold};
ghost use Rattle.reading_laws.specs.Shown.{SecondDeclarationsAreShown, UndeclaredNamesAreShown};

use c_grammar::laws::{leaving_out_makes_nothing_deeper, within_the_limits_is_a_file};
use c_parser::laws::declarations_are_those_of_the_grammar;
use c_tokens::laws::{lines_are_apart, literals_are_numbers, one_reading, reads_longest_lexemes};
use cpp_lines::laws::{texts_are_read_once, variants_are_plain};
use fam_outer::places_rise;
use for_blocks::laws::{blocks_form_the_file, names_stay};

/// What stands as declared by the items of a file with groups, each name before `main` and the names of declarations in it, is
/// what the grammar declares: the targets of its declarators, in the order of the text. Where the conditions have truths, the
/// names in scope are those of declarators whose guards hold: behind declarations before `main` all that these declare; and
/// behind statements of `main`, wherever they begin, the names in scope before them and those that they declare outside of
/// their blocks, as a block gives up what it declares (ISO/IEC 9899:2011, 6.2.1). Among these statements no `for` declares
/// variables, as in the text in which such a `for` stands as a block, where names are judged (6.8.5p5). The constants among
/// the names in scope are those that the grammar has in a declaration with `const` or `enum`, or in a definition.
pub fn declarations_of_families_are_those_of_the_grammar()
    ensures all { DeclarationsAreOfTheGrammar }
    ensures before_main { OuterScopesHold }
    ensures in_main { InnerScopesHold }
{
    declarations_are_those_of_the_grammar();
}

/// The names of a family are those that its file declares by the grammar, before `main` and in it, each once: the variables that
/// stand before `main`, behind them those that `main` declares, and behind these the constants, each in the order of their first
/// declaration; and then the features that its code names.
pub fn families_have_the_names_that_they_declare()
    ensures { FamiliesHaveDeclaredNames }
{
    reads_longest_lexemes();
    literals_are_numbers();
    places_rise();
    lines_are_apart();
    one_reading();
    texts_are_read_once();
    names_stay();
    within_the_limits_is_a_file();
    declarations_of_families_are_those_of_the_grammar();
}

/// Where a file with groups is refused for a name that some valid configuration uses where no declaration of it is in scope, as
/// behind its block, behind the `for` that declares it or in its own declarator, or declares where an earlier declaration of it
/// is in scope (ISO/IEC 9899:2011, 6.2.1 and 6.8.5), or stands in another block of `main` and one of the two is static (6.2.4),
/// the example is such a configuration: the text of its variant, read over the names of the file and the values of the features
/// among them, is refused with the same code at the same place. So it is with functions, which are called or declared.
pub fn refusals_of_names_are_shown()
    ensures undeclared { UndeclaredNamesAreShown }
    ensures twice { SecondDeclarationsAreShown }
{
    reads_longest_lexemes();
    literals_are_numbers();
    places_rise();
    lines_are_apart();
    one_reading();
    texts_are_read_once();
    variants_are_plain();
    leaving_out_makes_nothing_deeper();
    blocks_form_the_file();
}
