//! Laws of reading files, for the crates above: each function does nothing, and its contract is the law.
#![tactic(auto)]

ghost use Rattle.std.specs.Prelude.{◌≡◌, ◌≤◌, ◌<◌, true, false, ℕ, List, length, Result, Ok};
ghost use Rattle.fam_outer.specs.declared.dialect.Dialect.{Dialect};
ghost use Rattle.fam_outer.specs.declared.dialect.Includes.{Includes};
ghost use Rattle.fam_outer.specs.declared.faults.FileCode.{FileCode};
ghost use Rattle.fam_outer.specs.declared.faults.FileCode.TheVariants.{Syntax};
ghost use Rattle.fam_outer.specs.declared.faults.Place.{Place};
ghost use Rattle.c_tree.specs.Tree.{Whole};
ghost use Rattle.c_parser.specs.Items.{Listed};
ghost use Rattle.c_grammar.specs.declared.items.Item.{Item};
ghost use Rattle.c_grammar.specs.Grammar.{File, Forms, has_groups};
ghost use Rattle.c_grammar.specs.LocalsOf.{declared_in};
ghost use Rattle.cpp_conditions.specs.Validity.{Plain};
ghost use Rattle.cpp_lines.specs.Sections.{Told};
ghost use Rattle.c_parser.specs.FamilyItems.{HasItems, has};
ghost use Rattle.c_parser.specs.Names.{declared_by, targets};
ghost use Rattle.c_parser.specs.Phases.{wrong_code};
ghost use Rattle.c_parser.specs.Reading.{Given, IsPlainRead, IsPlainReadOver, items_of, AreDeclaredNames};

use c_grammar::laws::{reads_within_the_limits, within_the_limits_is_a_file};
use c_tokens::laws::{lines_are_apart, literals_are_numbers, one_reading, reads_longest_lexemes};
use fam_outer::places_rise;
use for_blocks::laws::names_stay;

/// A file is read in one way, over whatever is given.
pub fn reads_at_most_once()
    ensures { (includes : Includes) (given : Given) (bytes : List ℕ) (r s : Result Whole (FileCode × Place))
        → IsPlainReadOver includes given bytes r → IsPlainReadOver includes given bytes s → r ≡ s }
{
    reads_within_the_limits();
}

/// Each file is read as a program, or has a refusal.
pub fn reads_something()
    ensures { (includes : Includes) (given : Given) (bytes : List ℕ)
        → (r : Result Whole (FileCode × Place)) × IsPlainReadOver includes given bytes r }
{
    reads_within_the_limits();
}

/// The names of a program that is read over its file's own names are those that the file declares: the variables before
/// `main`, behind them those that `main` declares, and behind these the constants before `main`, each in the order of their
/// first declaration. There are at most 48, 16 of each class.
pub fn names_are_declared()
    ensures names { (includes : Includes) (bytes : List ℕ) (p : Whole)
        → IsPlainRead includes bytes (Ok p) → AreDeclaredNames includes bytes p.names }
    ensures few { (includes : Includes) (bytes : List ℕ) (p : Whole)
        → IsPlainRead includes bytes (Ok p) → length p.names ≤ 48 }
{
    within_the_limits_is_a_file();
    reads_longest_lexemes();
    literals_are_numbers();
    places_rise();
    names_stay();
}

/// What stands as declared in phase 6, each name before `main` and the names of declarations in it, is what the grammar
/// declares: the targets of the declarators of the file that the items form, in the order of the text.
pub fn declarations_are_those_of_the_grammar()
    ensures { (items : List Item) (f : File) (forms : Forms items f)
        → declared_by items ≡ targets (declared_in forms) }
{}

/// Each name of a file with groups occurs among its items.
pub fn family_names_occur()
    ensures { (dialect : Dialect) (model : Plain) (bytes : List ℕ) (told : Told) (l : Listed) (x : ℕ)
        → HasItems dialect model bytes told l → x < length l.names → has x l.items ≡ true }
{
    reads_longest_lexemes();
    literals_are_numbers();
    places_rise();
    lines_are_apart();
    one_reading();
}

/// The items of a file without groups have no group directive, so that its first wrong item is a fault of syntax:
/// `GroupInsideStatement` is a fault of families alone.
#[tactic(auto, using(crate::proofs::PlainItems::plain_items, crate::proofs::PlainItems::plain_code))]
pub fn plain_files_have_no_groups()
    ensures items { (includes : Includes) (functions given : List (List ℕ)) (bytes : List ℕ) (l : Listed)
        → items_of includes functions given bytes ≡ Ok l → has_groups l.items ≡ false }
    ensures wrong { (items : List Item) (n : ℕ) → has_groups items ≡ false → wrong_code items n ≡ Syntax }
{}
