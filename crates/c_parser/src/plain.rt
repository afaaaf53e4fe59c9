//! The program of a file without groups.
#![tactic(auto)]

ghost use Rattle.std.specs.Prelude.{◌≡◌, ◌≤◌, ◌+◌, length, IfOk};
ghost use Rattle.c_tree.specs.View.{whole};
ghost use Rattle.c_tree.specs.Whole.{IsProgram, IsPlainProgram};
ghost use Rattle.c_grammar.specs.Laws.{AtMostOne};
ghost use Rattle.fam_outer.specs.Refusals.{Gives};
ghost use Rattle.c_parser.specs.Functions.{functions_of_bytes, own_functions};
ghost use Rattle.c_parser.specs.Items.{AreDistinct};
ghost use Rattle.c_parser.specs.Reading as specs;
ghost use Rattle.c_parser.specs.Stages.{IsOwn, Lists, ProperIn, given_in};

use crate::functions::own_functions;
use crate::laws::names_are_declared;
use crate::names::{Limits, first_name_fault};
use crate::numbering::{Numbered, number};
use crate::order::{Arranged, arrange};
use crate::phases::{FileKind, read_file};
use c_grammar::Item;
use c_grammar::laws::{files_are_programs, spells_at_most_one, within_the_limits_is_a_file};
use c_tokens::laws::{literals_are_numbers, reads_longest_lexemes};
use c_tokens::tokens;
use c_tree::{Names, Program};
use cpp_lines::laws::places_stay;
use cpp_lines::{blanked_file, code_text, plain_lines};
use fam_outer::{FILE_BYTES, FileCode, FileRefusal, Includes, NoMemory, Place, Text, places_rise};
use for_blocks::laws::names_stay;
use for_blocks::unfolded;
use std::alloc::Global;

/// The code of a file: its bytes without comments, and of its directive lines the definitions alone, so that all places
/// stay.
#[tactic(auto, unfolding(crate::specs::Reading::code_of_file))]
fn file_code(alloc: Global, includes: Includes, bytes: &[u8]) -> Result<Text, FileRefusal>
    ensures code { Gives (λ text. text) result (specs.code_of_file includes bytes.now) }
    ensures short { IfOk result (λ text. length text ≤ FILE_BYTES) }
    ensures limited { IfOk result (λ _. length bytes.now ≤ FILE_BYTES) }
    ensures functions { IfOk result (λ text. functions_of_bytes bytes.now ≡ own_functions text) }
{
    places_stay();
    let blanked = blanked_file(alloc, bytes)?;
    let _lines = plain_lines(alloc, includes, blanked.bytes())?;
    Ok(code_text(alloc, blanked.bytes())?)
}

/// The names and items of code over these functions, where names are given before its own. The names are distinct.
pub(crate) fn number_code(
    alloc: Global,
    functions: &[Text],
    given: &[Text],
    code: &[u8],
) -> Result<Numbered, FileRefusal>
    requires few { length given.now ≤ FILE_BYTES }
    requires distinct { AreDistinct given.now }
    requires short { length code.now ≤ FILE_BYTES }
    requires functions { length functions.now ≤ FILE_BYTES }
    ensures listed { Lists result (specs.items_of_code functions.now given.now code.now) }
    ensures proper { IfOk result (λ made. ProperIn made) }
    ensures few { IfOk result (λ made. length made.names ≤ length given.now + length code.now) }
    ensures distinct { IfOk result (λ made. AreDistinct made.names) }
{
    reads_longest_lexemes();
    literals_are_numbers();
    places_rise();
    let tokens = tokens(alloc, code)?;
    Ok(number(alloc, functions, given, code, tokens.items())?)
}

/// The names and items of a file over these functions, where names are given before its own.
#[tactic(auto, unfolding(crate::specs::Reading::items_of))]
fn list_items(
    alloc: Global,
    includes: Includes,
    functions: &[Text],
    given: &[Text],
    bytes: &[u8],
) -> Result<Numbered, FileRefusal>
    requires few { length given.now ≤ FILE_BYTES }
    requires distinct { AreDistinct given.now }
    requires functions { length functions.now ≤ FILE_BYTES }
    ensures listed { Lists result (specs.items_of includes functions.now given.now bytes.now) }
    ensures proper { IfOk result (λ made. ProperIn made) }
    ensures few { IfOk result (λ made. length made.names ≤ length given.now + FILE_BYTES) }
    ensures distinct { IfOk result (λ made. AreDistinct made.names) }
    ensures limited { IfOk result (λ _. length bytes.now ≤ FILE_BYTES) }
{
    let code = file_code(alloc, includes, bytes)?;
    number_code(alloc, functions, given, code.bytes())
}

/// Files without groups over these functions, where names are given before a file's own, and how many of these are to be
/// counted.
#[derive(Drop)]
struct PlainFiles<'a> {
    includes: Includes,
    functions: &'a [Text],
    given: &'a [Text],
    limits: Limits,
}

impl FileKind for PlainFiles<'_> {
    ghost use Rattle.fam_outer.specs.Limits.{file_bytes};
    ghost use Rattle.std.specs.Prelude.{◌≡◌, ◌≤◌, false, length};
    ghost use Rattle.c_grammar.specs.Grammar.{has_groups};
    ghost use Rattle.c_parser.specs.Functions.{functions_of_bytes, own_functions};
    ghost use Rattle.c_parser.specs.Items.{AreDistinct};
    ghost use Rattle.c_parser.specs.Stages.{given_in};
    ghost use Rattle.c_parser.specs.Reading.{plain_files};

    type Known = ();

    ghost meaning = { λ files. plain_files files.includes
        (given_in files.functions.now files.given.now files.limits) };

    ghost is_ready = { λ files. (length files.given.now ≤ file_bytes) × AreDistinct files.given.now
        × (length files.functions.now ≤ file_bytes) };

    ghost has = { λ _ l _. has_groups l.items ≡ false };

    fn list(&self, alloc: Global, bytes: &[u8]) -> Result<(Numbered, ()), FileRefusal> {
        Ok((
            list_items(alloc, self.includes, self.functions, self.given, bytes)?,
            (),
        ))
    }

    fn name_fault(
        &self,
        alloc: Global,
        _names: &Names,
        items: &[Item],
        _known: &(),
    ) -> Result<Option<(FileCode, Place)>, NoMemory> {
        let blocks = unfolded(alloc, items)?;
        first_name_fault(alloc, self.limits, blocks.as_slice())
    }
}

/// The program of a file over these functions, where names are given before its own, and how many of these are to be counted.
fn read_over(
    alloc: Global,
    includes: Includes,
    functions: &[Text],
    given: &[Text],
    limits: Limits,
    bytes: &[u8],
) -> Result<Program, FileRefusal>
    requires few { length given.now ≤ FILE_BYTES }
    requires distinct { AreDistinct given.now }
    requires functions { length functions.now ≤ FILE_BYTES }
    ensures reads { specs.IsReadOver includes (given_in functions.now given.now limits) bytes.now result }
    ensures program { IfOk result (λ p. length (whole p).names ≤ 48 → IsProgram (whole p)) }
    ensures plain { IfOk result (λ p. IsPlainProgram (whole p)) }
{
    files_are_programs();
    within_the_limits_is_a_file();
    let files = PlainFiles {
        includes,
        functions,
        given,
        limits,
    };
    let (program, ()) = read_file(alloc, &files, bytes)?;
    Ok(program)
}

/// The functions of a file, and its names in their order and how many of them are of each class.
#[tactic(auto, unfolding(crate::specs::Reading::items_of))]
fn own_names(
    alloc: Global,
    includes: Includes,
    bytes: &[u8],
) -> Result<(Names, Arranged), FileRefusal>
    ensures own { IsOwn includes bytes.now result }
    ensures distinct { IfOk result (λ own. AreDistinct own.1.names) }
    ensures few { IfOk result (λ own. length own.1.names ≤ FILE_BYTES) }
    ensures counted { IfOk result (λ own. length own.1.names
        ≡ (own.1.variables + own.1.locals) + own.1.constants) }
    ensures functions { IfOk result (λ own. length own.0 ≤ FILE_BYTES) }
{
    let code = file_code(alloc, includes, bytes)?;
    let functions = own_functions(alloc, code.bytes())?;
    let first = number_code(alloc, functions.items(), &[], code.bytes())?;
    let made = arrange(alloc, &[], first.names.items(), first.items.as_slice())?;
    Ok((functions, made))
}

/// The program that a file spells. Over one list of names, a list of items spells at most one.
///
/// A file is a list of declarations and then `main`, of the grammar of `c_grammar`, without groups: assignments, `x++` and
/// `x += e` and the like, `input()`, `assert`, `if`, `while`, `do`, `for`, `break`, `continue`, `return`, blocks, empty
/// statements, and declarations among the statements of `main` and of its blocks, with the operators
/// `! - + * / % < <= > >= == != && ||` of C (ISO/IEC 9899:2011, 6.5, 6.7 and 6.8). In `main` a declaration `int x = e;` is
/// read as the assignment `x = e;`, and `int x = input();` as an input; so is `int x;`, whose value is indeterminate, which
/// is any value (6.7.9p10). A list, as in `int x = 1, y;`, is read one by one, each at its name. A `for` may declare
/// variables, each with an initialiser, as `for (int i = 0, j = 1; e; B) S`: it is read as a block around the declaration
/// and the loop. Comments are blanked and `#include <assert.h>` is left out, and where includes are skipped each other one
/// too. The names of the program are those that the file declares: at most 16 variables before `main`, behind them at most
/// 16 that `main` declares, with `const` or without, and behind these at most 16 constants before `main`, each in the order
/// of their first declaration, which decides where a name stands. A name without a start value starts at 0. The
/// declarations of one name in blocks of which none is in another are one name of the program.
///
/// The earliest of these phases that has a fault decides, and in a phase the first place: `TooLong` at 1:1 for more than
/// 1,048,576 bytes; `OpenComment`, `Splice` and `CommentAtDirective` as `cpp_lines::blank_comments` has them; `Directive`
/// and `GroupHere` as `cpp_lines::plain_lines` has them; `StrayByte` and `Literal` as `c_tokens::tokens` has them; `Syntax`
/// at the first token, or the end, at which no file goes on, and `TooDeep` at the first token at which some file goes on
/// but none within the limits: an `if`, a loop or a block with 64 of these around it, or the 65th operator or opening
/// parenthesis of an expression; and then `Undeclared` at a name that is used where no declaration of it is in scope: the
/// scope of a name that `main` declares begins behind its declarator, so not in `int x = x;`, and ends with its block, that
/// of a variable that a `for` declares ends with its statement (6.8.5p5), and that of another name goes on to the end of
/// the file (6.2.1); `Twice` at a declaration of a name where another one of it is in scope, also where one or both stand
/// in blocks; `TooManyVariables` at the declaration of the 17th variable before `main`, or of the 17th name that `main`
/// declares; `TooManyConstants` at that of the 17th constant before `main`; and `ChangedConstant` at a name that is changed
/// where a declaration of it as a constant is in scope, which its own initialiser doesn't do. `NoMemory` is want of memory.
pub fn read_plain(alloc: Global, includes: Includes, bytes: &[u8]) -> Result<Program, FileRefusal>
    ensures reads { specs.IsRead includes bytes.now result }
    ensures names { IfOk result (λ p. specs.AreDeclaredNames includes bytes.now (whole p).names) }
    ensures once { AtMostOne }
    ensures program { IfOk result (λ p. IsProgram (whole p)) }
    ensures plain { IfOk result (λ p. IsPlainProgram (whole p)) }
{
    spells_at_most_one();
    names_are_declared();
    let (functions, made) = own_names(alloc, includes, bytes)?;
    let Arranged {
        names,
        variables,
        locals,
        constants,
    } = made;
    let limits = Limits {
        variables: variables as u32,
        locals: locals as u32,
        constants: constants as u32,
    };
    read_over(
        alloc,
        includes,
        functions.items(),
        names.items(),
        limits,
        bytes,
    )
}

/// The program that a file spells over these functions outside, and over these names, of which there are at most 48, all
/// distinct, and among which are all that the file declares. Its names are these. It has the refusals of `read_plain`, but for
/// `TooManyVariables` and `TooManyConstants`, since the given names are not counted.
pub fn read_plain_with(
    alloc: Global,
    includes: Includes,
    functions: &[Text],
    names: &[Text],
    bytes: &[u8],
) -> Result<Program, FileRefusal>
    requires few { length names.now ≤ 48 }
    requires distinct { AreDistinct names.now }
    requires functions { length functions.now ≤ FILE_BYTES }
    requires declared { specs.DeclaresAmong includes functions.now names.now bytes.now }
    ensures reads { specs.IsReadOver includes (specs.only_names functions.now names.now) bytes.now result }
    ensures names { IfOk result (λ p. (whole p).names ≡ names.now) }
    ensures once { AtMostOne }
    ensures program { IfOk result (λ p. IsProgram (whole p)) }
    ensures plain { IfOk result (λ p. IsPlainProgram (whole p)) }
{
    spells_at_most_one();
    names_stay();
    let limits = Limits {
        variables: 0,
        locals: 0,
        constants: 0,
    };
    read_over(alloc, includes, functions, names, limits, bytes)
}
