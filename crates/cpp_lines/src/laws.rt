//! Laws of comments and lines, for the crates above: each function does nothing, and its contract is the law.
#![tactic(auto)]

ghost use Rattle.std.specs.Prelude.{◌≡◌, ◌↔◌, ◌<◌, ℕ, Bool, List, length, Result, Ok, Some};
ghost use Rattle.fam_outer.specs.declared.dialect.Dialect.{Dialect};
ghost use Rattle.fam_outer.specs.declared.dialect.Includes.{Includes};
ghost use Rattle.fam_outer.specs.declared.faults.Place.{Place};
ghost use Rattle.fam_outer.specs.Places.{place_at};
ghost use Rattle.fam_outer.specs.declared.faults.FileCode.{FileCode};
ghost use Rattle.linear_atoms.specs.declared.atoms.Atom.{Atom};
ghost use Rattle.cpp_conditions.specs.Propositions.{Proposition};
ghost use Rattle.cpp_conditions.specs.Validity.{Plain};
ghost use Rattle.cpp_lines.specs.Code.{code_of};
ghost use Rattle.cpp_lines.specs.Comments.{blank};
ghost use Rattle.cpp_lines.specs.declared.line.Line as declared;
ghost use Rattle.cpp_lines.specs.Lines.{AreLinesOf, ArePlaced, plain_lines_of};
ghost use Rattle.cpp_lines.specs.Preprocessed.{preprocessed};
ghost use Rattle.cpp_lines.specs.Faults.{IsFirstFault, fault_of, first_fault};
ghost use Rattle.cpp_lines.specs.Sections.{Told, TextIsRead};
ghost use Rattle.cpp_lines.specs.Whole.{IsPlainText, IsPreprocessed};
ghost use Rattle.cpp_lines.specs.Pieces.{HasFault, Piece, IsRead, IsReadOnce, joined};

use cpp_conditions::laws::{bytes_have_one_reading, few_atoms_are_not_more};

/// A blanked text and its code have as many bytes as the text, each at the place where it was.
pub fn places_stay()
    ensures blanked { (text : List ℕ) (offset : ℕ) → place_at (blank text) offset ≡ place_at text offset }
    ensures code { (text : List ℕ) (offset : ℕ) → place_at (code_of text) offset ≡ place_at text offset }
    ensures blanked_len { (text : List ℕ) → length (blank text) ≡ length text }
    ensures code_len { (text : List ℕ) → length (code_of text) ≡ length text }
{}

/// What `blank_comments` refuses is the fault at the first offset that has one; a text that it blanks has none.
pub fn first_fault_decides()
    ensures { (text : List ℕ) → IsFirstFault text (first_fault text) }
{}

/// The places of the lines that `plain_lines` answers are places of the text.
pub fn lines_are_placed()
    ensures { (includes : Includes) (text : List ℕ) (lines : List declared.Line)
        → plain_lines_of includes text ≡ Ok lines → ArePlaced text lines }
{}

/// Each text is in exactly one way bytes of code and comments, one behind another, and then nothing or a comment without
/// its end. Its blanked text is theirs, with each byte of a comment but a newline a space.
#[tactic(auto, using(crate::proofs::Pieces::read_once, crate::proofs::Pieces::blanked_joined))]
pub fn texts_are_pieces()
    ensures once { (text : List ℕ) → IsReadOnce text }
    ensures blanked { (text : List ℕ) (ps : List Piece) (unclosed : List ℕ)
        → IsRead text ps unclosed → blank text ≡ joined ps unclosed }
{}

/// The faults of a text are those of its pieces: the end of a line behind a backslash or its trigraph `??/`, a comment without
/// its end, and a comment with a newline whose first or last line is a directive line.
#[tactic(auto, using(crate::proofs::PieceFaults::faults_of_pieces))]
pub fn faults_are_of_pieces()
    ensures { (text : List ℕ) (ps : List Piece) (unclosed : List ℕ) (offset : ℕ) (code : FileCode)
        → IsRead text ps unclosed → offset < length text
        → ((fault_of text offset ≡ Some code) ↔ HasFault text ps unclosed offset code) }
{}

/// A text is read in one way: as one list of lines and conditions, or with one fault.
pub fn texts_are_read_once()
    ensures { (dialect : Dialect) (model : Plain) (text : List ℕ) (r s : Result Told (FileCode × Place))
        → TextIsRead dialect model text r → TextIsRead dialect model text s → r ≡ s }
{
    bytes_have_one_reading();
    few_atoms_are_not_more();
}

/// At the truths of its conditions one text stays of a file.
pub fn variants_have_one_text()
    ensures { (dialect : Dialect) (model : Plain) (truths : List (Proposition Atom) → List Bool)
        (bytes s t : List ℕ) → IsPreprocessed dialect model truths bytes s
        → IsPreprocessed dialect model truths bytes t → s ≡ t }
{
    texts_are_read_once();
}

/// The text of a variant has no comment and no splice, and no more bytes than a file may have: it is its own blanked text,
/// and a file without groups, of code and definitions.
pub fn variants_are_plain()
    ensures { (dialect : Dialect) (model : Plain) (truths : List (Proposition Atom) → List Bool)
        (bytes text : List ℕ) → IsPreprocessed dialect model truths bytes text → IsPlainText text }
{}

/// The code of the lines that stay of a text is what stays of its code.
pub fn code_stays()
    ensures { (truths : List Bool) (lines : List declared.Line) (text : List ℕ) → AreLinesOf text lines
        → code_of (preprocessed truths lines text) ≡ preprocessed truths lines (code_of text) }
{}
