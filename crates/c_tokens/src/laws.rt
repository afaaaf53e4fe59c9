//! Laws of reading tokens, for the crates above: each function does nothing, and its contract is the law.
#![tactic(auto)]

ghost use Rattle.std.specs.Prelude.{◌≡◌, ℕ, ℤ, ◌≤◌, pos, List, ◌∷◌, ◌++◌, ◌<◌, Some, Result};
ghost use Rattle.std.specs.Fmt.{decimal};
ghost use Rattle.fam_outer.specs.declared.faults.FileCode.{FileCode};
ghost use Rattle.fam_outer.specs.declared.faults.Place as outer;
ghost use Rattle.c_tokens.specs.declared.token.Token as declared;
ghost use Rattle.c_tokens.specs.declared.token.TokenKind.TheVariants.{Number};
ghost use Rattle.c_tokens.specs.Lexemes.{kind_of};
ghost use Rattle.c_tokens.specs.Reading.{IsReading, tokens_of};
ghost use Rattle.c_tokens.specs.Lines.{line_behind};

/// What `tokens` answers is a reading: lexemes by longest match with white space between them, at exact places.
pub fn reads_longest_lexemes()
    ensures { (text : List ℕ) → IsReading text (tokens_of text) }
{}

/// A text has one reading.
pub fn one_reading()
    ensures { (text : List ℕ) (answer : Result (List declared.Token) (FileCode × outer.Place))
        → IsReading text answer → answer ≡ tokens_of text }
{}

/// What `decimal` writes of a number from 0 to 2147483647 is read as this number; the numbers are of these, and one that
/// begins with no quote and no `0` is so written.
pub fn literals_are_numbers()
    ensures read { (n : ℕ) → n ≤ 2147483647 → kind_of (decimal n) ≡ Some (Number (pos n)) }
    ensures small { (lexeme : List ℕ) (value : ℤ) → kind_of lexeme ≡ Some (Number value)
        → (n : ℕ) × (value ≡ pos n) × (n ≤ 2147483647) }
    ensures written { (first : ℕ) (digits : List ℕ) (value : ℤ) → 48 < first → kind_of (first ∷ digits) ≡ Some (Number value)
        → (n : ℕ) × (value ≡ pos n) × (first ∷ digits ≡ decimal n) }
{}

/// Lines are read one by one: a line and what stands behind its newline have the tokens that each has alone.
pub fn lines_are_apart()
    ensures { (line rest : List ℕ) → tokens_of (line ++ 10 ∷ rest)
        ≡ line_behind line (tokens_of line) (tokens_of rest) }
{}
