//! Lines, and lists of them.
#![tactic(auto)]

ghost use Rattle.std.specs.Prelude.{◌≡◌};

use fam_outer::Place;
use std::marker::Model;

/// The kind of a line: code, an include, the definition of a constant, or a group directive. The number names a condition.
#[derive(Clone, Copy, Debug, PartialEq, Eq)]
pub enum LineKind {
    Code,
    Include,
    Define,
    If(u32),
    Elif(u32),
    Else,
    Endif,
}

/// A line. Its bytes are those of the text from `start` to before `end`, without its newline, and `place` is that of
/// `#` for a directive and of the line's first byte otherwise.
#[derive(Clone, Copy, Debug, PartialEq, Eq)]
pub struct Line {
    pub kind: LineKind,
    pub start: u32,
    pub end: u32,
    pub place: Place,
}

/// A list of lines.
#[derive(Debug, Drop)]
pub struct Lines {
    list: Vec<Line>,
}

impl Model for Lines {
    ghost use Rattle.std.specs.Prelude.{List};
    ghost use Rattle.cpp_lines.specs.declared.line.Line.{Line};

    ghost Value = { List Line };

    ghost view = { λ lines. lines.list.items };
}

impl Lines {
    /// These lines.
    pub fn from_vec(list: Vec<Line>) -> Lines
        ensures { result ≡ list.items }
    {
        Lines { list }
    }

    /// The lines.
    pub fn items(&self) -> &[Line]
        ensures { result.now ≡ self.now }
    {
        self.list.as_slice()
    }
}
