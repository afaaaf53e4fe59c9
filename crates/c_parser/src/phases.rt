//! The phases of reading a file, whatever kind of file it is.
#![tactic(auto)]

ghost use Rattle.std.specs.Prelude.{◌≤◌, length, IfOk};
ghost use Rattle.c_tree.specs.View.{whole};
ghost use Rattle.c_tree.specs.Whole.{IsProgram};
ghost use Rattle.c_grammar.specs.Facts.{AreFit, AreRising};
ghost use Rattle.c_parser.specs.Items.{Listed};
ghost use Rattle.c_parser.specs.Phases.{FileMeaning, IsReadAs};
ghost use Rattle.c_parser.specs.Stages.{IsListedAs, IsSpelledBy, list, listed_in};

use crate::numbering::Numbered;
use crate::spelled::{refused, spelled};
use c_grammar::Item;
use c_tree::{Names, Program};
use fam_outer::{FILE_BYTES, FileCode, FileRefusal, NoMemory, Place};
use std::alloc::Global;

/// A kind of files: the phases before the grammar, and what is asked of names behind it.
pub(crate) trait FileKind {
    /// What is known of a file besides its names and items.
    type Known: Drop;

    /// What the phases and the question of names mean.
    ghost meaning: { Self → FileMeaning Self.Known };

    /// What a file of the kind is read under.
    ghost is_ready: { Self → Type 0 };

    /// What is true of the items of a file, and of what is known besides.
    ghost has: { Self → Listed → Self.Known → Type 0 };

    /// The names and items of a file, by its length, its comments, its lines and its tokens.
    fn list(&self, alloc: Global, bytes: &[u8]) -> Result<(Numbered, Self::Known), FileRefusal>
        requires { is_ready self.now }
        ensures listed { IsListedAs (meaning self.now) bytes.now result }
        ensures fit { IfOk result (λ made. AreFit (length made.0.names) made.0.items.items) }
        ensures rising { IfOk result (λ made. AreRising made.0.items.items) }
        ensures has { IfOk result (λ made. has self.now (listed_in made.0) made.1) }
        ensures limited { IfOk result (λ _. length bytes.now ≤ FILE_BYTES) };

    /// The first fault of a name among the items.
    fn name_fault(
        &self,
        alloc: Global,
        names: &Names,
        items: &[Item],
        known: &Self::Known,
    ) -> Result<Option<(FileCode, Place)>, NoMemory>
        requires ready { is_ready self.now }
        requires has { has self.now (list names.now items.now) known.now }
        ensures { IfOk result (λ fault. (meaning self.now).named
            (list names.now items.now) known.now fault) };
}

/// The program of a file, and what is known of it besides. The earliest phase that has a fault decides: those before the
/// grammar, then the grammar, then the names.
pub(crate) fn read_file<F: FileKind>(
    alloc: Global,
    kind: &F,
    bytes: &[u8],
) -> Result<(Program, F::Known), FileRefusal>
    requires { F.is_ready kind.now }
    ensures reads { IsReadAs (F.meaning kind.now) bytes.now result }
    ensures program { IfOk result (λ made. length (whole made.0).names ≤ 48 → IsProgram (whole made.0)) }
    ensures has { IfOk result (λ made. IsSpelledBy (F.has kind.now) (whole made.0) made.1) }
{
    let (Numbered { names, items }, known) = kind.list(alloc, bytes)?;
    let program = spelled(alloc, names, items.as_slice(), bytes)?;
    match kind.name_fault(alloc, &program.names, items.as_slice(), &known)? {
        Some((code, place)) => Err(refused(code, place)),
        None => Ok((program, known)),
    }
}
