//! What small programs over `x` and `y` are made of.

ghost use Rattle.std.specs.Prelude.{◌≡◌, IfOk, [], ◌∷◌, pos};
ghost use Rattle.c_tree.specs.Tree.{Binary};
ghost use Rattle.c_tree.specs.View.{term};

use c_tree::{Expr, Names, Op};
use fam_outer::{NoMemory, Place, Text, Values};
use std::alloc::Global;

pub(crate) fn at(line: u32, column: u32) -> Place
    ensures { result ≡ record { line = line; column = column } }
{
    Place { line, column }
}

/// `a op b`.
pub(crate) fn binary(alloc: Global, op: Op, a: Expr, b: Expr) -> Result<Expr, NoMemory>
    ensures { IfOk result (λ e. term e ≡ Binary op (term a) (term b)) }
{
    let a = Box::new(alloc, a)?;
    Ok(Expr::Binary(op, a, Box::new(alloc, b)?))
}

/// `x` and `y`.
pub(crate) fn names(alloc: Global) -> Result<Names, NoMemory>
    ensures { IfOk result (λ made. made ≡ (120 ∷ []) ∷ (121 ∷ []) ∷ []) }
{
    let mut list = Vec::new(alloc);
    list.push(Text::from_bytes(alloc, b"x")?)?;
    list.push(Text::from_bytes(alloc, b"y")?)?;
    Ok(Names::from_vec(list))
}

/// 0 for both.
pub(crate) fn starts(alloc: Global) -> Result<Values, NoMemory>
    ensures { IfOk result (λ made. made ≡ pos 0 ∷ pos 0 ∷ []) }
{
    let mut list = Vec::new(alloc);
    list.push(0)?;
    list.push(0)?;
    Ok(Values::from_vec(list))
}
