//! Copies of expressions, statements and programs.
#![tactic(auto)]

ghost use Rattle.std.specs.Prelude.{◌≡◌, IfOk};
ghost use Rattle.c_tree.specs.View.{term, jump_of, front, code, whole};

use crate::tree::{Expr, Jump, Program, Stmt};
use fam_outer::NoMemory;
use std::alloc::Global;

/// A copy of an expression.
pub fn copy_expr(alloc: Global, e: &Expr) -> Result<Expr, NoMemory>
    ensures { IfOk result (λ made. term made ≡ term e.now) }
{
    match e {
        Expr::Number(n) => Ok(Expr::Number(*n)),
        Expr::Var(x) => Ok(Expr::Var(*x)),
        Expr::Neg(a) => {
            let a = copy_expr(alloc, a)?;
            Ok(Expr::Neg(Box::new(alloc, a)?))
        }
        Expr::Not(a) => {
            let a = copy_expr(alloc, a)?;
            Ok(Expr::Not(Box::new(alloc, a)?))
        }
        Expr::Binary(op, a, b) => {
            let a = copy_expr(alloc, a)?;
            let b = copy_expr(alloc, b)?;
            Ok(Expr::Binary(*op, Box::new(alloc, a)?, Box::new(alloc, b)?))
        }
    }
}

/// A copy of a jump.
pub fn copy_jump(alloc: Global, jump: &Jump) -> Result<Jump, NoMemory>
    ensures { IfOk result (λ made. jump_of made ≡ jump_of jump.now) }
{
    match jump {
        Jump::Break => Ok(Jump::Break),
        Jump::Continue => Ok(Jump::Continue),
        Jump::Return(e) => Ok(Jump::Return(copy_expr(alloc, e)?)),
    }
}

/// A copy of a statement.
#[cycle(copy)]
pub fn copy_stmt(alloc: Global, s: &Stmt) -> Result<Stmt, NoMemory>
    ensures { IfOk result (λ made. front made ≡ front s.now) }
{
    match s {
        Stmt::Assign {
            place,
            target,
            value,
        } => Ok(Stmt::Assign {
            place: *place,
            target: *target,
            value: copy_expr(alloc, value)?,
        }),
        Stmt::Input { place, target } => Ok(Stmt::Input {
            place: *place,
            target: *target,
        }),
        Stmt::Assert { place, test } => Ok(Stmt::Assert {
            place: *place,
            test: copy_expr(alloc, test)?,
        }),
        Stmt::If {
            place,
            test,
            yes,
            no,
        } => {
            let test = copy_expr(alloc, test)?;
            let yes = copy_list(alloc, yes)?;
            let no = copy_list(alloc, no)?;
            Ok(Stmt::If {
                place: *place,
                test,
                yes,
                no,
            })
        }
        Stmt::While {
            place,
            test,
            step,
            body,
        } => {
            let test = copy_expr(alloc, test)?;
            let step = copy_list(alloc, step)?;
            let body = copy_list(alloc, body)?;
            Ok(Stmt::While {
                place: *place,
                test,
                step,
                body,
            })
        }
        Stmt::Do {
            place,
            body,
            test_place,
            test,
        } => {
            let body = copy_list(alloc, body)?;
            let test = copy_expr(alloc, test)?;
            Ok(Stmt::Do {
                place: *place,
                body,
                test_place: *test_place,
                test,
            })
        }
        Stmt::Leave { place, jump } => Ok(Stmt::Leave {
            place: *place,
            jump: copy_jump(alloc, jump)?,
        }),
        Stmt::Block { place, body } => {
            let body = copy_list(alloc, body)?;
            Ok(Stmt::Block {
                place: *place,
                body,
            })
        }
        Stmt::Skip { place } => Ok(Stmt::Skip { place: *place }),
        Stmt::Cond { number, yes, no } => {
            let yes = copy_list(alloc, yes)?;
            let no = copy_list(alloc, no)?;
            Ok(Stmt::Cond {
                number: *number,
                yes,
                no,
            })
        }
    }
}

/// A copy of a list of statements.
#[cycle(copy)]
pub fn copy_list(alloc: Global, list: &[Stmt]) -> Result<Vec<Stmt>, NoMemory>
    ensures { IfOk result (λ made. code made.items ≡ code list.now) }
{
    let mut made = Vec::new(alloc);
    for s in list {
        made.push(copy_stmt(alloc, s)?)?;
    }
    Ok(made)
}

impl Program {
    /// A copy of the program.
    pub fn copy(&self, alloc: Global) -> Result<Program, NoMemory>
        ensures { IfOk result (λ made. whole made ≡ whole self.now) }
    {
        let names = self.names.copy(alloc)?;
        let start = self.start.copy(alloc)?;
        let declared = self.declared.copy(alloc)?;
        let body = copy_list(alloc, &self.body)?;
        Ok(Program {
            names,
            start,
            declared,
            body,
            end: self.end,
        })
    }
}
