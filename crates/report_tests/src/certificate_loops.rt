//! The loops of a family, and their trees, compared with places and leaves that were written by hand.

ghost use Rattle.c_tree.specs.Value.{IsInt};

use c_tree::{Declarations, Expr, Names, Program, Stmt};
use certificate_format::{loop_places, loop_trees};
use decision_tree::Tree;
use fam_outer::{NoMemory, Place, Values};
use interval_leaf::IntervalLeaf;
use leaf_domain::{Leaf, Range};
use lifted_analysis::PlaceTree;
use std::alloc::Global;
use std::test::Fail;

fn at(line: u32) -> Place {
    Place { line, column: 1 }
}

/// A loop with the test `1`, alone.
fn stepping(
    alloc: Global,
    line: u32,
    step: Vec<Stmt>,
    body: Vec<Stmt>,
) -> Result<Vec<Stmt>, NoMemory> {
    let test = Expr::Number(1);
    let one = Stmt::While {
        place: at(line),
        test,
        step,
        body,
    };
    Ok(vec![in alloc; one]?)
}

/// `while (1) ;`, alone.
fn looping(alloc: Global, line: u32) -> Result<Vec<Stmt>, NoMemory> {
    stepping(alloc, line, Vec::new(alloc), Vec::new(alloc))
}

/// A loop in line 2 with a loop in its step in line 3 and one in its body in line 4, an `if` with a loop in its `else` in the lines
/// 5 and 6, and a group with a loop in each part, in the lines 8 and 10, the last in a block.
fn family(alloc: Global) -> Result<Program, NoMemory> {
    let mut body = stepping(alloc, 2, looping(alloc, 3)?, looping(alloc, 4)?)?;
    body.push(Stmt::If {
        place: at(5),
        test: Expr::Number(1),
        yes: Vec::new(alloc),
        no: looping(alloc, 6)?,
    })?;
    let block = Stmt::Block {
        place: at(9),
        body: looping(alloc, 10)?,
    };
    body.push(Stmt::Cond {
        number: 0,
        yes: looping(alloc, 8)?,
        no: vec![in alloc; block]?,
    })?;
    Ok(Program {
        names: Names::from_vec(Vec::new(alloc)),
        start: Values::from_vec(Vec::new(alloc)),
        declared: Declarations::from_vec(Vec::new(alloc)),
        body,
        end: at(12),
    })
}

#[test]
fn loops_stand_in_the_order_of_the_text(rt: HostRuntime) -> Result<(), Fail> {
    let code = family(rt.alloc())?;
    let found = loop_places(rt.alloc(), &code)?;
    assert_eq!(rt;
        found.as_slice(),
        [at(2), at(3), at(4), at(6), at(8), at(10)].as_slice()
    );
    Ok(())
}

/// The tree of one leaf at a line, in which one variable has this value.
fn tree(alloc: Global, line: u32, x: i64) -> Result<PlaceTree<IntervalLeaf>, NoMemory>
    requires { IsInt x }
{
    let start = IntervalLeaf::start(alloc, &[0])?;
    let leaf = start.set_range(alloc, 0, Range::new(x, x))?;
    Ok(PlaceTree {
        place: at(line),
        tree: Tree::leaf(alloc, leaf)?,
    })
}

/// Whether this is the tree of one leaf at a line, in which one variable has this value.
fn is_tree(found: &PlaceTree<IntervalLeaf>, line: u32, x: i64) -> bool {
    match &found.tree {
        Tree::Leaf(kept) if kept.value.variables() == 1 => {
            found.place == at(line) && kept.value.bounds_of(0) == Range { low: x, high: x }
        }
        _ => false,
    }
}

// of the trees in the lines 2 to 5 those of the loops in 2 and 4, and none of a loop in 9
#[test]
fn trees_are_those_of_loops(rt: HostRuntime) -> Result<(), Fail> {
    let alloc = rt.alloc();
    let places = [
        tree(alloc, 2, 20)?,
        tree(alloc, 3, 30)?,
        tree(alloc, 4, 40)?,
        tree(alloc, 5, 50)?,
    ];
    let found = loop_trees(alloc, &[at(2), at(4), at(9)], &places)?;
    assert_eq!(rt; found.len(), 2);
    for (one, (line, x)) in found.iter().zip([(2, 20), (4, 40)]) {
        assert!(rt; is_tree(one, line, x));
    }
    Ok(())
}
