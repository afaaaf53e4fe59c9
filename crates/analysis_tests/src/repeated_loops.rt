//! How often loops are gone through that are entered alike again and again, against numbers found by hand.

ghost use Rattle.std.specs.Prelude.{◌≡◌, IfOk, pos};
ghost use Rattle.c_tree.specs.Tree.{Assign, Done, Number};
ghost use Rattle.c_tree.specs.View.{code, whole};
ghost use Rattle.c_tree.specs.Whole.{IsProgram};
ghost use Rattle.c_tree.specs.Project.{IsConditioned};
ghost use Rattle.analysis_tests.specs.Families.{alike_loops};

use crate::counted_leaf::CountedLeaf;
use crate::families::{at, both, counted, less, one, over_two, restarted_family, section, set};
use c_tree::{Declarations, Expr, Mode, Program, Stmt, project};
use cpp_conditions::Formula;
use fam_outer::NoMemory;
use leaf_domain::{Leaf, Thresholds};
use lifted_analysis::analyse_family;
use plain_analysis::{Options, analyse_one};
use std::alloc::Global;
use std::test::Fail;

/// `while (a < 10) { a = input(); b = 0; .. }` in the lines 4 to 13: with condition 0 `b` then counts to 5, in others to 7.
fn alike(alloc: Global) -> Result<Vec<Stmt>, NoMemory>
    ensures { IfOk result (λ made. code made.items ≡ alike_loops) }
{
    let input = one(
        alloc,
        Stmt::Input {
            place: at(5),
            target: 0,
        },
    )?;
    let reset = both(input, set(alloc, 6, 1, Expr::Number(0))?)?;
    let counts = section(
        alloc,
        0,
        counted(alloc, 8, 1, 5)?,
        counted(alloc, 12, 1, 7)?,
    )?;
    let body = both(reset, counts)?;
    let test = less(alloc, 0, 10)?;
    one(
        alloc,
        Stmt::While {
            place: at(4),
            test,
            step: Vec::new(alloc),
            body,
        },
    )
}

/// A family of a loop whose body enters another alike each time, which counts to 5 or, in other variants, to 7.
fn alike_family(alloc: Global) -> Result<Program, NoMemory>
    ensures program { IfOk result (λ made. IsProgram (whole made)) }
    ensures conditions { IfOk result (λ made. IsConditioned 1 (whole made)) }
{
    let body = alike(alloc)?;
    over_two(alloc, Declarations::from_vec(Vec::new(alloc)), body, 15)
}

/// Widening at once, and one round of narrowing.
fn options(alloc: Global) -> Options {
    Options {
        delay: 0,
        narrow: 1,
        thresholds: Thresholds::none(alloc),
        mode: Mode::Stop,
    }
}

/// The joins in the analysis of a variant's program alone.
fn joins_of_one(alloc: Global, family: &Program, vector: &[bool; 1]) -> Result<u32, NoMemory>
    requires program { IsProgram (whole family.now) }
    requires conditions { IsConditioned 1 (whole family.now) }
{
    let program = project(alloc, family, vector)?;
    let start = CountedLeaf::start(alloc, program.start.items())?;
    analyse_one(alloc, &program, &start, &options(alloc))?;
    Ok(start.joins())
}

/// The joins in the analysis of all variants at once.
fn joins_of_all(alloc: Global, family: &Program) -> Result<u32, NoMemory>
    requires program { IsProgram (whole family.now) }
    requires conditions { IsConditioned 1 (whole family.now) }
{
    let conditions = [Formula::Test(0)];
    let plausible = Formula::Const(true);
    let found = analyse_family::<CountedLeaf>(
        alloc,
        family,
        &conditions,
        &plausible,
        &options(alloc),
    )?;
    let mut joins = 0;
    for place in found.places.as_slice() {
        for path in place.tree.paths(alloc)?.as_slice() {
            joins = path.leaf.value.joins().max(joins);
        }
    }
    Ok(joins)
}

/// Each pass over a loop's body ends with one join. A loop that counts, or enters one that does, is passed over three times: from
/// where it is entered, from the widened leaf and from the narrowed one. One that is entered with all of `int` is passed over
/// once, and the outermost of such twice. That is so however often it is entered: else the passes of all loops around it would be
/// multiplied. Over both variants at once a section takes two joins more for each time that it is left, one for each variant.
#[test]
fn loops_entered_alike_are_passed_over_once(rt: HostRuntime) -> Result<(), Fail> {
    let alloc = rt.alloc();
    let alike = alike_family(alloc)?;
    // the inner loop and the outer one
    assert_eq!(rt; joins_of_one(alloc, &alike, &[true])?, 3 + 3);
    assert_eq!(rt; joins_of_one(alloc, &alike, &[false])?, 3 + 3);
    // each inner loop, the outer one in two variants, and its section three times and once more as the places are noted
    assert_eq!(rt; joins_of_all(alloc, &alike)?, 3 + 3 + 3 * 2 + (3 + 1) * 2);
    let restarted = restarted_family(alloc)?;
    // the outermost of 24 loops, and the others
    assert_eq!(rt; joins_of_one(alloc, &restarted, &[true])?, 2 + 23);
    assert_eq!(rt; joins_of_one(alloc, &restarted, &[false])?, 0);
    // and the section around them
    assert_eq!(rt; joins_of_all(alloc, &restarted)?, 2 + 23 + 2);
    Ok(())
}
