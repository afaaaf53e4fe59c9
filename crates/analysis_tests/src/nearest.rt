//! Nearest configurations, of a model of three switches and a number with the constraint `!C || N != 5`, with ample memory.

ghost use Rattle.std.specs.Prelude.{◌≡◌, ◌<◌, ◌≤◌, ◌∷◌, [], pos, Bool, length, unsigned_abs, IfOk};
ghost use Rattle.std.specs.List.{All};
ghost use Rattle.linear_atoms.specs.Atoms.{AreAtoms, AreRanges, IsAtom, IsWithin};
ghost use Rattle.cpp_conditions.specs.Propositions.{IsFit, Not, Or};
ghost use Rattle.cpp_conditions.specs.Validity.{AreFit};
ghost use Rattle.cpp_conditions.specs.View.{proposition};
ghost use Rattle.decision_tree.specs.Plain.{TestsBelow};
ghost use Rattle.decision_tree.specs.Listed.{IsNumberedTree, IsTreeIn, Keeps};
ghost use Rattle.decision_tree.specs.View.{numbered, plain};

use configuration_advice::{advice_text, nearest};
use cpp_conditions::{Condition, Conditions, Features, Model};
use decision_tree::{Forest, Tree};
use fam_outer::{Text, Values};
use linear_atoms::{Atom, Config, Feature, Linear};
use std::alloc::Global;
use std::process::Abort;
use std::test::Fail;

/// The test "the feature's value is at least the bound".
fn at_least(alloc: Global, number: u32, bound: i64) -> Result<Atom, Fail>
    requires number { number < 4 }
    requires bound { unsigned_abs bound ≤ 7 }
    ensures { IfOk result (λ made. IsAtom 4 made) }
{
    let form = Linear::feature(alloc, number)?;
    let terms = form.terms.copy(alloc)?;
    Ok(Atom { terms, bound })
}

/// The condition that a feature has at least this value.
fn reaches(alloc: Global, number: u32, bound: i64) -> Result<Condition, Fail>
    requires number { number < 4 }
    requires bound { unsigned_abs bound ≤ 7 }
    ensures { IfOk result (λ made. IsFit 4 (proposition made)) }
{
    Ok(Condition::Test(at_least(alloc, number, bound)?))
}

/// A feature.
fn feature(alloc: Global, name: &[u8], boolean: bool, low: i64, high: i64) -> Result<Feature, Fail>
    ensures low { IfOk result (λ made. made.low ≡ low) }
    ensures high { IfOk result (λ made. made.high ≡ high) }
{
    Ok(Feature {
        name: Text::from_bytes(alloc, name)?,
        boolean,
        low,
        high,
    })
}

fn negation(alloc: Global, inner: Condition) -> Result<Condition, Fail>
    ensures { IfOk result (λ made. proposition made ≡ Not (proposition inner)) }
{
    Ok(Condition::Not(Box::new(alloc, inner)?))
}

fn either(alloc: Global, left: Condition, right: Condition) -> Result<Condition, Fail>
    ensures { IfOk result (λ made. proposition made ≡ Or (proposition left) (proposition right)) }
{
    Ok(Condition::Or(Box::new(alloc, left)?, Box::new(alloc, right)?))
}

/// `!C || N != 5`.
fn constraint(alloc: Global) -> Result<Condition, Fail>
    ensures { IfOk result (λ made. IsFit 4 (proposition made)) }
{
    let third = negation(alloc, reaches(alloc, 2, 1)?)?;
    let below = negation(alloc, reaches(alloc, 3, 5)?)?;
    let other = either(alloc, below, reaches(alloc, 3, 6)?)?;
    either(alloc, third, other)
}

fn model(alloc: Global) -> Result<Model, Fail>
    ensures four { IfOk result (λ made. length made.features ≡ 4) }
    ensures ranges { IfOk result (λ made. AreRanges made.features) }
    ensures given { IfOk result (λ made. IsWithin made.features (pos 0 ∷ pos 0 ∷ pos 0 ∷ pos 5 ∷ [])) }
    ensures fit { IfOk result (λ made. AreFit 4 made.constraints) }
{
    let a = feature(alloc, b"A", true, 0, 1)?;
    let b = feature(alloc, b"B", true, 0, 1)?;
    let c = feature(alloc, b"C", true, 0, 1)?;
    let n = feature(alloc, b"N", false, 0, 7)?;
    Ok(Model {
        features: Features::from_vec(vec![in alloc; a, b, c, n]?),
        constraints: Conditions::from_vec(vec![in alloc; constraint(alloc)?]?),
    })
}

/// `A`, `B`, `C` and `N >= 3`.
fn atoms(alloc: Global) -> Result<[Atom; 4], Fail>
    ensures { IfOk result (λ made. AreAtoms 4 made) }
{
    Ok([
        at_least(alloc, 0, 1)?,
        at_least(alloc, 1, 1)?,
        at_least(alloc, 2, 1)?,
        at_least(alloc, 3, 3)?,
    ])
}

/// The tree that is true exactly where no test with a number from this one on, up to the second one, is false; or, turned, where
/// one is.
#[tactic(auto, using(decision_tree::proofs::Numbers::stays, decision_tree::proofs::Numbers::keeps_both, crate::proofs::NumberedTrees::numbered_from))]
fn all_of(forest: &mut Forest<bool>, from: u32, to: u32, turned: bool) -> Result<Tree<bool>, Fail>
    requires { to < 4 }
    ensures below { IfOk result (λ t. TestsBelow 4 (plain t)) }
    ensures tree { IfOk result (λ t. IsTreeIn from 320 forest.new (numbered t)) }
    ensures numbers { IfOk result (λ t. IsNumberedTree 0 320 (numbered t)) }
    ensures keeps { Keeps forest.old forest.new }
{
    if from > to {
        return Ok(forest.leaf(!turned)?);
    }
    let no = forest.leaf(turned)?;
    let yes = all_of(forest, from + 1, to, turned)?;
    Ok(forest.node(from, &no, &yes)?)
}

/// The advice for `A=0 B=0 C=0 N=5` where one of the trees is an alarm, as a text.
fn advises(rt: &impl Abort, alloc: Global, trees: &[Tree<bool>], text: &[u8]) -> Result<(), Fail>
    requires tests { All (λ (t : Tree Bool). TestsBelow 4 (plain t)) trees.now }
    requires numbered { All (λ (t : Tree Bool). IsNumberedTree 0 320 (numbered t)) trees.now }
{
    let model = model(alloc)?;
    let atoms = atoms(alloc)?;
    let given = Config {
        values: Values::from_vec(vec![in alloc; 0i64, 0i64, 0i64, 5i64]?),
    };
    let advice = nearest(alloc, &model, &atoms, trees, &given)?;
    let shown = advice_text(alloc, model.features.items(), &advice)?;
    assert_eq!(rt; shown.bytes(), text);
    Ok(())
}

#[test]
fn nearest_configurations_are_found(rt: HostRuntime) -> Result<(), Fail> {
    let alloc = rt.alloc();
    let mut forest = Forest::new(alloc);
    // no alarm: nothing changes
    advises(&rt, alloc, &[], b"advice: A=0 B=0 C=0 N=5; changed 0\n")?;
    // an alarm where `A` is off
    let off = [all_of(&mut forest, 0, 0, true)?];
    advises(&rt, alloc, &off, b"advice: A=1 B=0 C=0 N=5; changed 1\n")?;
    // an alarm where `A` or `B` is off
    let either = [all_of(&mut forest, 0, 1, true)?];
    advises(&rt, alloc, &either, b"advice: A=1 B=1 C=0 N=5; changed 2\n")?;
    // where one of the three is off: `C` is on only where `N` is not 5, and no fewer changes suffice
    let any = [all_of(&mut forest, 0, 2, true)?];
    advises(&rt, alloc, &any, b"advice: A=1 B=1 C=1 N=0; changed 4\n")?;
    // `N` changes as far as the first in order, not the next
    let large = [all_of(&mut forest, 3, 3, false)?];
    advises(&rt, alloc, &large, b"advice: A=0 B=0 C=0 N=0; changed 1\n")?;
    // always
    let always = [Tree::leaf(alloc, true)?];
    advises(&rt, alloc, &always, b"advice: none\n")?;
    Ok(())
}

#[test]
#[tactic(auto, using(decision_tree::proofs::Numbers::stays, crate::proofs::NumberedTrees::numbered_from))]
fn the_first_of_the_nearest_is_found(rt: HostRuntime) -> Result<(), Fail> {
    let alloc = rt.alloc();
    let mut forest = Forest::new(alloc);
    // an alarm where both `A` and `B` are off: one of them changes
    let on = forest.leaf(true)?;
    let off = forest.leaf(false)?;
    let second = forest.node(1, &on, &off)?;
    let neither = [forest.node(0, &second, &off)?];
    advises(
        &rt,
        alloc,
        &neither,
        b"advice: A=0 B=1 C=0 N=5; changed 1\n",
    )?;
    // and one where `C` is off
    let third = all_of(&mut forest, 2, 2, true)?;
    let both = [neither[0].share()?, third];
    advises(&rt, alloc, &both, b"advice: A=0 B=1 C=1 N=0; changed 3\n")?;
    Ok(())
}
