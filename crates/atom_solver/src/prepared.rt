//! Models that are prepared once, for many questions.
#![tactic(auto)]

ghost use Rattle.std.specs.Prelude.{◌≡◌, ℤ, List, IfOk, IfSome, length};
ghost use Rattle.linear_atoms.specs.Atoms.{AreRanges, IsAtom, AreAtoms, AreLiterals};
ghost use Rattle.cpp_conditions.specs.Numbering.{vector_at};
ghost use Rattle.cpp_conditions.specs.Propositions.{IsBelow, IsFit, true_at, true_on};
ghost use Rattle.cpp_conditions.specs.Validity.{AreFit, IsConfig};
ghost use Rattle.cpp_conditions.specs.View.{formula, proposition};
ghost use Rattle.atom_solver.specs.Narrowing.{HasAllValid};
ghost use Rattle.atom_solver.specs.Solutions.{Finds, IsImplied, all_hold};

use crate::branching::{FEWEST_TURNS, is_untrue};
use crate::guesses::Guesses;
use crate::labels::{labels_of, marks_by, naming_of, parts_of, untouched};
use crate::narrowing::narrowed;
use crate::numbering::{Question, numbered};
use crate::parting::box_apart;
use crate::parts::first_by_parts;
use crate::searching::first_valid;
use crate::spans::spans_of;
use crate::wanted::{denial, of_formula, of_literals};
use cpp_conditions::{Condition, Formula, Model};
use fam_outer::NoMemory;
use linear_atoms::{Atom, Config, Literal, Span};
use std::alloc::Global;
use std::marker;

/// A model with what its constraints alone say of the ranges of its features, with numbers for their tests, a label for
/// each feature, the same for those that constraints link, and the least valid configuration, if there is one: made once
/// for many questions. Contracts see it as the model.
#[derive(Drop)]
pub struct Prepared<'a> {
    model: &'a Model,
    spans: Vec<Span>,
    question: Question,
    naming: Vec<Vec<usize>>,
    labels: Vec<usize>,
    least: Option<Config>,
}

impl<'a> marker::Model for Prepared<'a> {
    ghost use Rattle.cpp_conditions.specs.declared.models.Model.{Model};
    ghost use Rattle.cpp_conditions.specs.contracts.models.Model as of_model;
    ghost use Rattle.std.specs.Coded.{codes};
    ghost use Rattle.cpp_conditions.specs.View.{formula};
    ghost use Rattle.atom_solver.specs.Narrowing.{IsPrepared};

    ghost Value = { Model };

    ghost coded = { Prim.hlevel (codes, of_model.the_row.coded) };

    ghost view = { λ prepared. prepared.model.now };

    ghost invariant = { λ prepared. IsPrepared prepared.model.now prepared.spans.items prepared.question.atoms.items (formula prepared.question.asked) prepared.least };
}

/// The box of all valid configurations that bounds leave of the ranges of a model. Where few choices of truths show that there is none,
/// bounds are not asked: they may take long to show it.
fn valid_box(
    alloc: Global,
    model: &Model,
    question: &Question,
    naming: &[Vec<usize>],
    guesses: &mut Guesses,
) -> Result<Vec<Span>, NoMemory>
    requires constraints { AreFit (length model.now.features) model.now.constraints }
    requires ranges { AreRanges model.now.features }
    requires atoms { AreAtoms (length model.now.features) question.now.atoms.items }
    ensures { IfOk result (λ made. HasAllValid model.now made.items) }
{
    let whole = spans_of(alloc, model.features.items())?;
    let (is_out, _left) = is_untrue(
        alloc,
        &whole,
        &question.atoms,
        &question.order,
        &question.asked,
        FEWEST_TURNS,
        guesses,
    )?;
    if is_out {
        return Ok(whole);
    }
    guesses.find_values(alloc, &whole, &question.atoms, &question.asked)?;
    let every = Condition::Const(true);
    let made = narrowed(alloc, &whole, model.constraints.items(), naming, &every)?;
    guesses.bring_in(&made);
    Ok(made)
}

impl<'a> Prepared<'a> {
    /// A model, ready for questions. It answers an error only for want of memory.
    ///
    /// The ranges are not empty and have ends of at most 2^20 in size, and the atoms of the constraints are well formed over
    /// the features.
    pub fn new(alloc: Global, model: &'a Model) -> Result<Prepared<'a>, NoMemory>
        requires constraints { AreFit (length model.now.features) model.now.constraints }
        requires ranges { AreRanges model.now.features }
        ensures { IfOk result (λ made. made ≡ model.now) }
    {
        let question = numbered(alloc, model.constraints.items())?;
        let constraints = model.constraints.items();
        let count = model.features.items().len();
        let named = marks_by(alloc, count, constraints)?;
        let naming = naming_of(alloc, count, &named)?;
        let whole = spans_of(alloc, model.features.items())?;
        let mut guesses = Guesses::at_lows(alloc, &whole, &question.atoms)?;
        let spans = valid_box(alloc, model, &question, &naming, &mut guesses)?;
        let labels = labels_of(alloc, count, &named)?;
        let parts = parts_of(alloc, &labels, &named)?;
        let least = first_by_parts(
            alloc,
            &spans,
            constraints,
            &question,
            &naming,
            &parts,
            &mut guesses,
        )?;
        Ok(Prepared {
            model,
            spans,
            question,
            naming,
            labels,
            least,
        })
    }

    /// The model.
    pub fn model(&self) -> &Model
        ensures { result.now ≡ self.now }
    {
        self.model
    }

    /// The first of the valid configurations at which the condition is true: the least valid one, if it is. Else the features of
    /// parts that it does not name keep the values of the least one.
    #[tactic(auto, using(crate::proofs::Boxed::least_at, crate::proofs::Boxed::box_serves, crate::proofs::Boxed::void_finds))]
    fn first(&self, alloc: Global, wanted: &Condition) -> Result<Option<Config>, NoMemory>
        requires { IsFit (length self.now.features) (proposition wanted.now) }
        ensures first { IfOk result (λ found. Finds self.now
            (λ (values : List ℤ). true_at values (proposition wanted.now)) found) }
        ensures config { IfOk result (λ found. IfSome found
            (λ config. IsConfig self.now.features config.values)) }
    {
        match &self.least {
            None => Ok(None),
            Some(least) => {
                if wanted.at(least) {
                    let values = least.values.copy(alloc)?;
                    return Ok(Some(Config { values }));
                }
                let marks = untouched(alloc, &self.labels, wanted)?;
                let constraints = self.model.constraints.items();
                let inner = box_apart(alloc, &self.spans, constraints, wanted, least, &marks)?;
                first_valid(
                    alloc,
                    self.model,
                    &inner,
                    &self.question,
                    &self.naming,
                    wanted,
                )
            }
        }
    }

    /// The least of the valid configurations that meet all literals, by the order of the features. It answers None
    /// exactly where there is none, and an error only for want of memory.
    ///
    /// The configuration has one value per feature, each in its range. The atoms of the literals are well formed over the
    /// features.
    pub fn least(&self, alloc: Global, literals: &[Literal]) -> Result<Option<Config>, NoMemory>
        requires { AreLiterals (length self.now.features) literals.now }
        ensures first { IfOk result (λ found. Finds self.now
            (λ (values : List ℤ). all_hold literals.now values) found) }
        ensures config { IfOk result (λ found. IfSome found
            (λ config. IsConfig self.now.features config.values)) }
    {
        let wanted = of_literals(alloc, literals, Condition::Const(true))?;
        self.first(alloc, &wanted)
    }

    /// The least of the valid configurations at which the formula holds: at the truths of the atoms there. It answers
    /// None exactly where there is none, and an error only for want of memory.
    ///
    /// The configuration has one value per feature, each in its range. The formula's numbers are below the number of
    /// atoms, which are well formed over the features.
    pub fn least_where(
        &self,
        alloc: Global,
        atoms: &[Atom],
        wanted: &Formula,
    ) -> Result<Option<Config>, NoMemory>
        requires atoms { AreAtoms (length self.now.features) atoms.now }
        requires numbers { IsBelow (length atoms.now) (formula wanted.now) }
        ensures first { IfOk result (λ found. Finds self.now
            (λ (values : List ℤ). true_on (vector_at atoms.now values) (formula wanted.now)) found) }
        ensures config { IfOk result (λ found. IfSome found
            (λ config. IsConfig self.now.features config.values)) }
    {
        let wanted = of_formula(alloc, atoms, wanted)?;
        self.first(alloc, &wanted)
    }

    /// Whether every valid configuration that meets the literals meets this one too. It answers an error only for want
    /// of memory. The atoms of all literals are well formed over the features.
    pub fn implied(
        &self,
        alloc: Global,
        literals: &[Literal],
        literal: &Literal,
    ) -> Result<bool, NoMemory>
        requires literals { AreLiterals (length self.now.features) literals.now }
        requires literal { IsAtom (length self.now.features) literal.now.atom }
        ensures { IfOk result (λ answer. IsImplied self.now literals.now literal.now answer) }
    {
        let denied = denial(alloc, literal)?;
        let wanted = of_literals(alloc, literals, denied)?;
        let found = self.first(alloc, &wanted)?;
        Ok(found.is_none())
    }
}
