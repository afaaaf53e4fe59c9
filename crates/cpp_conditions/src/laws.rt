//! What holds of the definitions alone.
#![tactic(auto)]

ghost use Rattle.std.specs.Prelude.{◌≡◌, ◌↔◌, ℕ, ℤ, List, [], Result, Ok, true, false};
ghost use Rattle.fam_outer.specs.declared.faults.ConditionFault.{ConditionFault};
ghost use Rattle.fam_outer.specs.declared.dialect.Unknown.TheVariants.{Zero, Refuse};
ghost use Rattle.linear_atoms.specs.declared.atoms.Atom.{Atom};
ghost use Rattle.linear_atoms.specs.declared.atoms.Feature.{Feature};
ghost use Rattle.linear_atoms.specs.Atoms.{IsWithin};
ghost use Rattle.cpp_conditions.specs.Expressions.{Expression, value, is_nonzero};
ghost use Rattle.cpp_conditions.specs.Macros.{Macros, among};
ghost use Rattle.cpp_conditions.specs.Meaning.{is_linear, cond};
ghost use Rattle.cpp_conditions.specs.Propositions.{Proposition, true_at};
ghost use Rattle.cpp_conditions.specs.Distinct.{AreAtomsOf, HaveFewAtoms, HaveMoreAtoms};
ghost use Rattle.cpp_conditions.specs.Grammar.{CSpells, ReadsAs, has_defined};
ghost use Rattle.cpp_conditions.specs.Validity.{Plain, all_true, IsValid};

/// The condition that an expression means is true at a configuration within the ranges exactly where C's value of
/// the expression is not 0 (ISO/IEC 9899:2011, 6.10.1 and 6.5), if no truth value in it is used as a number and no
/// product has a feature on both sides.
pub fn conditions_have_values()
    ensures { (features : List Feature) (values : List ℤ) (e : Expression) → IsWithin features values
        → is_linear features e ≡ true → true_at values (cond features e)
        ≡ is_nonzero (value features values e) }
{}

/// Bytes spell at most one expression.
pub fn bytes_spell_one_expression()
    ensures { (bytes : List ℕ) (d e : Expression) → CSpells d bytes → CSpells e bytes → d ≡ e }
{}

/// Bytes are read in one way: as a condition, or with one fault.
pub fn bytes_have_one_reading()
    ensures { (macros : Macros) (features : List Feature) (bytes : List ℕ) (r s : Result (Proposition Atom) ConditionFault)
        → ReadsAs macros features bytes r → ReadsAs macros features bytes s → r ≡ s }
{}

/// What is read where unknown names are refused is read in the same way where they are 0.
pub fn known_names_have_one_meaning()
    ensures { (above file : List (List ℕ)) (features : List Feature) (bytes : List ℕ) (p : Proposition Atom)
        → ReadsAs (among Refuse above file) features bytes (Ok p) → ReadsAs (among Zero above file) features bytes (Ok p) }
{}

#[tactic(auto, using(crate::proofs::Collected::one_list))]
/// The distinct atoms of conditions are one list.
pub fn conditions_have_one_list_of_atoms()
    ensures { (conditions : List (Proposition Atom)) (xs ys : List Atom) → AreAtomsOf conditions xs
        → AreAtomsOf conditions ys → xs ≡ ys }
{}

/// Where conditions have at most so many different atoms, they have no more.
pub fn few_atoms_are_not_more()
    ensures { (most : ℕ) (conditions : List (Proposition Atom)) → HaveFewAtoms most conditions
        → HaveMoreAtoms most conditions → ⊥ }
{}

/// A configuration is valid exactly where it has one value per feature, each in its range, and every constraint is true at it.
pub fn valid_configurations_are_those_within()
    ensures { (model : Plain) (values : List ℤ)
        → (IsValid model values) ↔ (IsWithin model.features values × (all_true values model.constraints ≡ true)) }
{}

/// Bytes are always read in some way.
pub fn bytes_have_a_reading()
    ensures { (macros : Macros) (features : List Feature) (bytes : List ℕ)
        → (r : Result (Proposition Atom) ConditionFault) × ReadsAs macros features bytes r }
{}

/// Where nothing is defined, no name is refused for its definition.
pub fn nothing_is_defined()
    ensures { (e : Expression) → has_defined [] e ≡ false }
{}
