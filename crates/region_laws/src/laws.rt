//! The laws of regions' texts: each function does nothing, and its contract is the law.
#![tactic(auto)]

ghost use Rattle.std.specs.Prelude.{◌≡◌, ℤ, List, Ok, Err, length};
ghost use Rattle.fam_outer.specs.declared.dialect.Unknown.{Unknown};
ghost use Rattle.fam_outer.specs.declared.faults.ConditionFault.{ConditionFault};
ghost use Rattle.linear_atoms.specs.declared.atoms.Atom.{Atom};
ghost use Rattle.linear_atoms.specs.declared.atoms.Feature.{Feature};
ghost use Rattle.linear_atoms.specs.declared.atoms.Literal.{Literal};
ghost use Rattle.linear_atoms.specs.declared.regions.Regions.{Regions};
ghost use Rattle.linear_atoms.specs.Atoms.{AreLiterals, IsWithin};
ghost use Rattle.cpp_conditions.specs.Grammar.{ReadsAs};
ghost use Rattle.cpp_conditions.specs.Macros.{no_macros};
ghost use Rattle.cpp_conditions.specs.Propositions.{Proposition, true_at};
ghost use Rattle.atom_solver.specs.Solutions.{all_hold};
ghost use Rattle.alarm_report.specs.Texts.{region_text};
ghost use Rattle.feature_model.specs.Features.{AreDistinct, AreNamed, HaveSwitches};
ghost use Rattle.region_laws.specs.Spelled.{IsOfSize, SpellsRegion};

/// The text of a region over the features of a model, however regions are told, spells an expression in C whose value is
/// not 0 exactly where all literals of the region hold, at values within the ranges (ISO/IEC 9899:2011, 6.10.1 and 6.5).
pub fn region_texts_are_conditions()
    ensures { (regions : Regions) (features : List Feature) (literals : List Literal) → AreNamed features → AreDistinct features
        → HaveSwitches features → AreLiterals (length features) literals → SpellsRegion regions features literals }
{}

/// The text of a region, read as a condition over the features of a model, is true at values within the ranges exactly
/// where all literals of the region hold, whatever unknown names are.
pub fn region_texts_have_the_meaning_of_regions()
    ensures { (unknown : Unknown) (regions : Regions) (features : List Feature) (literals : List Literal)
        (p : Proposition Atom) (values : List ℤ)
        → AreNamed features → AreDistinct features → HaveSwitches features
        → AreLiterals (length features) literals → ReadsAs (no_macros unknown) features (region_text regions features literals) (Ok p)
        → IsWithin features values → true_at values p ≡ all_hold literals values }
{}

/// The text of a region is read as a condition, or refused as one that is too deep or too large, and for nothing else: it
/// has no unknown name.
pub fn region_texts_are_refused_by_size()
    ensures { (unknown : Unknown) (regions : Regions) (features : List Feature) (literals : List Literal)
        (fault : ConditionFault)
        → AreNamed features → AreDistinct features → HaveSwitches features
        → AreLiterals (length features) literals
        → ReadsAs (no_macros unknown) features (region_text regions features literals) (Err fault) → IsOfSize fault }
{}
