//! The model of generated families.
#![tactic(auto)]

ghost use Rattle.std.specs.Prelude.{◌≡◌, ◌<◌, ℤ, List, [], length, IfOk};
ghost use Rattle.cpp_conditions.specs.Distinct.{HaveFewAtoms};
ghost use Rattle.cpp_conditions.specs.Naming.{AreFeatures};
ghost use Rattle.cpp_conditions.specs.Validity.{plain, IsValid, AreFit};
ghost use Rattle.family_generator.specs.Features.{switch, number, generated_features};

use cpp_conditions::{Conditions, Features, Model};
use fam_outer::{NoMemory, Text};
use linear_atoms::Feature;
use std::alloc::Global;

/// How many switches there are.
const SWITCHES: u32 = 8;

/// The switch of this number, as `F0`.
fn switch(alloc: Global, n: u32) -> Result<Feature, NoMemory>
    ensures { IfOk result (λ made. made ≡ switch n) }
{
    let name = format!(in alloc; "F{n}")?;
    Ok(Feature {
        name: Text::from_vec(name.into_bytes()),
        boolean: true,
        low: 0,
        high: 1,
    })
}

/// The number feature `N`, from 0 to 9.
fn number(alloc: Global) -> Result<Feature, NoMemory>
    ensures { IfOk result (λ made. made ≡ number) }
{
    Ok(Feature {
        name: Text::from_bytes(alloc, "N".as_bytes())?,
        boolean: false,
        low: 0,
        high: 9,
    })
}

/// The features, in their order.
fn features(alloc: Global) -> Result<Vec<Feature>, NoMemory>
    ensures { IfOk result (λ made. made.items ≡ generated_features) }
{
    let mut made = Vec::with_capacity(alloc, SWITCHES as usize + 1)?;
    for n in 0..SWITCHES {
        made.push(switch(alloc, n)?)?;
    }
    made.push(number(alloc)?)?;
    Ok(made)
}

/// The model of each generated family: the switches `F0` to `F7` and the number feature `N` from 0 to 9, in this
/// order, without constraints. A family may be read over it. The only refusal is want of memory.
pub fn generated_model(alloc: Global) -> Result<Model, NoMemory>
    ensures features_are { IfOk result (λ made. made.features ≡ generated_features) }
    ensures constraints_are { IfOk result (λ made. made.constraints ≡ []) }
    ensures features { IfOk result (λ made. AreFeatures made.features) }
    ensures fit { IfOk result (λ made. AreFit (length made.features) made.constraints) }
    ensures few { IfOk result (λ made. HaveFewAtoms 64 (plain made).constraints) }
    ensures valid { IfOk result (λ made. (values : List ℤ) × IsValid (plain made) values) }
{
    let features = features(alloc)?;
    Ok(Model {
        features: Features::from_vec(features),
        constraints: Conditions::from_vec(Vec::new(alloc)),
    })
}
