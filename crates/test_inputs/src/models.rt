//! A model of `A` (Boolean) and `N` (from 0 to 7) with the constraint `A || N >= 3`, and tests over it.

ghost use Rattle.std.specs.Prelude.{◌≡◌, ◌<◌, ◌≤◌, length, unsigned_abs, IfOk};
ghost use Rattle.linear_atoms.specs.Atoms.{AreRanges, IsAtom};
ghost use Rattle.cpp_conditions.specs.Validity.{AreFit};

use cpp_conditions::{Condition, Conditions, Features, Model};
use fam_outer::{NoMemory, Text};
use linear_atoms::{Atom, Feature, Linear};
use std::alloc::Global;

/// The test "the feature's value is at least the bound": feature 0 is `A`, feature 1 is `N`. The only refusal is want of memory.
pub fn at_least(alloc: Global, number: u32, bound: i64) -> Result<Atom, NoMemory>
    requires number { number < 2 }
    requires bound { unsigned_abs bound ≤ 7 }
    ensures { IfOk result (λ made. IsAtom 2 made) }
{
    let form = Linear::feature(alloc, number)?;
    let terms = form.terms.copy(alloc)?;
    Ok(Atom { terms, bound })
}

/// The model. The only refusal is want of memory.
pub fn switch_and_number(alloc: Global) -> Result<Model, NoMemory>
    ensures two { IfOk result (λ made. length made.features ≡ 2) }
    ensures ranges { IfOk result (λ made. AreRanges made.features) }
    ensures fit { IfOk result (λ made. AreFit 2 made.constraints) }
{
    let switch = Feature {
        name: Text::from_bytes(alloc, b"A")?,
        boolean: true,
        low: 0,
        high: 1,
    };
    let number = Feature {
        name: Text::from_bytes(alloc, b"N")?,
        boolean: false,
        low: 0,
        high: 7,
    };
    let on = Box::new(alloc, Condition::Test(at_least(alloc, 0, 1)?))?;
    let three = Box::new(alloc, Condition::Test(at_least(alloc, 1, 3)?))?;
    Ok(Model {
        features: Features::from_vec(vec![in alloc; switch, number]?),
        constraints: Conditions::from_vec(vec![in alloc; Condition::Or(on, three)]?),
    })
}
