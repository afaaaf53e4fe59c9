//! Lists with one part for each variable.
#![tactic(auto)]

ghost use Rattle.std.specs.Prelude.{◌≡◌, ◌<◌, IfOk, length, slice_set};

use std::alloc::{AllocError, Global};

/// The parts with that of `x` replaced. It answers an error only for want of memory.
pub fn replaced<P: Copy>(alloc: Global, parts: &[P], x: u32, part: P) -> Result<Vec<P>, AllocError>
    requires { x < length parts.now }
    ensures { IfOk result (λ v. v.items ≡ slice_set parts.now x part) }
{
    let mut changed: Vec<P> = parts.iter().copied().collect(alloc)?;
    changed[x as usize] = part;
    Ok(changed)
}
