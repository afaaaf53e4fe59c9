//! Operations on two leaves.
ghost use Rattle.std.specs.Prelude.{IfOk};

use fam_outer::NoMemory;

/// An operation on two leaves, as a sum or a join. It is a trait of its own and no bound `Fn(&A, &B)`, since the borrow checker
/// refuses a closure of two references where `A` and `B` are one type parameter.
pub trait Operation<A, B, C> {
    /// The values that it may be called at.
    ghost takes: { Self → A → B → Type 0 };

    /// The values that it may give for two values.
    ghost gives: { Self → A → B → C → Type 0 };

    /// A value for two values. It answers an error only for want of memory.
    fn apply(&self, first: &A, second: &B) -> Result<C, NoMemory>
        requires { takes self.now first.now second.now }
        ensures { IfOk result (λ c. gives self.now first.now second.now c) };
}
