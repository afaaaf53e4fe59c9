//! Linear forms in the variables of a program.
#![tactic(auto)]

use linear_terms::Terms;

/// A linear form: the sum of its terms and a constant. The terms have variables by rising numbers, each with its
/// coefficient, which is not 0.
#[derive(Debug, Drop)]
pub struct Form {
    pub terms: Terms,
    pub constant: i64,
}
