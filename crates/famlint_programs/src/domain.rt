//! The kinds of leaves by the names of their domains.

pub use command_words::Domain;
pub use interval_leaf::IntervalLeaf;
pub use octagon_leaf::OctagonLeaf;
pub use product_leaf::StrideLeaf;
pub use sharp_leaf::SharpLeaf;

/// Calls a function over the kind of leaf that a domain names. The one place that tells the kinds apart.
#[macro_export]
macro_rules! over_domain {
    ($domain:expr, $work:ident($($argument:expr),*)) => {
        match $domain {
            $crate::domain::Domain::Interval => $work::<$crate::domain::IntervalLeaf>($($argument),*),
            $crate::domain::Domain::Octagon => $work::<$crate::domain::OctagonLeaf>($($argument),*),
            $crate::domain::Domain::Stride => $work::<$crate::domain::StrideLeaf>($($argument),*),
            $crate::domain::Domain::Sharp => $work::<$crate::domain::SharpLeaf>($($argument),*),
        }
    };
}
