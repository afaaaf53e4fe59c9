//! What each option sets.
#![tactic(auto)]

/// `--domain`.
pub const DOMAIN: &str = "  --domain interval|octagon|stride|sharp
                                     what is known of the variables: bounds of
                                     each; or of sums and differences too; or
                                     bounds with a stride; or all of these at
                                     once; without it interval
";

/// `--delay`.
pub const DELAY: &str =
    "  --delay 0..16                      how many rounds of a loop are joined before
                                     its bounds are widened; without it 0
";

/// `--narrow`.
pub const NARROW: &str = "  --narrow 0..8                      how many rounds of narrowing follow;
                                     without it 1
";

/// `--widening`.
pub const WIDENING: &str =
    "  --widening type|thresholds         whether a bound of a loop that grows goes
                                     to that of the type, or first to numbers
                                     near those of FILE; without it type
";

/// `--unknown`.
pub const UNKNOWN: &str =
    "  --unknown zero|refuse              what a name of a condition is that is no
                                     feature: the number 0, or refused with C6;
                                     without it zero
";

/// `--includes`.
pub const INCLUDES: &str =
    "  --includes assert|skip             whether FILE may include <assert.h> alone,
                                     or anything, which is not read; without it
                                     assert
";

/// `--overflow`.
pub const OVERFLOW: &str =
    "  --overflow stop|wrap               whether an overflow stops the run, or wraps
                                     around modulo 2^32; without it stop
";

/// `--regions`.
pub const REGIONS: &str =
    "  --regions paths|merged             whether an alarm has a line for each path
                                     to it, or regions are merged; without it
                                     paths
";

/// `--steps`.
pub const STEPS: &str = "  --steps 0..1000000                 how many statements are run at most;
                                     without it 1000
";

/// `--inputs`.
pub const INPUTS: &str =
    "  --inputs NUMBER,..                 what input() gives, one after another;
                                     without it none
";
