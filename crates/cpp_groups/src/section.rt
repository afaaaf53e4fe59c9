//! A section that is open, and which of its groups is kept.
#![tactic(auto)]

ghost use Rattle.std.specs.Prelude.{◌≡◌};
ghost use Rattle.cpp_groups.specs.Kept as kept;

/// A section that is open: none of its groups was kept so far, the one that stands here is kept, or an earlier one was.
#[derive(Clone, Copy, Debug, PartialEq, Eq)]
pub enum Section {
    Seeking,
    Keeping,
    Passed,
}

/// The section at its next group, where the group's condition has this truth: the first group whose condition is true
/// is kept.
pub fn next_group(section: Section, truth: bool) -> Section
    ensures { result ≡ kept.next_group section truth }
{
    match section {
        Section::Seeking => {
            if truth {
                Section::Keeping
            } else {
                Section::Seeking
            }
        }
        Section::Keeping => Section::Passed,
        Section::Passed => Section::Passed,
    }
}
