//! The laws of certificates: each function does nothing, and its contract is the law.
#![tactic(auto)]

ghost use Rattle.interval_leaf.specs.Intervals.{intervals};
ghost use Rattle.certificate_laws.specs.Accepted.{AreToldByBounds, AreBelowJoins, AnalysesAreAccepted};
ghost use Rattle.certificate_laws.specs.Certified.{WrittenAnalysesAreAccepted};
ghost use Rattle.certificate_laws.specs.Laws.{FamiliesAreOfFiles, CertificatesAreReadBack, FamilyCertificatesAreReadBack};
ghost use Rattle.certificate_laws.specs.Readings.{EachTextIsRead, NoneIsReadAndRefused, CertificatesAreAlike, FaultsAreOne, WrittenAnalysesAreSpelled};

use interval_leaf::IntervalLeaf;
use leaf_domain::{Leaf, transfer_is_sound};

/// The places of the program of a family have lines and columns from 1 on, which are words of 32 binary digits, and no name of
/// it has a newline: they are those of a file.
pub fn families_are_of_files()
    ensures { FamiliesAreOfFiles }
{}

/// A certificate is read back as what it was written of: of the text of the invariants of loops and of the alarms of a family,
/// over leaves of intervals, the reader answers a certificate that says the same mode, the same places, kinds and bounds, and
/// regions that the same valid configurations meet. Where the text is not too long, the only refusal is want of memory.
#[tactic(auto, using(crate::proofs::Intervals::intervals_are_read_back))]
pub fn certificates_are_read_back()
    ensures { CertificatesAreReadBack }
{}

/// The same of a family that was read over an accepted model, and of the trees of an analysis of it.
pub fn family_certificates_are_read_back()
    ensures { FamilyCertificatesAreReadBack }
{
    transfer_is_sound::<IntervalLeaf>();
}

/// A check answers yes of a certificate that says the invariants of the loops and the alarms of an analysis by the same
/// kind of leaf: it has no other verdict. It holds of each kind whose leaves are what their bounds say, and in which what
/// has a join below it has both of its leaves below it.
pub fn analyses_told_by_bounds_are_accepted<L: Leaf>()
    ensures { AreToldByBounds L.meaning → AreBelowJoins L.meaning → AnalysesAreAccepted L.meaning }
{
    transfer_is_sound::<L>();
}

/// A check by intervals answers yes of a certificate that says the invariants of the loops and the alarms of an analysis by
/// intervals: it has no other verdict.
pub fn analyses_are_accepted()
    ensures { AnalysesAreAccepted intervals }
{
    analyses_told_by_bounds_are_accepted::<IntervalLeaf>();
}

/// What is written of an analysis by intervals is accepted: of the text of the invariants of the loops and of the alarms that
/// it finds of a family, which is not too long, the reader answers a certificate of which a check by intervals over the same
/// family has no verdict but yes. The only refusal is want of memory.
pub fn written_analyses_are_accepted()
    ensures { WrittenAnalysesAreAccepted }
{
    transfer_is_sound::<IntervalLeaf>();
}

/// Each text has one reading, over any names and any pieces of regions: it spells a certificate or has a fault, and not both;
/// certificates that it spells have the same mode, and line by line the same places, kinds, bounds and formulas of regions; and it
/// has one fault.
pub fn certificate_texts_have_one_reading()
    ensures some { EachTextIsRead }
    ensures apart { NoneIsReadAndRefused }
    ensures alike { CertificatesAreAlike }
    ensures alone { FaultsAreOne }
{}

/// What is written of an analysis by intervals of a family, which is not too long, spells a certificate over the family.
pub fn written_analyses_are_spelled()
    ensures { WrittenAnalysesAreSpelled }
{
    certificate_texts_have_one_reading();
    written_analyses_are_accepted();
}
