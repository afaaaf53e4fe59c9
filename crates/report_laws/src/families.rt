//! A law of the texts of reports on families: the function does nothing, and its contract is the law.
#![tactic(auto)]

ghost use Rattle.report_laws.specs.FamilyReports.{ReportsOfFamiliesTellAlarms};

/// A report on a family tells its alarms: two reports with one text, over the features of one model and with regions told in one way,
/// have the same places, kinds, literals of regions and examples, in the same order.
pub fn reports_of_families_tell_their_alarms()
    ensures { ReportsOfFamiliesTellAlarms }
{}
