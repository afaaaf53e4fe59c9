//! A law of the texts of reports.
#![tactic(auto)]

ghost use Rattle.std.specs.Prelude.{◌≡◌, List};
ghost use Rattle.plain_analysis.specs.declared.alarm.Alarm.{Alarm};
ghost use Rattle.alarm_report.specs.Texts.{HaveWordPlaces, variant_text};

/// Reports on one program that have the same text have the same alarms, in the same order: so each line of a text is that of
/// one alarm, and a text says which alarms it reports.
#[tactic(auto, using(crate::proofs::ReadBack::read_back))]
pub fn reports_tell_their_alarms()
    ensures { (alarms others : List Alarm) → HaveWordPlaces alarms → HaveWordPlaces others
        → variant_text alarms ≡ variant_text others → alarms ≡ others }
{}
