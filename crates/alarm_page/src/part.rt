//! The fixed parts of a page by their names.
#![tactic(auto)]

ghost use Rattle.std.specs.Prelude.{◌≡◌};
ghost use Rattle.alarm_page.specs.Parts.{text_of};

use crate::parts;

/// The fixed parts, in the order of the page.
#[derive(Clone, Copy, Debug, PartialEq, Eq)]
pub enum Part {
    /// What stands before the style.
    Head,
    /// The style.
    Style,
    /// What stands before the alarms.
    BeforeAlarms,
    /// What stands before the numbers of lines.
    BeforeNumbers,
    /// What stands before the file.
    BeforeFile,
    /// What stands before the whole report.
    BeforeReport,
    /// What stands before the model.
    BeforeModel,
    /// What stands before the lines on how the page was made.
    BeforeAbout,
    /// What stands before the script.
    BeforeScript,
    /// The script.
    Script,
    /// What stands behind the script.
    End,
}

/// The text of a part.
#[tactic(auto, unfolding(crate::specs::Parts::text_of))]
pub fn part_text(part: Part) -> &'static str
    ensures { result.now ≡ text_of part }
{
    match part {
        Part::Head => parts::HEAD,
        Part::Style => parts::STYLE,
        Part::BeforeAlarms => parts::BEFORE_ALARMS,
        Part::BeforeNumbers => parts::BEFORE_NUMBERS,
        Part::BeforeFile => parts::BEFORE_FILE,
        Part::BeforeReport => parts::BEFORE_REPORT,
        Part::BeforeModel => parts::BEFORE_MODEL,
        Part::BeforeAbout => parts::BEFORE_ABOUT,
        Part::BeforeScript => parts::BEFORE_SCRIPT,
        Part::Script => parts::SCRIPT,
        Part::End => parts::END,
    }
}
