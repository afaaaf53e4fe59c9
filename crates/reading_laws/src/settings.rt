//! Laws of settings: each function does nothing, and its contract is the law.
#![tactic(auto)]

ghost use Rattle.reading_laws.specs.Settings.{SettingsAreConfigured, SettingsAreConfiguredOnce, SettingsHaveAnswers};

/// What `read_config` is to answer, said word by word. A word is wrong where no feature has its name, else where an earlier word
/// names the same feature, else where what it says is no value of the feature; the first wrong word is the fault. Where no word
/// is wrong, each feature has the value that a word sets, or 0, if it is Boolean and no word names it. The first integer feature
/// that no word names is the fault; else the values are the answer, if they are a valid configuration. This holds of what
/// `read_config` is to answer and of nothing else. Over the features of a model the answer is a valid configuration, as
/// `read_config` promises, or has the number of a word, from 1 to 33, or of a feature, from 1 to 32, where it speaks of one.
pub fn settings_are_read_word_by_word()
    ensures meaning { SettingsAreConfigured }
    ensures once { SettingsAreConfiguredOnce }
    ensures answer { SettingsHaveAnswers }
{}
