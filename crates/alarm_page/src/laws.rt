//! The laws of pages: each function does nothing, and its contract is the law.
#![tactic(auto)]

ghost use Rattle.alarm_page.specs.Laws.{TextsAreNoMarkup, TextsAreReadBack, PagesTellTheirTexts};

/// Texts in a page, whatever their bytes, are no markup.
pub fn texts_are_no_markup()
    ensures { TextsAreNoMarkup }
{}

/// What a text is written as is read back as the text.
pub fn texts_are_read_back()
    ensures { TextsAreReadBack }
{}

/// A page tells exactly its texts.
pub fn pages_tell_their_texts()
    ensures { PagesTellTheirTexts }
{}
