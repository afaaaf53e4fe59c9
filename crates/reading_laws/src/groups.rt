//! Laws of the groups that are kept: each function does nothing, and its contract is the law.
#![tactic(auto)]

ghost use Rattle.reading_laws.specs.Staying.{GroupsStay, ItemsAreSectioned, KeptItemsStay, KeptLinesStay, LinesAreSectioned, VariantsHaveStayingLines};

/// Of a section the first group whose condition is true stays, else that of `#else`, and none where there is none
/// (ISO/IEC 9899:2011, 6.10.1). So it is of the items of a file, and of its lines.
pub fn groups_are_kept_in_order()
    ensures some { GroupsStay }
    ensures items { KeptItemsStay }
    ensures lines { KeptLinesStay }
{}

/// The lines of a file that has no fault of a line have whole sections, and so have its items, whether they spell a program
/// or not.
pub fn files_have_whole_sections()
    ensures lines { LinesAreSectioned }
    ensures items { ItemsAreSectioned }
{}

/// The text of a variant has the lines of its file that stay, and an empty line for each other one, whether the file is
/// accepted or not.
pub fn variants_have_the_lines_that_stay()
    ensures { VariantsHaveStayingLines }
{}
