//! Tables of texts with what is told of each: a row in a line, as `TEXT => TOLD`. In TEXT `\n` stands for the end of a line. A table of
//! texts in one text is checked in a fraction of the time that a list of them takes.
#![tactic(auto)]

use std::alloc::Global;
use std::test::Fail;

/// The text of a row, and what is told of it.
pub(crate) fn parts_of<'a>(alloc: Global, row: &'a str) -> Result<(String, &'a str), Fail> {
    match row.split_once(" => ") {
        Some((text, told)) => Ok((text.replace(alloc, "\\n", "\n")?, told)),
        None => Err("no row")?,
    }
}

/// Whether a line of a table is a row: it is not empty, and no remark.
pub(crate) fn is_row(line: &str) -> bool {
    !line.is_empty() && !line.starts_with("// ")
}
