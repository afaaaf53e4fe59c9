//! Signs where a statement may begin, and behind a name at its front.
#![tactic(auto)]

ghost use Rattle.std.specs.Prelude.{◌≡◌, [], Some, option_map};
ghost use Rattle.c_tree.specs.Tree.{Done, Skip};
ghost use Rattle.c_tree.specs.View.{front};
ghost use Rattle.c_grammar.specs.Grammar as grammar;
ghost use Rattle.c_grammar.specs.Machine as machine;
ghost use Rattle.reading_states.specs.Views.{Moves, as_count, as_onward, as_purpose, as_site, as_stack, as_state, as_update};

use crate::expressions::expected;
use crate::jumps::{do_in, leaving, return_in};
use crate::locals::{const_in, type_in};
use crate::statics::static_in;
use c_grammar::Sign;
use c_tree::{Jump, Stmt};
use fam_outer::{NoMemory, Place};
use reading_states::changes::changed_by_one;
use reading_states::groups::{group_end, last_part, next_part, opened};
use reading_states::lists::block;
use reading_states::marks::at_while;
use reading_states::stacks::{else_of, placed};
use reading_states::states::{File, ReadingState};
use reading_states::unfinished::{Onward, Pending, Purpose, Site, Stack};
use reading_states::words::{Count, TypeWords, Update};
use std::alloc::Global;

/// A closing brace: a block ends, or `main`.
#[tactic(auto, using(reading_states::proofs::Parts::parts, reading_states::proofs::Holding::holding))]
fn braced(alloc: Global, outer: Stack, end: Place) -> Option<ReadingState>
    ensures { option_map as_state result ≡ machine.braced (as_stack outer) end }
{
    match outer {
        Stack::Top { declared, made } => Some(ReadingState::Over {
            file: File {
                declared,
                body: made,
                end,
            },
            parts: Vec::new(alloc),
        }),
        Stack::Braces { place, made, outer } => Some(ReadingState::Ended {
            outer: Box::into_inner(outer),
            statement: block(place, made),
        }),
        _ => None,
    }
}

/// A block begins.
fn block_in(alloc: Global, outer: Stack, place: Place) -> Result<Option<ReadingState>, NoMemory>
    ensures { Moves result (Some (machine.Ready (machine.Braces place Done (as_stack outer)))) }
{
    let outer = Stack::Braces {
        place,
        made: Vec::new(alloc),
        outer: Box::new(alloc, outer)?,
    };
    Ok(Some(ReadingState::Ready { outer }))
}

/// A call whose value is dropped.
fn called(outer: Stack, place: Place) -> Option<ReadingState>
    ensures { option_map as_state result
        ≡ Some (machine.CallOpens
        (machine.OfStatement (machine.AsStatement (as_stack outer)) (Skip place Done))) }
{
    let pending = Pending::OfStatement {
        site: Site::AsStatement { outer },
        statement: Stmt::Skip { place },
    };
    Some(ReadingState::CallOpens { pending })
}

/// `++` or `--`: the name of a variable comes.
fn counts(place: Place, count: Count, outer: Stack) -> Option<ReadingState>
    ensures { option_map as_state result
        ≡ Some (machine.Counting place (as_count count) (machine.AsStatement (as_stack outer))) }
{
    Some(ReadingState::Counting {
        place,
        count,
        site: Site::AsStatement { outer },
    })
}

/// The word of a statement with an expression in parentheses.
fn opens(purpose: Purpose) -> Option<ReadingState>
    ensures { option_map as_state result ≡ Some (machine.Opens (as_purpose purpose)) }
{
    Some(ReadingState::Opens { purpose })
}

/// What a sign leads to where a statement may begin.
pub fn begin(
    alloc: Global,
    outer: Stack,
    place: Place,
    sign: Sign,
) -> Result<Option<ReadingState>, NoMemory>
    ensures { Moves result (machine.begin (as_stack outer) place sign) }
{
    match sign {
        Sign::Name(target) => Ok(Some(ReadingState::Named {
            place,
            target,
            site: Site::AsStatement { outer },
        })),
        Sign::Static => Ok(static_in(outer)),
        Sign::Const => Ok(const_in(outer)),
        Sign::Int => Ok(type_in(outer, TypeWords::OneInt)),
        Sign::Int32 => Ok(type_in(outer, TypeWords::WholeType)),
        Sign::Signed => Ok(type_in(outer, TypeWords::OneSigned)),
        Sign::Semicolon => Ok(Some(ReadingState::Ended {
            outer,
            statement: Stmt::Skip { place },
        })),
        Sign::Input | Sign::Function(_) => Ok(called(outer, place)),
        Sign::Open => Ok(Some(ReadingState::VoidComes { place, outer })),
        Sign::PlusPlus => Ok(counts(place, Count::Raise, outer)),
        Sign::MinusMinus => Ok(counts(place, Count::Lower, outer)),
        Sign::LeftBrace => block_in(alloc, outer, place),
        Sign::RightBrace => Ok(braced(alloc, outer, place)),
        Sign::Assert => Ok(opens(Purpose::ToAssert { place, outer })),
        Sign::If => Ok(opens(Purpose::ToChoose { place, outer })),
        Sign::While => Ok(opens(Purpose::ToLoop { place, outer })),
        Sign::For => Ok(Some(ReadingState::ForOpens { place, outer })),
        Sign::Do => do_in(alloc, outer, place),
        Sign::Break => Ok(leaving(outer, place, Jump::Break)),
        Sign::Continue => Ok(leaving(outer, place, Jump::Continue)),
        Sign::Return => Ok(Some(return_in(alloc, outer, place))),
        Sign::GroupIf(number) => opened(alloc, number, outer),
        Sign::GroupElif(number) => next_part(alloc, number, outer),
        Sign::GroupElse => Ok(last_part(alloc, outer)),
        Sign::GroupEnd => group_end(alloc, outer),
        _ => Ok(None),
    }
}

/// What a sign leads to behind a statement, where no `else` comes.
fn proceed(
    alloc: Global,
    onward: Onward,
    place: Place,
    sign: Sign,
) -> Result<Option<ReadingState>, NoMemory>
    ensures { Moves result (machine.proceed (as_onward onward) place sign) }
{
    match onward {
        Onward::InList { outer } => begin(alloc, outer, place, sign),
        Onward::AtTest {
            place: first,
            body,
            outer,
        } => {
            let next = ReadingState::RedoOpens {
                place: first,
                body,
                outer,
            };
            Ok(at_while(next, sign))
        }
    }
}

/// No `else` comes behind a statement.
fn proceed_behind(
    alloc: Global,
    outer: Stack,
    statement: Stmt,
    place: Place,
    sign: Sign,
) -> Result<Option<ReadingState>, NoMemory>
    ensures { Moves result (machine.proceed
        (machine.placed (as_stack outer) (front statement Done)) place sign) }
{
    let onward = placed(alloc, outer, statement)?;
    proceed(alloc, onward, place, sign)
}

/// What a sign leads to behind a statement.
pub fn on(
    alloc: Global,
    outer: Stack,
    statement: Stmt,
    place: Place,
    sign: Sign,
) -> Result<Option<ReadingState>, NoMemory>
    ensures { Moves result (machine.on (as_stack outer) (front statement Done) place sign) }
{
    match sign {
        Sign::Else => else_of(alloc, outer, statement),
        _ => proceed_behind(alloc, outer, statement, place, sign),
    }
}

/// `++` or `--` behind or before a name, whose end comes.
fn changed(
    alloc: Global,
    place: Place,
    target: u32,
    count: Count,
    site: Site,
) -> Result<Option<ReadingState>, NoMemory>
    ensures { Moves result (Some (machine.Finishing (machine.OfStatement (as_site site)
        (grammar.changed_by_one place target (as_count count))))) }
{
    match changed_by_one(alloc, place, target, count) {
        Ok(statement) => {
            let pending = Pending::OfStatement { site, statement };
            Ok(Some(ReadingState::Finishing { pending }))
        }
        Err(memory) => {
            drop(site);
            Err(memory)
        }
    }
}

/// What a sign leads to behind `++` or `--` at the front of a change.
pub fn counting(
    alloc: Global,
    place: Place,
    count: Count,
    site: Site,
    sign: Sign,
) -> Result<Option<ReadingState>, NoMemory>
    ensures { Moves result (machine.counting place (as_count count) (as_site site) sign) }
{
    match sign {
        Sign::Name(target) => changed(alloc, place, target, count, site),
        _ => {
            drop(site);
            Ok(None)
        }
    }
}

/// The expression of a compound assignment comes.
fn updating(alloc: Global, place: Place, target: u32, update: Update, site: Site) -> ReadingState
    ensures { as_state result
        ≡ machine.Wants [] (machine.ToUpdate place target (as_update update) (as_site site)) }
{
    let purpose = Purpose::ToUpdate {
        place,
        target,
        update,
        site,
    };
    expected(alloc, purpose)
}

/// What a sign leads to behind the name at the front of a change.
pub fn named(
    alloc: Global,
    place: Place,
    target: u32,
    site: Site,
    sign: Sign,
) -> Result<Option<ReadingState>, NoMemory>
    ensures { Moves result (machine.named place target (as_site site) sign) }
{
    let update = match sign {
        Sign::Equals => {
            let purpose = Purpose::ToAssign {
                place,
                target,
                site,
            };
            return Ok(Some(expected(alloc, purpose)));
        }
        Sign::PlusPlus => return changed(alloc, place, target, Count::Raise, site),
        Sign::MinusMinus => return changed(alloc, place, target, Count::Lower, site),
        Sign::PlusEquals => Update::Sum,
        Sign::MinusEquals => Update::Difference,
        Sign::StarEquals => Update::Product,
        Sign::SlashEquals => Update::Quotient,
        Sign::PercentEquals => Update::Remainder,
        _ => {
            drop(site);
            return Ok(None);
        }
    };
    Ok(Some(updating(alloc, place, target, update, site)))
}
