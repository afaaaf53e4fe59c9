//! Signs in the parentheses of a `for`, where one of its parts begins.
#![tactic(auto)]

ghost use Rattle.std.specs.Prelude.{◌≡◌, [], Some, option_map};
ghost use Rattle.c_tree.specs.Tree.{Done};
ghost use Rattle.c_tree.specs.View.{term};
ghost use Rattle.c_grammar.specs.Grammar as grammar;
ghost use Rattle.c_grammar.specs.Machine as machine;
ghost use Rattle.reading_states.specs.Views.{Moves, as_site, as_stack, as_start, as_state, as_words};

use crate::expressions::want;
use c_grammar::Sign;
use c_tree::Expr;
use fam_outer::{NoMemory, Place};
use reading_states::frames::no_frames;
use reading_states::scopes::for_scope;
use reading_states::states::ReadingState;
use reading_states::unfinished::{Purpose, Site, Stack, Start};
use reading_states::words::{Count, Qualifier, TypeWords};
use std::alloc::Global;

/// A change begins.
fn changing(site: Site, place: Place, sign: Sign) -> Option<ReadingState>
    ensures { option_map as_state result ≡ machine.changing (as_site site) place sign }
{
    let count = match sign {
        Sign::Name(target) => {
            return Some(ReadingState::Named {
                place,
                target,
                site,
            });
        }
        Sign::PlusPlus => Count::Raise,
        Sign::MinusMinus => Count::Lower,
        _ => {
            drop(site);
            return None;
        }
    };
    Some(ReadingState::Counting { place, count, site })
}

/// Nothing stands before the first test.
fn no_start(alloc: Global, outer: Stack) -> Option<ReadingState>
    ensures { option_map as_state result
        ≡ Some (machine.TestComes (machine.ChangeStart Done) (as_stack outer)) }
{
    let made = Vec::new(alloc);
    Some(ReadingState::TestComes {
        start: Start::ChangeStart { made },
        outer,
    })
}

/// `const` of a declaration before the first test.
fn const_in_for(alloc: Global, first: Place, outer: Stack) -> Option<ReadingState>
    ensures { option_map as_state result
        ≡ Some (machine.LocalConst (machine.ForScope first Done (as_stack outer))) }
{
    let scope = for_scope(alloc, first, outer);
    Some(ReadingState::LocalConst { scope })
}

/// The first word of the type of a declaration before the first test.
fn type_in_for(alloc: Global, first: Place, outer: Stack, words: TypeWords) -> Option<ReadingState>
    ensures { option_map as_state result
        ≡ Some (machine.LocalType grammar.Unqualified (as_words words)
        (machine.ForScope first Done (as_stack outer))) }
{
    Some(ReadingState::LocalType {
        kind: Qualifier::Unqualified,
        words,
        scope: for_scope(alloc, first, outer),
    })
}

/// What stands before the first test comes, or the semicolon behind nothing.
pub fn start_comes(
    alloc: Global,
    first: Place,
    outer: Stack,
    place: Place,
    sign: Sign,
) -> Option<ReadingState>
    ensures { option_map as_state result ≡ machine.start_comes first (as_stack outer) place sign }
{
    match sign {
        Sign::Semicolon => no_start(alloc, outer),
        Sign::Const => const_in_for(alloc, first, outer),
        Sign::Int => type_in_for(alloc, first, outer, TypeWords::OneInt),
        Sign::Int32 => type_in_for(alloc, first, outer, TypeWords::WholeType),
        Sign::Signed => type_in_for(alloc, first, outer, TypeWords::OneSigned),
        _ => changing(Site::AsStart { outer }, place, sign),
    }
}

/// The test comes: the sign is its first one.
fn first_of_test(
    alloc: Global,
    start: Start,
    outer: Stack,
    place: Place,
    sign: Sign,
) -> Result<Option<ReadingState>, NoMemory>
    ensures { Moves result (machine.want []
        (machine.ToRepeat (as_start start) place (as_stack outer)) sign) }
{
    let purpose = Purpose::ToRepeat {
        start,
        place,
        outer,
    };
    want(no_frames(alloc), purpose, sign)
}

/// The test comes, or the semicolon behind none. The loop has the place of what comes.
pub fn test_comes(
    alloc: Global,
    start: Start,
    outer: Stack,
    place: Place,
    sign: Sign,
) -> Result<Option<ReadingState>, NoMemory>
    ensures { Moves result (machine.test_comes (as_start start) (as_stack outer) place sign) }
{
    match sign {
        Sign::Semicolon => Ok(Some(ReadingState::StepComes {
            start,
            place,
            test: Expr::Number(1),
            outer,
        })),
        _ => first_of_test(alloc, start, outer, place, sign),
    }
}

/// The step comes, or the closing parenthesis behind none.
pub fn step_comes(
    alloc: Global,
    start: Start,
    first: Place,
    test: Expr,
    outer: Stack,
    place: Place,
    sign: Sign,
) -> Result<Option<ReadingState>, NoMemory>
    ensures { Moves result (machine.step_comes (as_start start) first (term test) (as_stack outer) place sign) }
{
    match sign {
        Sign::Close => {
            let outer = Stack::LoopOf {
                start,
                place: first,
                test,
                advance: Vec::new(alloc),
                outer: Box::new(alloc, outer)?,
            };
            Ok(Some(ReadingState::Ready { outer }))
        }
        _ => {
            let site = Site::AsStep {
                start,
                place: first,
                test,
                outer,
            };
            Ok(changing(site, place, sign))
        }
    }
}
