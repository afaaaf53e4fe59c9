//! Groups among statements.
#![tactic(auto, using(crate::proofs::Innermost::innermost))]

ghost use Rattle.std.specs.Prelude.{◌≡◌, ◌<◌, ◌∷◌, [], Some, IfSome, IfOk, MatchOption, option_map, vec_len};
ghost use Rattle.c_tree.specs.Tree.{Done};
ghost use Rattle.c_tree.specs.View.{front};
ghost use Rattle.c_grammar.specs.Machine as machine;
ghost use Rattle.reading_states.specs.Views.{Moves, as_link, as_links, as_stack, as_state};

use crate::lists::{choice, only};
use crate::states::ReadingState;
use crate::unfinished::{Link, Stack};
use c_tree::Stmt;
use fam_outer::NoMemory;
use std::alloc::Global;

/// No part is before.
fn no_links(alloc: Global) -> Vec<Link>
    ensures { as_links result.items ≡ [] }
{
    Vec::new(alloc)
}

/// One more part is before.
fn with_link(mut links: Vec<Link>, link: Link) -> Result<Vec<Link>, NoMemory>
    ensures { IfOk result (λ made. as_links made.items ≡ as_link link ∷ as_links links.items) }
{
    links.push(link)?;
    Ok(links)
}

/// The last of the parts before, taken out.
fn take_link(links: &mut Vec<Link>) -> Option<Link>
    ensures taken { MatchOption result ((as_links links.old.items ≡ []) × (as_links links.new.items ≡ []))
        (λ link. as_links links.old.items ≡ as_link link ∷ as_links links.new.items) }
    ensures fewer { IfSome result (λ link. vec_len links.new < vec_len links.old) }
{
    links.pop()
}

/// The earlier parts of a section around its later ones.
fn linked(alloc: Global, mut links: Vec<Link>, later: Stmt) -> Result<Stmt, NoMemory>
    ensures { IfOk result (λ made. front made Done
        ≡ machine.linked (as_links links.items) (front later Done)) }
{
    match take_link(&mut links) {
        None => Ok(later),
        Some(Link { number, made }) => {
            let no = only(alloc, later)?;
            linked(alloc, links, choice(number, made, no))
        }
    }
}

/// The first part of a section in a list.
fn part_in(alloc: Global, number: u32, outer: Stack) -> Result<Option<ReadingState>, NoMemory>
    ensures { Moves result (Some (machine.Ready (machine.Yes [] number Done (as_stack outer)))) }
{
    let outer = Stack::Yes {
        links: no_links(alloc),
        number,
        made: Vec::new(alloc),
        outer: Box::new(alloc, outer)?,
    };
    Ok(Some(ReadingState::Ready { outer }))
}

/// A section of groups, where a list is open.
pub fn opened(alloc: Global, number: u32, outer: Stack) -> Result<Option<ReadingState>, NoMemory>
    ensures { Moves result (machine.opened number (as_stack outer)) }
{
    match outer {
        Stack::ThenOf { .. } | Stack::ElseOf { .. } | Stack::LoopOf { .. } | Stack::DoOf { .. } =>
            Ok(None),
        list => part_in(alloc, number, list),
    }
}

/// The next part with a condition.
pub fn next_part(alloc: Global, number: u32, outer: Stack) -> Result<Option<ReadingState>, NoMemory>
    ensures { Moves result (machine.next_part number (as_stack outer)) }
{
    match outer {
        Stack::Yes {
            links,
            number: before,
            made,
            outer,
        } => {
            let link = Link {
                number: before,
                made,
            };
            let links = with_link(links, link)?;
            Ok(Some(ReadingState::Ready {
                outer: Stack::Yes {
                    links,
                    number,
                    made: Vec::new(alloc),
                    outer,
                },
            }))
        }
        _ => Ok(None),
    }
}

/// The part behind `#else`.
pub fn last_part(alloc: Global, outer: Stack) -> Option<ReadingState>
    ensures { option_map as_state result ≡ machine.last_part (as_stack outer) }
{
    match outer {
        Stack::Yes {
            links,
            number,
            made,
            outer,
        } => Some(ReadingState::Ready {
            outer: Stack::No {
                links,
                number,
                first: made,
                made: Vec::new(alloc),
                outer,
            },
        }),
        _ => None,
    }
}

/// The section with this last choice ends.
fn section(
    alloc: Global,
    links: Vec<Link>,
    last: Stmt,
    outer: Box<Stack>,
) -> Result<Option<ReadingState>, NoMemory>
    ensures { Moves result (Some (machine.Ended (as_stack outer.value)
        (machine.linked (as_links links.items) (front last Done)))) }
{
    let statement = linked(alloc, links, last)?;
    let outer = Box::into_inner(outer);
    Ok(Some(ReadingState::Ended { outer, statement }))
}

/// The end of a section.
pub fn group_end(alloc: Global, outer: Stack) -> Result<Option<ReadingState>, NoMemory>
    ensures { Moves result (machine.group_end (as_stack outer)) }
{
    match outer {
        Stack::Yes {
            links,
            number,
            made,
            outer,
        } => section(alloc, links, choice(number, made, Vec::new(alloc)), outer),
        Stack::No {
            links,
            number,
            first,
            made,
            outer,
        } => section(alloc, links, choice(number, first, made), outer),
        _ => Ok(None),
    }
}
