//! The heads of declarations: what stands before the type, its words, and the name of a variable or of a function.
#![tactic(auto)]

ghost use Rattle.std.specs.Prelude.{◌≡◌, Some, option_map};
ghost use Rattle.c_grammar.specs.Grammar as grammar;
ghost use Rattle.c_grammar.specs.Machine as machine;
ghost use Rattle.reading_states.specs.Views.{as_leading, as_qualifier, as_sections, as_state, as_words};

use c_grammar::Sign;
use c_tree::Declared;
use reading_states::marks::{at_function, at_void_function};
use reading_states::states::{Aim, ReadingState, Sections};
use reading_states::words::{Leading, Qualifier, TypeWords, is_second_word};

/// The first word of a type.
pub fn first_word(
    leading: Leading,
    sections: Sections,
    declared: Vec<Declared>,
    sign: Sign,
) -> Option<ReadingState>
    ensures { option_map as_state result
        ≡ machine.first_word (as_leading leading) (as_sections sections) declared.items sign }
{
    let words = match sign {
        Sign::Int => TypeWords::OneInt,
        Sign::Int32 => TypeWords::WholeType,
        Sign::Signed => TypeWords::OneSigned,
        _ => return None,
    };
    Some(ReadingState::AfterType {
        leading,
        words,
        sections,
        declared,
    })
}

/// Behind `static`: `const`, or the first word of a type.
pub fn behind_static(
    sections: Sections,
    declared: Vec<Declared>,
    sign: Sign,
) -> Option<ReadingState>
    ensures { option_map as_state result ≡ machine.behind_static (as_sections sections) declared.items sign }
{
    match sign {
        Sign::Const => Some(ReadingState::AfterConst { sections, declared }),
        other => first_word(Leading::StaticWord, sections, declared, other),
    }
}

/// Behind `extern`: `void`, or the first word of a type.
pub fn behind_extern(
    sections: Sections,
    declared: Vec<Declared>,
    sign: Sign,
) -> Option<ReadingState>
    ensures { option_map as_state result ≡ machine.behind_extern (as_sections sections) declared.items sign }
{
    match sign {
        Sign::Void => Some(ReadingState::AfterVoidType { sections, declared }),
        other => first_word(Leading::ExternWord, sections, declared, other),
    }
}

/// Behind `void`: the name of a function other than `input`, whose value is an `int`.
pub fn behind_void(sections: Sections, declared: Vec<Declared>, sign: Sign) -> Option<ReadingState>
    ensures { option_map as_state result ≡ machine.at_void_function
        (machine.Parameters (machine.ToPrototype (as_sections sections) declared.items)) sign }
{
    let aim = Aim::ToPrototype { sections, declared };
    at_void_function(ReadingState::Parameters { aim }, sign)
}

/// Behind `enum`: its brace. The first constant is 0.
pub fn after_enum(sections: Sections, declared: Vec<Declared>, sign: Sign) -> Option<ReadingState>
    ensures { option_map as_state result ≡ machine.after_enum (as_sections sections) declared.items sign }
{
    match sign {
        Sign::LeftBrace => Some(ReadingState::Declaring {
            kind: Qualifier::Counted(-1),
            sections,
            declared,
        }),
        _ => None,
    }
}

/// Where a declarator comes.
pub fn declaring(
    kind: Qualifier,
    sections: Sections,
    declared: Vec<Declared>,
    sign: Sign,
) -> Option<ReadingState>
    ensures { option_map as_state result
        ≡ machine.declaring (as_qualifier kind) (as_sections sections) declared.items sign }
{
    match sign {
        Sign::Name(name) => Some(ReadingState::Bare {
            kind,
            name,
            sections,
            declared,
        }),
        _ => None,
    }
}

/// Behind a type, where constants are declared.
fn constants(sections: Sections, declared: Vec<Declared>) -> Option<ReadingState>
    ensures { option_map as_state result
        ≡ Some (machine.Declaring grammar.Constant (as_sections sections) declared.items) }
{
    Some(ReadingState::Declaring {
        kind: Qualifier::Constant,
        sections,
        declared,
    })
}

/// Behind `static` and a type: `const`, or the name of a variable.
fn qualifying(sections: Sections, declared: Vec<Declared>, sign: Sign) -> Option<ReadingState>
    ensures { option_map as_state result ≡ machine.qualifying (as_sections sections) declared.items sign }
{
    match sign {
        Sign::Const => constants(sections, declared),
        other => declaring(Qualifier::Unqualified, sections, declared, other),
    }
}

/// Behind `int main`, which stands outside every group.
fn main_of(sections: Sections, declared: Vec<Declared>) -> Option<ReadingState>
    ensures { option_map as_state result ≡ machine.main_of (as_sections sections) declared.items }
{
    match sections {
        Sections::Outermost => Some(ReadingState::Parameters {
            aim: Aim::ToMain { declared },
        }),
        _other => None,
    }
}

/// `const`, or the name of a variable or of a function.
fn naming(sections: Sections, declared: Vec<Declared>, sign: Sign) -> Option<ReadingState>
    ensures { option_map as_state result ≡ machine.naming (as_sections sections) declared.items sign }
{
    match sign {
        Sign::Const => constants(sections, declared),
        Sign::Name(name) => Some(ReadingState::Bare {
            kind: Qualifier::Unqualified,
            name,
            sections,
            declared,
        }),
        Sign::Input | Sign::Function(_) => Some(ReadingState::Parameters {
            aim: Aim::ToPrototype { sections, declared },
        }),
        Sign::Main => main_of(sections, declared),
        _ => None,
    }
}

/// What follows the type of a declaration.
fn behind_type(
    leading: Leading,
    sections: Sections,
    declared: Vec<Declared>,
    sign: Sign,
) -> Option<ReadingState>
    ensures { option_map as_state result
        ≡ machine.behind_type (as_leading leading) (as_sections sections) declared.items sign }
{
    match leading {
        Leading::NoWord => naming(sections, declared, sign),
        Leading::StaticWord => qualifying(sections, declared, sign),
        Leading::ConstWord => declaring(Qualifier::Constant, sections, declared, sign),
        Leading::ExternWord => {
            let aim = Aim::ToPrototype { sections, declared };
            at_function(ReadingState::Parameters { aim }, sign)
        }
    }
}

/// Another word of the type, or what follows it.
#[tactic(auto, using(crate::proofs::MoreWords::second_word, crate::proofs::MoreWords::no_second_word))]
pub fn after_type(
    leading: Leading,
    sections: Sections,
    declared: Vec<Declared>,
    sign: Sign,
    words: TypeWords,
) -> Option<ReadingState>
    ensures { option_map as_state result
        ≡ machine.after_type (as_leading leading) (as_sections sections) declared.items sign (as_words words) }
{
    if is_second_word(sign, words) {
        Some(ReadingState::AfterType {
            leading,
            words: TypeWords::WholeType,
            sections,
            declared,
        })
    } else {
        behind_type(leading, sections, declared, sign)
    }
}
