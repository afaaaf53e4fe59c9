//! The names that a file declares as constants, and those that it changes, item by item.
#![tactic(auto)]

ghost use Rattle.std.specs.Prelude.{◌≡◌, List, [], ◌∷◌, ◌++◌};
ghost use Rattle.c_grammar.specs.declared.constants.NameKind.TheVariants as kinds;
ghost use Rattle.c_grammar.specs.declared.items.Item as items;
ghost use Rattle.c_grammar.specs.Changes as changes;
ghost use Rattle.c_grammar.specs.Classes.{class_of};
ghost use Rattle.c_grammar.specs.Constants as specs;
ghost use Rattle.c_grammar.specs.Functions as functions;
ghost use Rattle.c_grammar.specs.Locals as locals;
ghost use Rattle.c_grammar.specs.Scopes as scopes;
ghost use Rattle.c_grammar.specs.Statics as statics;

use crate::items::{Item, Sign};
use fam_outer::Place;

/// What a name is that comes next: a variable's, a constant's in a declaration with `const` or `enum` that goes on, or that
/// of a definition, which is a constant's too.
#[derive(Clone, Copy, Debug, PartialEq, Eq)]
enum NameKind {
    Variable,
    Constant,
    Defined,
}

/// Of which class a name is by its first declaration: a variable's or a constant's that stands before `main`, or that of a
/// local, which `main` declares, with `const` or without.
#[derive(Clone, Copy, Debug, PartialEq, Eq)]
pub enum NameClass {
    Variable,
    Local,
    Constant,
}

impl NameClass {
    /// The class of a declaration in `main` or before it, as a constant or a variable.
    pub fn of(in_main: bool, is_constant: bool) -> NameClass
        ensures { result ≡ class_of in_main is_constant }
    {
        if in_main {
            NameClass::Local
        } else if is_constant {
            NameClass::Constant
        } else {
            NameClass::Variable
        }
    }
}

/// Whether such a name is a constant's.
fn is_constant(kind: NameKind) -> bool
    ensures { result ≡ specs.is_constant kind }
{
    match kind {
        NameKind::Variable => false,
        NameKind::Constant | NameKind::Defined => true,
    }
}

/// What the next name is behind a name of this kind: a definition has one.
fn kind_behind_name(kind: NameKind) -> NameKind
    ensures { result ≡ specs.kind_behind_name kind }
{
    match kind {
        NameKind::Variable | NameKind::Defined => NameKind::Variable,
        NameKind::Constant => NameKind::Constant,
    }
}

/// What the next name is behind a sign, where it would have been of this kind before it.
fn kind_behind(kind: NameKind, sign: Sign) -> NameKind
    ensures { result ≡ specs.kind_behind kind sign }
{
    match sign {
        Sign::Const | Sign::Enum => NameKind::Constant,
        Sign::Define => NameKind::Defined,
        Sign::Semicolon => NameKind::Variable,
        Sign::Name(_name) => kind_behind_name(kind),
        _ => kind,
    }
}

/// Whether the sign changes the name before it.
fn is_change(sign: Sign) -> bool
    ensures { result ≡ changes.is_change sign }
{
    matches!(
        sign,
        Sign::Equals
            | Sign::PlusEquals
            | Sign::MinusEquals
            | Sign::StarEquals
            | Sign::SlashEquals
            | Sign::PercentEquals
            | Sign::PlusPlus
            | Sign::MinusMinus
    )
}

/// The name with its place, where it is changed.
fn name_at(is_changed: bool, sign: Sign, place: Place) -> Option<(u32, Place)>
    ensures { result ≡ changes.name_at is_changed sign place }
{
    match sign {
        Sign::Name(name) if is_changed => Some((name, place)),
        _ => None,
    }
}

/// The name that an item changes together with the one before it, and its place: a name before `=`, `+=` and the like, `++`
/// or `--`, or behind `++` or `--` (ISO/IEC 9899:2011, 6.5.2.4, 6.5.3.1 and 6.5.16).
fn changed_behind(last: Option<Item>, item: Item) -> Option<(u32, Place)>
    ensures { result ≡ changes.changed_behind last item }
{
    let last = last?;
    match last.sign {
        Sign::PlusPlus | Sign::MinusMinus => name_at(true, item.sign, item.place),
        _ => name_at(is_change(item.sign), last.sign, last.place),
    }
}

/// Whether a name in `main` is declared behind the sign (ISO/IEC 9899:2011, 6.7.6): a comma stands there in declarations alone.
fn is_declaring(sign: Sign) -> bool
    ensures { result ≡ locals.is_declaring sign }
{
    matches!(
        sign,
        Sign::Int | Sign::Int32 | Sign::Signed | Sign::Const | Sign::Comma
    )
}

/// The name in whose declarator the next item stands, behind a sign that stands behind a word of a declaration or not, in the
/// declarator of such a name or in none.
fn opened_by(is_declaring: bool, opened: Option<u32>, sign: Sign) -> Option<u32>
    ensures { result ≡ locals.opened_by is_declaring opened sign }
{
    match sign {
        Sign::Name(name) if is_declaring => Some(name),
        Sign::Comma | Sign::Semicolon => None,
        _ => opened,
    }
}

/// Whether a static declaration goes on behind a sign, where one goes on before it or not.
fn static_behind(is_static: bool, sign: Sign) -> bool
    ensures { result ≡ statics.static_behind is_static sign }
{
    match sign {
        Sign::Static => true,
        Sign::Semicolon => false,
        _ => is_static,
    }
}

/// What the items so far tell of the next one: the last of them, what a name is that comes next, the name in whose declarator it
/// stands, and whether it stands in a static declaration.
#[derive(Clone, Copy, Debug, PartialEq, Eq)]
pub struct Track {
    last: Option<Item>,
    kind: NameKind,
    opened: Option<u32>,
    is_static: bool,
}

impl Track {
    /// Before the first item.
    pub fn new() -> Track
        ensures { changes.IsTrack [] result }
    {
        Track {
            last: None,
            kind: NameKind::Variable,
            opened: None,
            is_static: false,
        }
    }

    /// Goes on behind an item.
    pub fn follow(&mut self, item: Item)
        ensures { (before : List items.Item) → changes.IsTrack before self.old
            → changes.IsTrack (before ++ item ∷ []) self.new }
    {
        self.opened = opened_by(self.declares(), self.opened, item.sign);
        self.last = Some(item);
        self.kind = kind_behind(self.kind, item.sign);
        self.is_static = static_behind(self.is_static, item.sign);
    }

    /// Whether a name that comes next in `main` is declared.
    pub fn declares(&self) -> bool
        ensures { (before : List items.Item) → changes.IsTrack before self.now
            → result ≡ locals.declares_behind before }
    {
        match self.last {
            Some(last) => is_declaring(last.sign),
            None => false,
        }
    }

    /// The name in whose declarator the next item stands, if it stands in one.
    pub fn open(&self) -> Option<u32>
        ensures { (before : List items.Item) → changes.IsTrack before self.now
            → result ≡ locals.open_behind before }
    {
        self.opened
    }

    /// Whether a name that comes next is a constant's.
    pub fn is_constant(&self) -> bool
        ensures { (before : List items.Item) → changes.IsTrack before self.now
            → result ≡ specs.is_constant (specs.kind_after kinds.Variable before) }
    {
        is_constant(self.kind)
    }

    /// Whether a name that comes next in `main` is declared as static, where it is declared.
    pub fn is_static(&self) -> bool
        ensures { (before : List items.Item) → changes.IsTrack before self.now
            → result ≡ scopes.is_static_behind before }
    {
        self.is_static
    }

    /// Whether the last item is `void`, so that a function that comes next is declared without a value.
    pub fn is_behind_void(&self) -> bool
        ensures { (before : List items.Item) → changes.IsTrack before self.now
            → result ≡ functions.stands_behind functions.is_void before }
    {
        matches!(
            self.last,
            Some(Item {
                sign: Sign::Void,
                ..
            })
        )
    }

    /// Whether the last item is `=`, so that a value is wanted of a function that comes next.
    pub fn is_behind_equals(&self) -> bool
        ensures { (before : List items.Item) → changes.IsTrack before self.now
            → result ≡ functions.stands_behind functions.is_equals before }
    {
        matches!(
            self.last,
            Some(Item {
                sign: Sign::Equals,
                ..
            })
        )
    }

    /// The name that an item changes together with the one before it, and its place: in a declarator there is none.
    pub fn change(&self, item: Item) -> Option<(u32, Place)>
        ensures { (before : List items.Item) → changes.IsTrack before self.now
            → result ≡ changes.changed_at before item }
    {
        match self.opened {
            Some(_opened) => None,
            None => changed_behind(self.last, item),
        }
    }
}
