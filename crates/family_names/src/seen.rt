//! What is known of names behind some items.
#![tactic(auto)]

ghost use Rattle.std.specs.Prelude.{◌≡◌, ℕ, Bool, List, [], IfOk, OnOk};
ghost use Rattle.std.specs.List.{All};
ghost use Rattle.cpp_conditions.specs.Propositions.{IsBelow, true_on};
ghost use Rattle.cpp_conditions.specs.View.{formula};
ghost use Rattle.c_grammar.specs.declared.items.Item as items;
ghost use Rattle.c_grammar.specs.Changes as changes;
ghost use Rattle.c_grammar.specs.Scoped.{IsSound};
ghost use Rattle.family_names.specs.Declarations.{is_declared, has_one};
ghost use Rattle.family_names.specs.Names.{truths_on, is_among, is_used_behind};
ghost use Rattle.family_names.specs.Judging as judging;

use crate::declarations::{Declaration, add_declaration, declaring_any, has_one};
use crate::functions::Functions;
use crate::groups::Groups;
use crate::locals::Locals;
use c_grammar::{NameClass, Scoped, Track};
use cpp_conditions::Formula;
use fam_outer::NoMemory;
use std::alloc::Global;

/// What is known behind some items: the groups that stand there, whether `main` is among the items, the names that they
/// declare, each once, all of them and those of each class, their declarations whose block is open, those of `main` whatever
/// block they stand in, and those of functions.
#[derive(Drop)]
pub(crate) struct Seen {
    pub(crate) groups: Groups,
    pub(crate) in_main: bool,
    pub(crate) names: Vec<u32>,
    pub(crate) variables: Vec<u32>,
    pub(crate) locals: Vec<u32>,
    pub(crate) constants: Vec<u32>,
    pub(crate) declarations: Scoped<Declaration>,
    pub(crate) local_declarations: Locals,
    pub(crate) functions: Functions,
}

/// Whether a number is among these.
pub(crate) fn contains(numbers: &[u32], number: u32) -> bool
    ensures { result ≡ is_among number numbers.now }
{
    for other in numbers {
        if number == *other {
            return true;
        }
    }
    false
}

impl Seen {
    /// Nothing, before the first item. It takes no memory.
    pub(crate) fn new(alloc: Global) -> Seen
        ensures { judging.IsSeen [] result }
    {
        Seen {
            groups: Groups::new(alloc),
            in_main: false,
            names: Vec::new(alloc),
            variables: Vec::new(alloc),
            locals: Vec::new(alloc),
            constants: Vec::new(alloc),
            declarations: Scoped::new(alloc),
            local_declarations: Locals::new(alloc),
            functions: Functions::new(alloc),
        }
    }

    /// Whether a name that comes next is used: it stands in `main`, and not where a name is declared.
    #[tactic(auto, using(crate::proofs::Walking::used_next))]
    pub(crate) fn uses_next(&self, track: Track) -> bool
        ensures { (before : List items.Item) → judging.IsSeen before self.now
            → changes.IsTrack before track
            → result ≡ is_used_behind before }
    {
        self.in_main && !track.declares()
    }

    /// The names of a class.
    pub(crate) fn names_in(&self, class: NameClass) -> &[u32]
        ensures { result.now ≡ judging.names_in class self.now }
    {
        match class {
            NameClass::Variable => self.variables.as_slice(),
            NameClass::Local => self.locals.as_slice(),
            NameClass::Constant => self.constants.as_slice(),
        }
    }

    /// Adds a name of this class, if it is new.
    fn add_name(&mut self, class: NameClass, name: u32) -> Result<(), NoMemory>
        ensures named { OnOk result (judging.HasName self.old class name self.new) }
        ensures declarations { OnOk result (self.new.declarations ≡ self.old.declarations) }
        ensures locals { OnOk result (self.new.local_declarations ≡ self.old.local_declarations) }
    {
        if contains(&self.names, name) {
            return Ok(());
        }
        match class {
            NameClass::Variable => self.variables.push(name)?,
            NameClass::Local => self.locals.push(name)?,
            NameClass::Constant => self.constants.push(name)?,
        }
        self.names.push(name)?;
        Ok(())
    }

    /// Whether a declaration, in whatever groups, has the name, which the next one, static or not, may not repeat.
    pub(crate) fn is_taken(&self, is_static: bool, name: u32) -> bool
        ensures { result ≡ has_one (judging.taken_in is_static self.now) name }
    {
        has_one(self.declarations.items(), name)
            || has_one(self.local_declarations.barring(is_static), name)
    }

    /// That such a declaration is kept.
    pub(crate) fn taking(
        &self,
        alloc: Global,
        conditions: &[Formula],
        is_static: bool,
        name: u32,
    ) -> Result<Formula, NoMemory>
        ensures truth { IfOk result (λ made. (v : List Bool)
            → is_declared (truths_on conditions.now v) (judging.taken_in is_static self.now) name ≡ true_on v (formula made)) }
        ensures below { IfOk result (λ made. (count : ℕ) → All (λ f. IsBelow count (formula f)) conditions.now
            → IsBelow count (formula made)) }
    {
        let in_scope = self.declarations.items();
        let barring = self.local_declarations.barring(is_static);
        declaring_any(alloc, conditions, in_scope, barring, name)
    }

    /// Adds a declaration in the groups that stand here, as static or not, of this class if its name is new.
    pub(crate) fn add(
        &mut self,
        alloc: Global,
        class: NameClass,
        is_static: bool,
        name: u32,
    ) -> Result<(), NoMemory>
        ensures { IsSound self.old.declarations → OnOk result (judging.Adds self.old class is_static name self.new) }
    {
        self.add_name(class, name)?;
        let groups = &self.groups;
        let locals = &mut self.local_declarations;
        locals.add(alloc, groups, self.in_main, is_static, name)?;
        add_declaration(alloc, &mut self.declarations, groups, name)
    }
}
