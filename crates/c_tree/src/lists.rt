//! The lists of a program: names, guards and declarations.
#![tactic(auto)]

ghost use Rattle.std.specs.Prelude.{◌≡◌, IfOk};

use fam_outer::{NoMemory, Text};
use std::alloc::Global;
use std::marker::Model;

/// The names of the variables, in the order of their declaration.
#[derive(Debug, Drop)]
pub struct Names {
    list: Vec<Text>,
}

impl Model for Names {
    ghost use Rattle.std.specs.Prelude.{List, ℕ};

    ghost Value = { List (List ℕ) };

    ghost view = { λ names. names.list.items };
}

impl Names {
    /// These names.
    pub fn from_vec(list: Vec<Text>) -> Names
        ensures { result ≡ list.items }
    {
        Names { list }
    }

    /// A copy of the names.
    pub fn copy(&self, alloc: Global) -> Result<Names, NoMemory>
        ensures { IfOk result (λ made. made ≡ self.now) }
    {
        let mut list = Vec::new(alloc);
        for name in self.items() {
            list.push(name.copy(alloc)?)?;
        }
        Ok(Names { list })
    }

    /// The names.
    pub fn items(&self) -> &[Text]
        ensures { result.now ≡ self.now }
    {
        self.list.as_slice()
    }
}

/// What a group asks of the truths of the conditions: that the truth of this number is
/// `positive`.
#[derive(Clone, Copy, Debug, PartialEq, Eq)]
pub struct Guard {
    pub number: u32,
    pub positive: bool,
}

/// The guards of a declarator, those of an outer group before those of an inner one.
#[derive(Debug, Drop)]
pub struct Guards {
    list: Vec<Guard>,
}

impl Model for Guards {
    ghost use Rattle.std.specs.Prelude.{List};
    ghost use Rattle.c_tree.specs.declared.lists.Guard.{Guard};

    ghost Value = { List Guard };

    ghost view = { λ guards. guards.list.items };
}

impl Guards {
    /// These guards.
    pub fn from_vec(list: Vec<Guard>) -> Guards
        ensures { result ≡ list.items }
    {
        Guards { list }
    }

    /// A copy of the guards.
    pub fn copy(&self, alloc: Global) -> Result<Guards, NoMemory>
        ensures { IfOk result (λ made. made ≡ self.now) }
    {
        let list = Vec::from_slice(alloc, self.items())?;
        Ok(Guards { list })
    }

    /// The guards.
    pub fn items(&self) -> &[Guard]
        ensures { result.now ≡ self.now }
    {
        self.list.as_slice()
    }
}

/// A declarator in the code of a family: the variable, its start value, and the guards of the
/// groups around it.
#[derive(Debug, Drop)]
pub struct Declared {
    pub target: u32,
    pub value: i64,
    pub guards: Guards,
}

/// The declarators of a family, in the order of its text.
#[derive(Debug, Drop)]
pub struct Declarations {
    list: Vec<Declared>,
}

impl Model for Declarations {
    ghost use Rattle.std.specs.Prelude.{List};
    ghost use Rattle.c_tree.specs.declared.lists.Declared.{Declared};

    ghost Value = { List Declared };

    ghost view = { λ declarations. declarations.list.items };
}

impl Declarations {
    /// These declarators.
    pub fn from_vec(list: Vec<Declared>) -> Declarations
        ensures { result ≡ list.items }
    {
        Declarations { list }
    }

    /// A copy of the declarators.
    pub fn copy(&self, alloc: Global) -> Result<Declarations, NoMemory>
        ensures { IfOk result (λ made. made ≡ self.now) }
    {
        let mut list = Vec::new(alloc);
        for d in self.items() {
            let guards = d.guards.copy(alloc)?;
            list.push(Declared {
                target: d.target,
                value: d.value,
                guards,
            })?;
        }
        Ok(Declarations { list })
    }

    /// The declarators.
    pub fn items(&self) -> &[Declared]
        ensures { result.now ≡ self.now }
    {
        self.list.as_slice()
    }
}
