//! Regions.
#![tactic(auto)]

ghost use Rattle.std.specs.Prelude.{◌≡◌, IfOk};

use fam_outer::NoMemory;
use linear_atoms::{Config, Literal};
use std::alloc::Global;
use std::marker::Model;

/// A list of literals.
#[derive(Debug, Drop)]
pub struct Literals {
    list: Vec<Literal>,
}

impl Model for Literals {
    ghost use Rattle.std.specs.Prelude.{List};
    ghost use Rattle.linear_atoms.specs.declared.atoms.Literal.{Literal};

    ghost Value = { List Literal };

    ghost view = { λ literals. literals.list.items };
}

/// Copies of literals.
fn copies(alloc: Global, literals: &[Literal]) -> Result<Vec<Literal>, NoMemory>
    ensures { IfOk result (λ made. made.items ≡ literals.now) }
{
    let mut made = Vec::new(alloc);
    for literal in literals {
        made.push(Literal {
            atom: literal.atom.copy(alloc)?,
            positive: literal.positive,
        })?;
    }
    Ok(made)
}

impl Literals {
    /// These literals.
    pub fn from_vec(list: Vec<Literal>) -> Literals
        ensures { result ≡ list.items }
    {
        Literals { list }
    }

    /// A copy of the literals.
    pub fn copy(&self, alloc: Global) -> Result<Literals, NoMemory>
        ensures { IfOk result (λ made. made ≡ self.now) }
    {
        Ok(Literals {
            list: copies(alloc, self.items())?,
        })
    }

    /// The literals.
    pub fn items(&self) -> &[Literal]
        ensures { result.now ≡ self.now }
    {
        self.list.as_slice()
    }
}

/// The valid configurations that meet all literals, and the least of them.
#[derive(Debug, Drop)]
pub struct Region {
    pub literals: Literals,
    pub example: Config,
}

impl Region {
    /// A copy of the region.
    pub fn copy(&self, alloc: Global) -> Result<Region, NoMemory>
        ensures { IfOk result (λ made. made ≡ self.now) }
    {
        Ok(Region {
            literals: self.literals.copy(alloc)?,
            example: Config {
                values: self.example.values.copy(alloc)?,
            },
        })
    }
}

/// A list of regions.
#[derive(Debug, Drop)]
pub struct Regions {
    list: Vec<Region>,
}

impl Model for Regions {
    ghost use Rattle.std.specs.Prelude.{List};
    ghost use Rattle.alarm_report.specs.declared.region.Region.{Region};

    ghost Value = { List Region };

    ghost view = { λ regions. regions.list.items };
}

impl Regions {
    /// These regions.
    pub fn from_vec(list: Vec<Region>) -> Regions
        ensures { result ≡ list.items }
    {
        Regions { list }
    }

    /// The regions, taken out.
    pub fn into_vec(self) -> Vec<Region>
        ensures { result.items ≡ self }
    {
        self.list
    }

    /// The regions.
    pub fn items(&self) -> &[Region]
        ensures { result.now ≡ self.now }
    {
        self.list.as_slice()
    }
}
