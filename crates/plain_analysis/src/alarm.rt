//! Alarms: the stops that some run may meet.
#![tactic(auto)]

ghost use Rattle.std.specs.Prelude.{◌≡◌};

use c_tree::Kind;
use fam_outer::Place;
use std::marker::Model;

/// A stop that a run may meet: its kind, and the place of the statement.
#[derive(Clone, Copy, Debug, PartialEq, Eq)]
pub struct Alarm {
    pub place: Place,
    pub kind: Kind,
}

/// A list of alarms, by place and then by kind.
#[derive(Debug, Drop)]
pub struct Alarms {
    list: Vec<Alarm>,
}

impl Model for Alarms {
    ghost use Rattle.std.specs.Prelude.{List};
    ghost use Rattle.plain_analysis.specs.declared.alarm.Alarm.{Alarm};

    ghost Value = { List Alarm };

    ghost view = { λ alarms. alarms.list.items };
}

impl Alarms {
    /// These alarms.
    pub fn from_vec(list: Vec<Alarm>) -> Alarms
        ensures { result ≡ list.items }
    {
        Alarms { list }
    }

    /// The alarms.
    pub fn items(&self) -> &[Alarm]
        ensures { result.now ≡ self.now }
    {
        self.list.as_slice()
    }
}
