//! The units of all strata.

ghost use Rattle.std.specs.Prelude.{◌≡◌, ◌<◌, ◌≤◌, ◌^◌, length, slice_index};
ghost use Rattle.smp_stratcube.specs.{Units.{IsUnits, column, first, member, share, stratum}};
ghost use Rattle.smp_stratcube.specs.Kept.{Behind.{IsBehind}, States.{requested_value}};

use crate::values::Value;
use smp_moves::Ratio;
use std::marker::Model;

/// A unit: its column, filled up with 0, its stratum, and the probability that is requested of it.
#[derive(Clone, Copy)]
pub(crate) struct Member {
    pub(crate) column: [i32; 16],
    pub(crate) stratum: usize,
    pub(crate) share: Ratio,
}

/// The free units of all strata, stratum by stratum.
#[derive(Drop)]
pub(crate) struct Units {
    pub(crate) members: Vec<Member>,
    /// The least common denominator of the probabilities of each unit and of those behind it in its stratum, from the last unit to
    /// the first.
    pub(crate) behind: Vec<u128>,
    /// The common denominator of the probabilities of each stratum.
    pub(crate) firsts: Vec<u64>,
    /// How many rows there are: the strata, and then the variables.
    pub(crate) rows: usize,
}

impl Model for Units {
    ghost use Rattle.smp_stratcube.specs.Units as units;
    ghost use Rattle.smp_stratcube.specs.Kept.Behind.{AreBehind};

    ghost Value = { units.Units };

    ghost view = { λ a. record {
      members = a.members.items;
      firsts = a.firsts.items;
      rows = a.rows;
    } };

    ghost invariant = { λ a. AreBehind a.members.items a.behind.items };
}

impl Units {
    /// How many units there are.
    pub(crate) fn len(&self) -> usize
        ensures { result ≡ length self.now.members }
    {
        self.members.len()
    }

    /// How many rows there are.
    pub(crate) fn rows(&self) -> usize
        ensures { result ≡ self.now.rows }
    {
        self.rows
    }

    /// The column of a unit.
    pub(crate) fn column(&self, unit: usize) -> [i32; 16]
        requires { unit < length self.now.members }
        ensures { result ≡ column self.now unit }
    {
        self.members[unit].column
    }

    /// The stratum of a unit.
    pub(crate) fn stratum(&self, unit: usize) -> usize
        requires { unit < length self.now.members }
        ensures { result ≡ stratum self.now unit }
    {
        self.members[unit].stratum
    }

    /// The probability that is requested of a unit.
    pub(crate) fn share(&self, unit: usize) -> Ratio
        requires are { IsUnits self.now }
        requires unit { unit < length self.now.members }
        ensures is { result ≡ share self.now unit }
        ensures below { result.num < result.den }
        ensures most { result.den ≤ 2 ^ 49 }
    {
        self.members[unit].share
    }

    /// The common denominator of the requested probabilities of a unit's stratum.
    pub(crate) fn first(&self, unit: usize) -> u128
        requires are { IsUnits self.now }
        requires unit { unit < length self.now.members }
        ensures is { result ≡ first self.now unit }
        ensures most { result ≤ 2 ^ 49 }
    {
        self.firsts[self.members[unit].stratum] as u128
    }

    /// The least common denominator of the requested probabilities of a unit and of those behind it in its stratum.
    pub(crate) fn behind(&self, unit: usize) -> u128
        requires { unit < length self.now.members }
        ensures { IsBehind self.now.members unit result }
    {
        self.behind[self.members.len() - 1 - unit]
    }

    /// The value with which a unit starts.
    pub(crate) fn requested(&self, unit: usize) -> Value
        requires { unit < length self.now.members }
        ensures { result ≡ requested_value (member self.now unit) }
    {
        Value {
            at: self.members[unit].share,
            touched: false,
        }
    }
}
