//! A state of a selection by elimination, and its steps.

ghost use Rattle.std.specs.Prelude.{◌≡◌, ◌<◌, true, nat_eq, length};
ghost use Rattle.smp_split.specs.Trees.{weight_sum, picked};
ghost use Rattle.smp_elim.specs.Elimination.{Remaining, IsRemaining, bound_of, eliminate_parts, factor, is_left, left_count};
ghost use Rattle.smp_elim.specs.{Elimination.{may_go, without}, Kept.States.{IsKept}};

use crate::cuts::Cut;
use crate::weights::{prepare, settle};
use smp_places::Amounts;
use std::marker::Model;

/// The units that are left.
///
/// The units stand in falling order of their sizes, and those that are certain are the first of them: `cut` is where they end
/// with as many units as are left, and `next` with one fewer. A unit that isn't certain and is left has the amount 1 in
/// `common`, and one that is certain now alone has its weight in `fresh`, but for the common factor.
#[derive(Drop)]
pub struct EliminationState {
    pub(crate) sizes: Vec<u32>,
    pub(crate) order: Vec<usize>,
    pub(crate) wanted: u32,
    pub(crate) left: Vec<bool>,
    pub(crate) count: u32,
    pub(crate) cut: Cut,
    pub(crate) next: Cut,
    pub(crate) common: Amounts,
    pub(crate) fresh: Amounts,
}

impl Model for EliminationState {
    ghost Value = { Remaining };

    ghost view = { λ a. record {
      sizes = a.sizes.items;
      wanted = a.wanted;
      left = a.left.items;
    } };

    ghost invariant = { λ a. IsKept a.sizes.items a.order.items a.wanted a.left.items a.count a.cut a.next a.common a.fresh };
}

impl EliminationState {
    /// Whether as many units are left as are wanted.
    pub(crate) fn is_done(&self) -> bool
        ensures { result ≡ nat_eq (left_count self.now) self.now.wanted }
    {
        self.count == self.wanted
    }

    /// The bound of the next step's draw.
    pub(crate) fn bound(&self) -> u128
        requires { self.now.wanted < left_count self.now }
        ensures { result ≡ bound_of self.now }
    {
        self.next.rest as u128 * self.factor()
    }

    // The factor of all weights.
    fn factor(&self) -> u128
        ensures { result ≡ factor self.now }
    {
        let draws = self.count as u128 - self.cut.count as u128;
        draws.max(1)
    }

    /// Takes out the unit that this draw leads to.
    pub(crate) fn advance(&mut self, draw: u128)
        requires going { self.old.wanted < left_count self.old }
        requires within { draw < weight_sum (eliminate_parts self.old) }
        ensures { self.new ≡ picked self.old (eliminate_parts self.old) draw }
    {
        let unit = self.find(draw);
        self.take_out(unit);
    }

    /// Whether a unit is left.
    pub(crate) fn is_left(&self, unit: usize) -> bool
        requires { unit < length self.now.sizes }
        ensures { result ≡ is_left self.now unit }
    {
        self.left[unit]
    }

    // The unit that a draw leads to.
    fn find(&self, draw: u128) -> usize
        requires going { self.now.wanted < left_count self.now }
        requires within { draw < weight_sum (eliminate_parts self.now) }
        ensures unit { result < length self.now.sizes }
        ensures may { may_go self.now result ≡ true }
        ensures is { without self.now result ≡ picked self.now (eliminate_parts self.now) draw }
    {
        let factor = self.factor();
        let draws = self.count as u128 - 1 - self.next.count as u128;
        let weight = self.next.rest as u128 * factor - draws * self.cut.rest as u128;
        self.common.find_in_both(weight, &self.fresh, factor, draw)
    }

    // Takes out a unit.
    fn take_out(&mut self, unit: usize)
        requires going { self.old.wanted < left_count self.old }
        requires unit { unit < length self.old.sizes }
        requires may { may_go self.old unit ≡ true }
        ensures { self.new ≡ without self.old unit }
    {
        settle(
            &mut self.common,
            &mut self.fresh,
            self.order.as_slice(),
            self.next.count,
            self.cut.count,
        );
        self.common.take_out(unit);
        self.left[unit] = false;
        self.count -= 1;
        self.cut = self.next;
        self.next = prepare(
            &mut self.fresh,
            self.sizes.as_slice(),
            self.order.as_slice(),
            self.wanted,
            self.count,
            self.cut,
        );
    }
}
