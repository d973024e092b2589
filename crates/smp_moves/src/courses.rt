//! The steps of a selection that flies and then lands.

ghost use Rattle.std.specs.Prelude.{◌≡◌, ◌+◌, ◌<◌, Bool, Option, Some, None, true, false};
ghost use Rattle.smp_frac.specs.Limits.{wide_limit};
ghost use Rattle.smp_split.specs.Trees.{Tree, picked, weight_sum};
ghost use Rattle.smp_moves.specs.Courses.{IsFork, IsStepOf, end_of};
ghost use Rattle.smp_moves.specs.declared.steps.Next.{Next};
ghost use Rattle.smp_moves.specs.declared.steps.Next.TheVariants.{Move, Independent, Wide};

use crate::steps::Next;
use smp_split::Kind;

/// A selection that flies and then lands (Deville and Tillé 2004), as the code keeps it: its next step, and where that leads.
///
/// Whatever its searches go through, the next step is one of the flight, as [`Next`] has it, or one apart from it: a pivotal step, or the
/// choice of a unit whose neighbours are to fly. How it is found and where it goes differs. What kind it has, below which bound a draw has to
/// be, and which way a draw leads is the same for all ([`Course::kind`], [`Course::bound`], [`Course::advance`]).
pub trait Course {
    /// The units that are selected from. They don't change.
    type Units;
    /// The state that a contract sees.
    type State;
    /// A move of the flight.
    type Move: Drop;

    /// The draw tree of these units.
    ghost tree: { Self.Units → Tree Self.State };

    /// The state that is seen.
    ghost seen: { Self → Self.State };

    /// A state of a selection from these units.
    ghost belongs: { Self.Units → Self.State → Type 0 };

    /// What the code keeps of it.
    ghost is_kept: { Self → Type 0 };

    /// What is found of its next step.
    ghost finds: { Self.Units → Self → Option (Next Self.Move) → Type 0 };

    /// The next step of the flight, and None where the next step is apart from it.
    fn found(&self, units: &Self::Units) -> Option<Next<Self::Move>>
        requires state { belongs units.now (seen self.now) }
        requires kept { is_kept self.now }
        requires going { (tree units.now).done (seen self.now) ≡ false }
        ensures finds { finds units.now self.now result }
        ensures is { let s = seen self.now in
            IsStepOf ((tree units.now).kind s) ((tree units.now).parts s) result };

    /// The weights of the two ends of a move.
    fn weights(&self, units: &Self::Units, mv: &Self::Move) -> (u128, u128)
        requires finds { finds units.now self.now (Some (Move mv.now)) }
        ensures fork { IsFork result ((tree units.now).parts (seen self.now)) }
        ensures narrow { result.0 + result.1 < wide_limit };

    /// Goes to an end of a move.
    fn go_to_end(&mut self, units: &Self::Units, mv: &Self::Move, plus: bool)
        requires finds { finds units.now self.old (Some (Move mv.now)) }
        ensures kept { is_kept self.new }
        ensures is { let s = seen self.old in
            seen self.new ≡ end_of s ((tree units.now).parts s) plus };

    /// Goes on without the last row in force, where no direction is left.
    fn go_without_row(&mut self, units: &Self::Units)
        requires going { (tree units.now).done (seen self.old) ≡ false }
        requires finds { finds units.now self.old (Some Independent) }
        ensures kept { is_kept self.new }
        ensures is { let s = seen self.old in
            seen self.new ≡ end_of s ((tree units.now).parts s) true };

    /// Goes over to pivotal steps, where a number doesn't fit.
    fn go_to_pivots(&mut self, units: &Self::Units)
        requires finds { finds units.now self.old (Some Wide) }
        ensures kept { is_kept self.new }
        ensures is { let s = seen self.old in
            seen self.new ≡ end_of s ((tree units.now).parts s) true };

    /// The kind of a step apart.
    fn kind_apart(&self, units: &Self::Units) -> Kind
        requires finds { finds units.now self.now None }
        ensures { result ≡ (tree units.now).kind (seen self.now) };

    /// The bound of the draw of a step apart.
    fn bound_apart(&self, units: &Self::Units) -> u128
        requires going { (tree units.now).done (seen self.now) ≡ false }
        requires finds { finds units.now self.now None }
        ensures { result ≡ weight_sum ((tree units.now).parts (seen self.now)) };

    /// Makes the step apart that a draw leads to.
    fn go_apart(&mut self, units: &Self::Units, draw: u128)
        requires going { (tree units.now).done (seen self.old) ≡ false }
        requires finds { finds units.now self.old None }
        requires within { draw < weight_sum ((tree units.now).parts (seen self.old)) }
        ensures kept { is_kept self.new }
        ensures is { let s = seen self.old in
            seen self.new ≡ picked s ((tree units.now).parts s) draw };

    /// The kind of the next step.
    fn kind(&self, units: &Self::Units) -> Kind
        requires state { belongs units.now (seen self.now) }
        requires kept { is_kept self.now }
        requires going { (tree units.now).done (seen self.now) ≡ false }
        ensures { result ≡ (tree units.now).kind (seen self.now) }
    {
        match self.found(units) {
            Some(Next::Move(_)) => Kind::Flight,
            Some(Next::Independent) => Kind::Drop,
            Some(Next::Wide) => Kind::Wide,
            None => self.kind_apart(units),
        }
    }

    /// The bound of the next step's draw.
    fn bound(&self, units: &Self::Units) -> u128
        requires state { belongs units.now (seen self.now) }
        requires kept { is_kept self.now }
        requires going { (tree units.now).done (seen self.now) ≡ false }
        ensures { result ≡ weight_sum ((tree units.now).parts (seen self.now)) }
    {
        match self.found(units) {
            Some(Next::Move(mv)) => {
                let (plus, minus) = self.weights(units, &mv);
                plus + minus
            }
            Some(Next::Independent) => 1,
            Some(Next::Wide) => 1,
            None => self.bound_apart(units),
        }
    }

    /// Makes the step that a draw leads to.
    fn advance(&mut self, units: &Self::Units, draw: u128)
        requires state { belongs units.now (seen self.old) }
        requires kept { is_kept self.old }
        requires going { (tree units.now).done (seen self.old) ≡ false }
        requires within { draw < weight_sum ((tree units.now).parts (seen self.old)) }
        ensures kept { is_kept self.new }
        ensures is { let s = seen self.old in
            seen self.new ≡ picked s ((tree units.now).parts s) draw }
    {
        match self.found(units) {
            Some(Next::Move(mv)) => {
                let (plus, _) = self.weights(units, &mv);
                self.go_to_end(units, &mv, draw < plus);
            }
            Some(Next::Independent) => self.go_without_row(units),
            Some(Next::Wide) => self.go_to_pivots(units),
            None => self.go_apart(units, draw),
        }
    }
}
