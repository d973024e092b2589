ghost use Rattle.std.specs.Prelude.{◌≡◌, ℕ, ◌<◌, true, false, IfOk};
ghost use Rattle.smp_frac.specs.Fractions.{Fraction, Same};
ghost use Rattle.smp_split.specs.{Trees.{weight_sum, picked, weighted}, Methods.{Method}, Counts.{selected_units}};
ghost use Rattle.smp_split.specs.Means.{sum_over_draws, mean, value_sum, inclusion_probability};

use crate::Kind;
use smp_frac::NoMemory;
use std::alloc::Global;

/// A selection design: its states, the weighted parts of each, and what its leaves select. The value that implements it
/// is the design and doesn't change; a state does.
pub trait Splitting {
    type State;

    /// The method by which the design draws: its draw tree; which states are its own, such as `start` gives and `advance` keeps; and that
    /// every split of these keeps the values on average, where the values of a done state are its selection.
    ghost method: { Self → Method Self.State };

    /// How many units there are.
    fn units(&self) -> usize
        ensures { result ≡ (method self.now).tree.units };

    /// Nothing is left to be drawn.
    fn done(&self, state: &Self::State) -> bool
        requires { (method self.now).belongs state.now }
        ensures { result ≡ (method self.now).tree.done state.now };

    /// The kind of the next step.
    fn kind(&self, state: &Self::State) -> Kind
        requires state { (method self.now).belongs state.now }
        requires going { (method self.now).tree.done state.now ≡ false }
        ensures { result ≡ (method self.now).tree.kind state.now };

    /// The bound that the next draw has to be below: the sum of the weights of the parts.
    fn bound(&self, state: &Self::State) -> u128
        requires state { (method self.now).belongs state.now }
        requires going { (method self.now).tree.done state.now ≡ false }
        ensures { result ≡ weight_sum ((method self.now).tree.parts state.now) };

    /// Goes to the first part at which the cumulated weights pass the draw.
    fn advance(&self, state: &mut Self::State, draw: u128)
        requires state { (method self.now).belongs state.old }
        requires going { (method self.now).tree.done state.old ≡ false }
        requires within { draw < weight_sum ((method self.now).tree.parts state.old) }
        ensures { state.new ≡ picked state.old ((method self.now).tree.parts state.old) draw };

    /// A unit is selected in a done state.
    fn selected(&self, state: &Self::State, unit: usize) -> bool
        requires state { (method self.now).belongs state.now }
        requires done { (method self.now).tree.done state.now ≡ true }
        requires unit { unit < (method self.now).tree.units }
        ensures { result ≡ (method self.now).tree.selected state.now unit };
}

/// Of the numbers below the bound of a step, each part gets as many as its weight: the sum of `f` over the states to which the numbers lead
/// is the sum of weight times `f` over the parts. It runs nothing: its contract is the theorem.
pub fn draws_are_weights<S: Splitting>(design: &S, state: &S::State)
    ensures { (f : S.State → Fraction)
        → Same (sum_over_draws f state.now ((S.method design.now).tree.parts state.now))
        (weighted f ((S.method design.now).tree.parts state.now)) }
{}

/// From a state of a lawful design, the mean over all draws is the value: each number below the bound of a step counts the same, whatever
/// numbers came before. It runs nothing: its contract is the theorem.
pub fn mean_is_value<S: Splitting>(design: &S, state: &S::State)
    requires { (S.method design.now).belongs state.now }
    ensures mean { (c : ℕ → Fraction)
        → Same (mean (S.method design.now).tree c state.now)
        (value_sum (S.method design.now).tree c state.now) }
    ensures probability { (unit : ℕ) → unit < (S.method design.now).tree.units
        → Same (inclusion_probability (S.method design.now).tree state.now unit)
        ((S.method design.now).tree.value state.now unit) }
{}

/// The units that a done state selects, in order.
pub fn selected_units<S: Splitting>(
    alloc: Global,
    design: &S,
    state: &S::State,
) -> Result<Vec<usize>, NoMemory>
    requires belongs { (S.method design.now).belongs state.now }
    requires done { (S.method design.now).tree.done state.now ≡ true }
    ensures { IfOk result (λ units. units.items
        ≡ selected_units (S.method design.now).tree state.now) }
{
    let mut units = Vec::new(alloc);
    for unit in 0..design.units() {
        if design.selected(state, unit) {
            units.push(unit)?;
        }
    }
    Ok(units)
}
