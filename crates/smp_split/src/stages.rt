//! The stages, and the selection through them.

ghost use Rattle.std.proofs.Props.{props};
ghost use Rattle.std.specs.{Prelude.{◌≡◌, ◌<◌, true, length, set, Option, Some}, List.{slice_get}};
ghost use Rattle.smp_split.specs.{Laws.Staged.{staged_method}, Stages.{stage_parts, staged_tree, unit_selected, units_of, waits}};
ghost use Rattle.smp_split.specs.Stages.{AreOwn, IsFirstUnit, IsStaged, IsUnderWay, IsUnitWithin, NoneWaits, is_drawn};
ghost use Rattle.smp_split.specs.Stages.{next_stage, progress, seat_selected, selected_in, stage_done, stage_kind};
ghost use Rattle.smp_split.specs.{StageStarts.{StartsInStages}, declared.places.Place.{Place}, Methods.{owns, trees}};
ghost use Rattle.smp_split.specs.declared.places.Seat.TheVariants as Seat;
ghost use Rattle.smp_split.specs.Trees.{weight_sum, picked};

use crate::{Kind, Place, Seat, Splitting, Stage, StagesState};

/// A selection in stages, one after another. Its units are the rows that have a seat in it.
///
/// A step looks at the stage that is under way, and, where that is done, at those after it up to the next that goes on. So a whole walk looks at
/// each stage once, besides its own steps. Whether a row is selected takes two looks at most.
#[derive(Drop)]
pub struct Stages<D: Splitting> {
    /// The stages in their order.
    pub stages: Vec<Stage<D>>,
    /// The seats of the rows.
    pub seats: Vec<Seat>,
    ghost staged: { IsStaged (trees D.method) stages.items seats.items } by { Prim.hlevel props },
}

impl<D: Splitting> Stages<D> {
    /// These stages in this order, with these seats of the rows. A second stage selects within a unit of a first stage that comes before it.
    pub fn new(stages: Vec<Stage<D>>, seats: Vec<Seat>) -> Stages<D>
        requires { IsStaged (trees D.method) stages.items seats.items }
        ensures stages { result.stages.items ≡ stages.items }
        ensures seats { result.seats.items ≡ seats.items }
    {
        Stages { stages, seats }
    }

    /// The selection whose stages start from these states, one for each.
    pub fn start(&self, states: Vec<D::State>) -> StagesState<D::State>
        requires { AreOwn D.method self.now.stages.items states.items }
        ensures state { result ≡ progress (trees D.method) self.now.stages.items states.items }
        ensures starts { StartsInStages (trees D.method) (owns D.method) self.now.stages.items
            self.now.seats.items
            states.items result }
    {
        let at = self.next_from(states.as_slice(), 0);
        StagesState { states, at }
    }

    /// Whether a unit of a stage is selected in it, where the selection is done. A stage that wasn't drawn selects none.
    pub fn is_selected_in(&self, state: &StagesState<D::State>, place: Place) -> bool
        requires state { IsUnderWay (trees D.method) (owns D.method) self.now.stages.items
            state.now }
        requires done { (staged_tree (trees D.method) self.now.stages.items
            self.now.seats.items).done state.now
            ≡ true }
        requires unit { place.unit < units_of (trees D.method)
            (slice_get self.now.stages.items place.stage) }
        ensures { result ≡ selected_in (trees D.method) self.now.stages.items state.now.states
            place }
    {
        let states = state.states.as_slice();
        self.is_drawn(states, place.stage) && self.selects(states, place)
    }

    // Whether a unit is selected in its stage, which is done.
    fn selects(&self, states: &[D::State], place: Place) -> bool
        requires each { AreOwn D.method self.now.stages.items states.now }
        requires unit { place.unit < units_of (trees D.method)
            (slice_get self.now.stages.items place.stage) }
        requires done { stage_done (trees D.method) self.now.stages.items states.now place.stage
            ≡ true }
        ensures { result ≡ unit_selected (trees D.method) self.now.stages.items states.now place }
    {
        let stage = &self.stages[place.stage];
        let state = &states[place.stage];
        stage.design.selected(state, place.unit)
    }

    // Whether a stage is drawn, where no stage before it waits.
    fn is_drawn(&self, states: &[D::State], number: usize) -> bool
        requires each { AreOwn D.method self.now.stages.items states.now }
        requires stage { number < length self.now.stages.items }
        requires passed { NoneWaits (trees D.method) self.now.stages.items states.now number }
        ensures { result ≡ is_drawn (trees D.method) self.now.stages.items states.now number }
    {
        let stage = &self.stages[number];
        match stage.within {
            None => true,
            Some(place) => self.selects(states, place),
        }
    }

    // Whether a stage is to be drawn and isn't done, where no stage before it waits.
    fn waits(&self, states: &[D::State], number: usize) -> bool
        requires each { AreOwn D.method self.now.stages.items states.now }
        requires stage { number < length self.now.stages.items }
        requires passed { NoneWaits (trees D.method) self.now.stages.items states.now number }
        ensures { result ≡ waits (trees D.method) self.now.stages.items states.now number }
    {
        if !self.is_drawn(states, number) {
            return false;
        }
        let stage = &self.stages[number];
        let state = &states[number];
        !stage.design.done(state)
    }

    // The first stage that waits, where none before this one does.
    fn next_from(&self, states: &[D::State], from: usize) -> usize
        requires each { AreOwn D.method self.now.stages.items states.now }
        requires passed { NoneWaits (trees D.method) self.now.stages.items states.now from }
        ensures { result ≡ next_stage (trees D.method) self.now.stages.items states.now }
    {
        for number in from..self.stages.len() {
            if self.waits(states, number) {
                return number;
            }
        }
        self.stages.len()
    }

    // The kind of the next step of a stage.
    fn kind_of(&self, states: &[D::State], number: usize) -> Kind
        requires each { AreOwn D.method self.now.stages.items states.now }
        requires stage { number < length self.now.stages.items }
        requires waits { waits (trees D.method) self.now.stages.items states.now number ≡ true }
        ensures { result ≡ stage_kind (trees D.method) self.now.stages.items states.now number }
    {
        let stage = &self.stages[number];
        let state = &states[number];
        stage.design.kind(state)
    }

    // The bound of the next step of a stage.
    fn bound_of(&self, states: &[D::State], number: usize) -> u128
        requires each { AreOwn D.method self.now.stages.items states.now }
        requires stage { number < length self.now.stages.items }
        requires waits { waits (trees D.method) self.now.stages.items states.now number ≡ true }
        ensures { result ≡ weight_sum (stage_parts (trees D.method) self.now.stages.items states.now
            number) }
    {
        let stage = &self.stages[number];
        let state = &states[number];
        stage.design.bound(state)
    }

    // Makes a step of a stage.
    fn step(&self, states: &mut Vec<D::State>, number: usize, draw: u128)
        requires each { AreOwn D.method self.now.stages.items states.old.items }
        requires stage { number < length self.now.stages.items }
        requires waits { waits (trees D.method) self.now.stages.items states.old.items number
            ≡ true }
        requires within { draw < weight_sum
            (stage_parts (trees D.method) self.now.stages.items states.old.items number) }
        ensures { (state : D.State) → slice_get states.old.items number ≡ Some state
            → states.new.items ≡ set states.old.items number
            (picked state (stage_parts (trees D.method) self.now.stages.items states.old.items
            number) draw) }
    {
        let stage = &self.stages[number];
        let state = &mut states[number];
        stage.design.advance(state, draw);
    }

    // Whether a row that has this seat is selected, where no stage waits.
    fn selects_seat(&self, states: &[D::State], seat: Seat) -> bool
        requires each { AreOwn D.method self.now.stages.items states.now }
        requires ended { NoneWaits (trees D.method) self.now.stages.items states.now
            (length self.now.stages.items) }
        requires first { (place : Place) → seat ≡ Seat.First place
            → IsFirstUnit (trees D.method) self.now.stages.items place }
        requires second { (first second : Place) → seat ≡ Seat.Second first second
            → IsUnitWithin (trees D.method) self.now.stages.items first second }
        ensures { result ≡ seat_selected
            (unit_selected (trees D.method) self.now.stages.items states.now)
            (Some seat) }
    {
        match seat {
            Seat::Nowhere => false,
            Seat::First(place) => self.selects(states, place),
            Seat::Second(first, second) => {
                self.selects(states, first) && self.selects(states, second)
            }
        }
    }
}

impl<D: Splitting> Splitting for Stages<D> {
    type State = StagesState<D::State>;

    ghost method = { λ s. staged_method D.method s.stages.items s.seats.items s.staged };

    fn units(&self) -> usize {
        self.seats.len()
    }

    fn done(&self, state: &StagesState<D::State>) -> bool {
        state.at == self.stages.len()
    }

    fn kind(&self, state: &StagesState<D::State>) -> Kind {
        self.kind_of(state.states.as_slice(), state.at)
    }

    fn bound(&self, state: &StagesState<D::State>) -> u128 {
        self.bound_of(state.states.as_slice(), state.at)
    }

    fn advance(&self, state: &mut StagesState<D::State>, draw: u128) {
        let at = state.at;
        self.step(&mut state.states, at, draw);
        state.at = self.next_from(state.states.as_slice(), at);
    }

    fn selected(&self, state: &StagesState<D::State>, unit: usize) -> bool {
        self.selects_seat(state.states.as_slice(), self.seats[unit])
    }
}
