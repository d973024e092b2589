//! The whole selection.

ghost use Rattle.std.specs.Prelude.{◌≡◌, ◌∷◌, [], ◌<◌, ◌≤◌, ◌^◌, suc, ◌+◌, true, is_some, None, Some, IfOk, length, map};
ghost use Rattle.std.specs.List.{range_with_len, slice_get};
ghost use Rattle.smp_methods.specs.Designs.{left_at};
ghost use Rattle.smp_split.specs.StageStarts.{StartsInStages};
ghost use Rattle.smp_strata.specs.declared.strata.Stratum.{Stratum};
ghost use Rattle.smp_design.specs.Words.{draws_together};
ghost use Rattle.smp_twostage.specs.{Covered.{StartsAlone, covered_left}, Kept.Stages.{EachFirst, first_numbers}};
ghost use Rattle.smp_twostage.specs.{Laws.Wholes.{covered_method, strata_sectioned}, Plans.{CanBeDrawn}};
ghost use Rattle.smp_twostage.specs.Selections as Selections;
ghost use Rattle.smp_twostage.specs.Selections.{BelongsToCovered, all_of, belongs_to, covered_seats, covered_stages, covered_start};
ghost use Rattle.smp_twostage.specs.Selections.{covered_states, covered_tree, covers, first_place, is_only, one_of, seat_by};
ghost use Rattle.smp_twostage.specs.Selections.{section_count, start_of, strata_sections, tree_of, units_at};
ghost use Rattle.smp_twostage.specs.Starts.{StartsWhole, covered_first};

use crate::StageDesign;
use crate::made::{Made, units_before};
use smp_design::Method;
use smp_frac::NoMemory;
use smp_methods::AnyState;
use smp_split::{Kind, Place, Seat, Sections, Splitting, Stages, StagesState};
use smp_strata::Plan;
use std::alloc::Global;
use std::marker::Model;

/// The selection by a plan, in one stage or in two (Särndal, Swensson and Wretman 1992): a design whose units are the rows of the frame,
/// counted from 0. It covers all strata of the plan, or one alone. It is seen as the plan and the number of that stratum.
///
/// Strata are drawn in order of first appearance. In each its first stage units are drawn, by the plan's method and in its order. Where the
/// plan has a second method, rows are then drawn by it within each of the units that were drawn, in frame order, one unit after another.
/// A row is selected where its first stage unit is and, with a second stage, where the row is within that unit.
///
/// Each stratum that it covers is a section of it. A method that draws all strata together draws their first stage units in one stage,
/// which is the one section.
#[derive(Drop)]
pub struct Whole<'a> {
    plan: &'a Plan,
    only: Option<usize>,
    stages: Stages<StageDesign<'a>>,
    firsts: Vec<usize>,
}

impl<'a> Model for Whole<'a> {
    ghost use Rattle.std.specs.Prelude.{◌≡◌};
    ghost use Rattle.smp_twostage.specs.{Kept.Stages.{first_numbers}, Selections.{Coverage, covered_seats, covered_stages}};

    ghost Value = { Coverage };

    ghost view = { λ w. record { plan = w.plan.now; only = w.only } };

    ghost invariant = { λ w.
        (w.stages.stages.items ≡ covered_stages (record { plan = w.plan.now; only = w.only }))
        × (w.stages.seats.items ≡ covered_seats (record { plan = w.plan.now; only = w.only }))
        × (w.firsts.items ≡ first_numbers (record { plan = w.plan.now; only = w.only })) };
}

/// The selection by a plan, and the state before its first step.
#[derive(Drop)]
pub struct StartedWhole<'a> {
    /// The design.
    pub whole: Whole<'a>,
    /// The state before the first step.
    pub state: StagesState<AnyState>,
}

// The seat of a row, where the first stage of its stratum has this number.
fn seat_by(second: Option<Method>, stage: usize, place: smp_strata::Seat) -> Seat
    requires room { is_some second ≡ true → suc (stage + place.unit) < 2 ^ 64 }
    ensures { result ≡ seat_by second stage place }
{
    let first = Place {
        stage,
        unit: place.unit,
    };
    match second {
        None => Seat::First(first),
        Some(_) => {
            let second = Place {
                stage: stage + place.unit + 1,
                unit: place.place,
            };
            Seat::Second(first, second)
        }
    }
}

// The seats of the rows of a plan, in frame order.
fn seats_of(
    alloc: Global,
    plan: &Plan,
    stages: usize,
    firsts: &[usize],
) -> Result<Vec<Seat>, NoMemory>
    requires plan { CanBeDrawn plan.now }
    requires stages { stages ≡ length (Selections.stages_of plan.now) }
    requires firsts { firsts.now ≡ map (Selections.first_number plan.now)
        (range_with_len 0 (suc (length plan.now.strata))) }
    ensures { IfOk result (λ seats. seats.items ≡ Selections.seats_of plan.now) }
{
    let second = plan.second();
    let mut seats = Vec::new(alloc);
    for row in 0..plan.rows() {
        let place = plan.seat(row);
        seats.push(seat_by(second, firsts[place.stratum], place))?;
    }
    Ok(seats)
}

// The seats of the rows of a plan, in frame order, where one stratum is drawn alone.
fn seats_alone(
    alloc: Global,
    plan: &Plan,
    stages: usize,
    stratum: usize,
) -> Result<Vec<Seat>, NoMemory>
    requires plan { CanBeDrawn plan.now }
    requires stages { stages
        ≡ length (Selections.stages_of (Selections.parts_by plan.now (Some stratum))) }
    ensures { IfOk result (λ seats. seats.items
        ≡ Selections.seats_by plan.now (Some stratum)) }
{
    let second = plan.second();
    let mut seats = Vec::new(alloc);
    for row in 0..plan.rows() {
        let place = plan.seat(row);
        if place.stratum == stratum {
            seats.push(seat_by(second, 0, place))?;
        } else {
            seats.push(Seat::Nowhere)?;
        }
    }
    Ok(seats)
}

// The seats of the rows of a plan, in frame order, where all strata are drawn together.
fn seats_together(alloc: Global, plan: &Plan) -> Result<Vec<Seat>, NoMemory>
    requires plan { CanBeDrawn plan.now }
    requires few { length plan.now.strata ≤ 16 }
    ensures { IfOk result (λ seats. seats.items ≡ Selections.seats_together plan.now) }
{
    let mut seats = Vec::with_capacity(alloc, plan.rows())?;
    for row in 0..plan.rows() {
        let place = plan.seat(row);
        let unit = units_before(plan, place.stratum) + place.unit;
        seats.push(Seat::First(Place { stage: 0, unit }))?;
    }
    Ok(seats)
}

// The selection of all strata together, in one stage.
fn together<'a>(
    alloc: Global,
    plan: &'a Plan,
    only: Option<usize>,
) -> Result<StartedWhole<'a>, NoMemory>
    requires plan { CanBeDrawn plan.now }
    requires together { draws_together plan.now.procedure.method ≡ true }
    ensures whole { IfOk result (λ started.
        started.whole ≡ record { plan = plan.now; only = only }) }
    ensures state { IfOk result (λ started.
        started.state ≡ covered_start (record { plan = plan.now; only = only })) }
    ensures starts { IfOk result (λ started. StartsWhole plan.now started.state) }
    ensures alone { IfOk result (λ started. StartsAlone plan.now 0 started.state) }
{
    let mut made = Made {
        stages: Vec::new(alloc),
        states: Vec::new(alloc),
    };
    made.push_together(alloc, plan)?;
    let seats = seats_together(alloc, plan)?;
    Ok(started(plan, only, made, vec![in alloc; 0, 1]?, seats))
}

// The selection that has these stages, in which its rows have these seats.
fn started<'a>(
    plan: &'a Plan,
    only: Option<usize>,
    made: Made<'a>,
    firsts: Vec<usize>,
    seats: Vec<Seat>,
) -> StartedWhole<'a>
    requires plan { CanBeDrawn plan.now }
    requires stages { made.stages.items
        ≡ covered_stages (record { plan = plan.now; only = only }) }
    requires each { EachFirst made.stages.items made.states.items }
    requires firsts { firsts.items ≡ first_numbers (record { plan = plan.now; only = only }) }
    requires seats { seats.items ≡ covered_seats (record { plan = plan.now; only = only }) }
    ensures whole { result.whole ≡ record { plan = plan.now; only = only } }
    ensures state { result.state ≡ covered_start (record { plan = plan.now; only = only }) }
    ensures each { EachFirst (covered_stages (record { plan = plan.now; only = only }))
        (covered_states (record { plan = plan.now; only = only })) }
    ensures starts { StartsInStages tree_of belongs_to
        (covered_stages (record { plan = plan.now; only = only }))
        (covered_seats (record { plan = plan.now; only = only }))
        (covered_states (record { plan = plan.now; only = only })) result.state }
{
    let Made { stages, states } = made;
    let stages = Stages::new(stages, seats);
    let state = stages.start(states);
    let whole = Whole {
        plan,
        only,
        stages,
        firsts,
    };
    StartedWhole { whole, state }
}

impl<'a> Whole<'a> {
    /// The whole selection by a plan, before its first step. The methods have to take the columns of values that the plan's units have; the
    /// second one takes none.
    ///
    /// From this state each row is selected with exactly the probability that the plan gives it, and the estimator of Horvitz and
    /// Thompson (1952) has no bias. By every method that doesn't balance, as many first stage units of a stratum are selected as their
    /// probabilities add up to, or, where these have no whole sum, one of the two whole numbers around it. All states are made here, so
    /// no later step takes memory; where there is too little of it, the answer is [`NoMemory`], the only error.
    pub fn start(alloc: Global, plan: &'a Plan) -> Result<StartedWhole<'a>, NoMemory>
        requires { CanBeDrawn plan.now }
        ensures plan { IfOk result (λ started. started.whole ≡ all_of plan.now) }
        ensures state { IfOk result (λ started. started.state ≡ start_of plan.now) }
        ensures starts { IfOk result (λ started. StartsWhole plan.now started.state) }
    {
        if plan.procedure().method.draws_together() {
            return together(alloc, plan, None);
        }
        let mut made = Made {
            stages: Vec::new(alloc),
            states: Vec::new(alloc),
        };
        let firsts = made.push_strata(alloc, plan)?;
        let seats = seats_of(alloc, plan, made.stages.len(), firsts.as_slice())?;
        Ok(started(plan, None, made, firsts, seats))
    }

    /// The selection of one section alone, before its first step: of a stratum, or of all strata where they are drawn together.
    /// Sections are counted from 0, strata in order of first appearance. It has one section. Its units are still the rows of the frame,
    /// and those of other strata are never selected.
    ///
    /// It is a part of the whole selection, and makes the steps that the whole makes in this stratum. Each row of the stratum is
    /// selected with exactly the probability that the plan gives it. No state of another stratum is made. Where there is too little
    /// memory, the answer is [`NoMemory`], the only error.
    pub fn only(alloc: Global, plan: &'a Plan, stratum: usize) -> Result<StartedWhole<'a>, NoMemory>
        requires plan { CanBeDrawn plan.now }
        requires stratum { stratum < section_count (all_of plan.now) }
        ensures whole { IfOk result (λ started. started.whole ≡ one_of plan.now stratum) }
        ensures state { IfOk result
            (λ started. started.state ≡ covered_start (one_of plan.now stratum)) }
        ensures starts { IfOk result (λ started. StartsAlone plan.now stratum started.state) }
    {
        if plan.procedure().method.draws_together() {
            return together(alloc, plan, Some(stratum));
        }
        let mut made = Made {
            stages: Vec::new(alloc),
            states: Vec::new(alloc),
        };
        let firsts = made.push_alone(alloc, plan, stratum)?;
        let seats = seats_alone(alloc, plan, made.stages.len(), stratum)?;
        Ok(started(plan, Some(stratum), made, firsts, seats))
    }

    /// The plan.
    pub fn plan(&self) -> &Plan
        ensures { result.now ≡ self.now.plan }
    {
        self.plan
    }

    /// Whether a stratum of the plan is covered. Strata are counted from 0, in order of first appearance. Where all are drawn together,
    /// each is.
    pub fn covers(&self, stratum: usize) -> bool
        ensures { result ≡ covers self.now stratum }
    {
        stratum < self.plan.strata()
            && (self.plan.procedure().method.draws_together() || self.is_only(stratum))
    }

    // Whether a stratum is drawn, where they are drawn one by one.
    fn is_only(&self, stratum: usize) -> bool
        ensures { result ≡ is_only self.now.only stratum }
    {
        match self.only {
            Some(only) => stratum == only,
            None => true,
        }
    }

    // Where a first stage unit of a stratum stands.
    fn first_place(&self, stratum: usize, unit: usize) -> Place
        requires plan { CanBeDrawn self.now.plan }
        requires stratum { covers self.now stratum ≡ true }
        requires unit { unit < 2 ^ 32 }
        ensures { result ≡ first_place self.now stratum unit }
    {
        if self.plan.procedure().method.draws_together() {
            let unit = units_before(self.plan, stratum) + unit;
            return Place { stage: 0, unit };
        }
        let stage = match self.only {
            Some(_) => 0,
            None => self.firsts[stratum],
        };
        Place { stage, unit }
    }

    /// How many first stage units of a stratum were undecided where the landing of its cube, or local cube, began (Deville and Tillé
    /// 2004): 0 as long as it hasn't begun, 0 where no unit was left for it, and 0 by any other method; where all strata are drawn
    /// together, how many units of all. Strata are counted from 0, in order of first appearance.
    pub fn left(&self, state: &StagesState<AnyState>, stratum: usize) -> u32
        requires state { BelongsToCovered self.now state.now }
        requires stratum { covers self.now stratum ≡ true }
        ensures { result ≡ covered_left self.now state.now.states stratum }
    {
        let stage = self.first_place(stratum, 0).stage;
        self.stages.stages[stage]
            .design
            .left(state.stage_state(stage))
    }

    /// Whether a first stage unit of a stratum is selected, in a done state. Strata are counted from 0, and so are the units of each
    /// stratum, both in order of first appearance.
    pub fn first(&self, state: &StagesState<AnyState>, stratum: usize, unit: usize) -> bool
        requires state { BelongsToCovered self.now state.now }
        requires done { (covered_tree self.now).done state.now ≡ true }
        requires stratum { covers self.now stratum ≡ true }
        requires unit { unit < length (units_at (slice_get self.now.plan.strata stratum)) }
        ensures { result ≡ covered_first self.now state.now.states stratum unit }
    {
        self.stages
            .is_selected_in(state, self.first_place(stratum, unit))
    }
}

impl<'a> Splitting for Whole<'a> {
    type State = StagesState<AnyState>;

    ghost method = { λ c. covered_method c };

    fn units(&self) -> usize {
        self.stages.units()
    }

    fn done(&self, state: &StagesState<AnyState>) -> bool {
        self.stages.done(state)
    }

    fn kind(&self, state: &StagesState<AnyState>) -> Kind {
        self.stages.kind(state)
    }

    fn bound(&self, state: &StagesState<AnyState>) -> u128 {
        self.stages.bound(state)
    }

    fn advance(&self, state: &mut StagesState<AnyState>, draw: u128) {
        self.stages.advance(state, draw);
    }

    fn selected(&self, state: &StagesState<AnyState>, unit: usize) -> bool {
        self.stages.selected(state, unit)
    }
}

/// How many sections a selection by a plan has, of all strata: one for each, or one where they are drawn together.
pub fn section_count(plan: &Plan) -> usize
    ensures { result ≡ section_count (all_of plan.now) }
{
    if plan.procedure().method.draws_together() {
        1
    } else {
        plan.strata()
    }
}

impl<'a> Sections for Whole<'a> {
    ghost sectioning = { λ c. strata_sections c };

    ghost sectioned = { λ c. strata_sectioned c };

    fn sections(&self) -> usize {
        match self.only {
            Some(_) => 1,
            None => section_count(self.plan),
        }
    }

    fn section(&self, state: &StagesState<AnyState>) -> usize {
        let at = state.at();
        let firsts = self.firsts.as_slice();
        // Where each section before is one stage, the stage's own number is the section's, and nothing is searched.
        if at < firsts.len() - 1 && firsts[at] == at && at < firsts[at + 1] {
            return at;
        }
        firsts.partition_point(|first| *first <= at) - 1
    }
}
