//! The stages of a plan, each with the state that it starts from.

ghost use Rattle.std.specs.Prelude.{◌≡◌, ◌<◌, ◌≤◌, ◌+◌, ◌^◌, suc, ◌++◌, ◌∷◌, [], true, None};
ghost use Rattle.std.specs.{Prelude.{Some, All, IfOk, OnOk, length, map}, List.{range_with_len}};
ghost use Rattle.smp_prob.specs.{Requests.{IsRequest}, Inclusions.{IsRising}};
ghost use Rattle.smp_design.specs.Words.{draws_together};
ghost use Rattle.smp_methods.specs.{Designs.{design_of, design_of_strata, first_state}, Procedures.{NeedsWhole, TakesValues}};
ghost use Rattle.smp_methods.specs.Starts.{AreStarted};
ghost use Rattle.smp_strata.specs.Bounds.{IsFirst, IsOver};
ghost use Rattle.smp_twostage.specs.Kept.Stages.{EachFirst, EachStarts, IsPlanned, StageStarts, free_lists, list_of};
ghost use Rattle.smp_twostage.specs.Plans.{CanBeDrawn, TakesRows};
ghost use Rattle.smp_twostage.specs.Selections as Selections;
ghost use Rattle.smp_twostage.specs.Selections.{first_number, first_stage, layers_of, parts_by, stage_of_strata};
ghost use Rattle.smp_twostage.specs.Selections.{stage_by, stages_in, stages_of, stages_within};

use crate::StageDesign;
use smp_design::{Method, Procedure};
use smp_frac::{NoMemory, Numbers};
use smp_methods::{AnyState, Started};
use smp_prob::{Places, Request, Shapes};
use smp_split::{Place, Stage};
use smp_strata::{FirstUnit, Plan, Stratum};
use smp_stratcube::Layers;
use std::alloc::Global;

// The design of a stage, and the state that it starts from.
#[derive(Drop)]
struct StartedStage<'a> {
    design: StageDesign<'a>,
    state: AnyState,
}

// Stages, and the states that they start from.
#[derive(Drop)]
pub(crate) struct Made<'a> {
    pub stages: Vec<Stage<StageDesign<'a>>>,
    pub states: Vec<AnyState>,
}

// The columns of a kind. A first stage unit has a list of its values in them.
#[derive(Clone, Copy)]
enum Columns {
    // Of balancing values.
    Balance,
    // Of coordinates.
    Near,
}

// The list of a first stage unit.
fn list_of<'a>(columns: Columns, first: &'a FirstUnit) -> &'a [i32]
    ensures { result.now ≡ list_of columns first.now }
{
    match columns {
        Columns::Balance => first.balance.as_slice(),
        Columns::Near => first.point.as_slice(),
    }
}

// The lists of the free units of a stratum, in their order. Where there are no such columns, none is made.
fn free_lists(
    alloc: Global,
    columns: Columns,
    count: usize,
    stratum: &Stratum,
) -> Result<Vec<Numbers>, NoMemory>
    requires { IsOver (length stratum.now.units) stratum.now.request }
    ensures { IfOk result (λ lists. 1 ≤ count → lists.items ≡ free_lists columns stratum.now) }
{
    if count == 0 {
        return Ok(Vec::new(alloc));
    }
    let free = stratum.request.free.as_slice();
    let units = stratum.units.as_slice();
    let mut lists = Vec::with_capacity(alloc, free.len())?;
    for &unit in free {
        lists.push(Numbers::from_slice(alloc, list_of(columns, &units[unit]))?)?;
    }
    Ok(lists)
}

// The free units of each stratum, with their values.
fn layers_of(alloc: Global, plan: &Plan) -> Result<Layers, NoMemory>
    requires plan { CanBeDrawn plan.now }
    requires together { draws_together plan.now.procedure.method ≡ true }
    ensures { IfOk result (λ layers. layers ≡ Selections.layers_of plan.now) }
{
    let mut layers = Layers::new(alloc);
    for number in 0..plan.strata() {
        let stratum = plan.stratum(number);
        let values = free_lists(alloc, Columns::Balance, plan.procedure().balance, stratum)?;
        layers.push(&stratum.request, values.as_slice())?;
    }
    Ok(layers)
}

// Appends some numbers, each behind so many.
fn push_behind(numbers: &mut Vec<usize>, before: usize, more: &[usize]) -> Result<(), NoMemory>
    requires { All (λ number. before + number < 2 ^ 64) more.now }
    ensures { OnOk result (numbers.new.items
        ≡ numbers.old.items ++ map (λ number. before + number) more.now) }
{
    for number in more {
        numbers.push(before + *number)?;
    }
    Ok(())
}

// Where the units of all strata stand.
fn request_over(alloc: Global, plan: &Plan) -> Result<Request, NoMemory>
    requires plan { CanBeDrawn plan.now }
    requires few { length plan.now.strata ≤ 16 }
    ensures { IfOk result (λ request. request ≡ Selections.request_over plan.now.strata) }
{
    let mut certain = Vec::new(alloc);
    let mut free = Vec::new(alloc);
    let mut before = 0;
    for number in 0..plan.strata() {
        let stratum = plan.stratum(number);
        push_behind(&mut certain, before, stratum.request.certain.as_slice())?;
        push_behind(&mut free, before, stratum.request.free.as_slice())?;
        before += stratum.units.as_slice().len();
    }
    Ok(Request {
        certain: Places::from_vec(certain),
        free: Places::from_vec(free),
        shape: Shapes::from_slice(alloc, &[])?,
        r: 0,
        total: 0,
    })
}

// How many first stage units the strata before this one have.
pub(crate) fn units_before(plan: &Plan, stratum: usize) -> usize
    requires plan { CanBeDrawn plan.now }
    requires few { length plan.now.strata ≤ 16 }
    requires stratum { stratum ≤ length plan.now.strata }
    ensures { result ≡ Selections.units_before plan.now.strata stratum }
{
    let mut before = 0;
    for number in 0..stratum {
        before += plan.stratum(number).units.as_slice().len();
    }
    before
}

// How many first stage units all strata have.
fn unit_count(plan: &Plan) -> usize
    requires plan { CanBeDrawn plan.now }
    requires few { length plan.now.strata ≤ 16 }
    ensures { result ≡ Selections.unit_count plan.now.strata }
{
    units_before(plan, plan.strata())
}

// The design of a request over so many units, and the state that it starts from.
fn start_stage<'a>(
    alloc: Global,
    procedure: Procedure,
    units: usize,
    request: &'a Request,
    values: &[Numbers],
    points: &[Numbers],
) -> Result<StartedStage<'a>, NoMemory>
    requires request { IsRequest request.now }
    requires whole { NeedsWhole procedure request.now }
    requires rising { IsRising request.now }
    requires values { TakesValues procedure request.now values.now points.now }
    ensures design { IfOk result (λ s. s.design ≡ record {
      units = units;
      request = request.now;
      design = design_of procedure request.now values.now points.now;
    }) }
    ensures starts { IfOk result (λ s. StageStarts s.design s.state) }
{
    let Started { design, state } = Started::new(alloc, procedure, request, values, points)?;
    let design = StageDesign::new(units, request, design);
    Ok(StartedStage { design, state })
}

impl<'a> Made<'a> {
    // Adds a stage.
    fn push(&mut self, started: StartedStage<'a>, within: Option<Place>) -> Result<(), NoMemory>
        requires each { EachStarts self.old.stages.items self.old.states.items }
        requires starts { StageStarts started.design started.state }
        ensures stages { OnOk result (self.new.stages.items ≡ self.old.stages.items
            ++ record { design = started.entry.design; within = within } ∷ []) }
        ensures each { OnOk result (EachStarts self.new.stages.items self.new.states.items) }
    {
        let StartedStage { design, state } = started;
        // Both are moved before either is looked at: where the first push failed, the state would be let go here.
        let kept = self.stages.push(Stage { design, within });
        self.states.push(state)?;
        Ok(kept?)
    }

    // Adds the first stage of a stratum.
    fn push_first(
        &mut self,
        alloc: Global,
        plan: &Plan,
        stratum: &'a Stratum,
    ) -> Result<(), NoMemory>
        requires each { EachStarts self.old.stages.items self.old.states.items }
        requires planned { IsPlanned plan.now stratum.now }
        ensures stages { OnOk result (self.new.stages.items
            ≡ self.old.stages.items ++ first_stage plan.now stratum.now ∷ []) }
        ensures each { OnOk result (EachStarts self.new.stages.items self.new.states.items) }
    {
        let procedure = plan.procedure();
        let values = free_lists(alloc, Columns::Balance, procedure.balance, stratum)?;
        let points = free_lists(alloc, Columns::Near, procedure.near, stratum)?;
        let units = stratum.units.as_slice().len();
        let started = start_stage(
            alloc,
            procedure,
            units,
            &stratum.request,
            values.as_slice(),
            points.as_slice(),
        )?;
        self.push(started, None)
    }

    // Adds the second stage within a unit, where it has one.
    fn push_second(
        &mut self,
        alloc: Global,
        method: Method,
        within: Place,
        first: &'a FirstUnit,
    ) -> Result<(), NoMemory>
        requires each { EachStarts self.old.stages.items self.old.states.items }
        requires method { TakesRows method }
        requires first { IsFirst (Some method) first.now }
        ensures stages { OnOk result (self.new.stages.items ≡ self.old.stages.items
            ++ stage_by (Some method) first.now.second (length first.now.rows)
            within.stage within.unit) }
        ensures each { OnOk result (EachStarts self.new.stages.items self.new.states.items) }
    {
        let Some(request) = first.second.get() else {
            return Ok(());
        };
        let rows = first.rows.as_slice().len();
        let procedure = Procedure::without_values(method);
        let started = start_stage(alloc, procedure, rows, request, &[], &[])?;
        self.push(started, Some(within))
    }

    // Adds the second stages within the units of the stage before.
    fn push_seconds(
        &mut self,
        alloc: Global,
        method: Method,
        stage: usize,
        units: &'a [FirstUnit],
    ) -> Result<(), NoMemory>
        requires each { EachStarts self.old.stages.items self.old.states.items }
        requires method { TakesRows method }
        requires units { All (IsFirst (Some method)) units.now }
        ensures stages { OnOk result (self.new.stages.items ≡ self.old.stages.items
            ++ stages_within (Some method) stage units.now (length units.now)) }
        ensures each { OnOk result (EachStarts self.new.stages.items self.new.states.items) }
    {
        for (unit, first) in units.iter().enumerate() {
            self.push_second(alloc, method, Place { stage, unit }, first)?;
        }
        Ok(())
    }

    // Adds the stages of a stratum.
    fn push_stratum(
        &mut self,
        alloc: Global,
        plan: &Plan,
        stratum: &'a Stratum,
    ) -> Result<(), NoMemory>
        requires each { EachStarts self.old.stages.items self.old.states.items }
        requires planned { IsPlanned plan.now stratum.now }
        ensures stages { OnOk result (self.new.stages.items ≡ self.old.stages.items
            ++ stages_in plan.now (length self.old.stages.items) (Some stratum.now)) }
        ensures each { OnOk result (EachStarts self.new.stages.items self.new.states.items) }
    {
        let stage = self.stages.len();
        self.push_first(alloc, plan, stratum)?;
        match plan.second() {
            Some(method) => self.push_seconds(alloc, method, stage, stratum.units.as_slice()),
            None => Ok(()),
        }
    }

    /// Adds the one stage of all strata, where they are drawn together.
    pub(crate) fn push_together(&mut self, alloc: Global, plan: &Plan) -> Result<(), NoMemory>
        requires none { self.old.stages.items ≡ [] }
        requires no_states { self.old.states.items ≡ [] }
        requires plan { CanBeDrawn plan.now }
        requires together { draws_together plan.now.procedure.method ≡ true }
        ensures stages { OnOk result (self.new.stages.items ≡ stage_of_strata plan.now ∷ []) }
        ensures each { OnOk result (EachFirst self.new.stages.items self.new.states.items) }
        ensures starts { OnOk result (AreStarted (layers_of plan.now) (record {
          design = design_of_strata (layers_of plan.now);
          state = first_state (design_of_strata (layers_of plan.now));
        })) }
    {
        let layers = layers_of(alloc, plan)?;
        let request = request_over(alloc, plan)?;
        let Started { design, state } = Started::of_strata(alloc, &layers)?;
        let design = StageDesign::of_strata(unit_count(plan), request, design);
        let kept = self.stages.push(Stage {
            design,
            within: None,
        });
        self.states.push(state)?;
        Ok(kept?)
    }

    /// Adds the stages of all strata, and gives the number of each stratum's first stage, and then that of all stages.
    pub(crate) fn push_strata(
        &mut self,
        alloc: Global,
        plan: &'a Plan,
    ) -> Result<Vec<usize>, NoMemory>
        requires none { self.old.stages.items ≡ [] }
        requires no_states { self.old.states.items ≡ [] }
        requires plan { CanBeDrawn plan.now }
        ensures stages { OnOk result (self.new.stages.items ≡ stages_of plan.now) }
        ensures each { OnOk result (EachStarts self.new.stages.items self.new.states.items) }
        ensures firsts { IfOk result (λ firsts. firsts.items
            ≡ map (first_number plan.now) (range_with_len 0 (suc (length plan.now.strata)))) }
    {
        self.stages.reserve(plan.strata())?;
        self.states.reserve(plan.strata())?;
        let mut firsts = Vec::with_capacity(alloc, plan.strata() + 1)?;
        for number in 0..plan.strata() {
            firsts.push(self.stages.len())?;
            self.push_stratum(alloc, plan, plan.stratum(number))?;
        }
        firsts.push(self.stages.len())?;
        Ok(firsts)
    }

    /// Adds the stages of one stratum alone, and gives the same of it.
    pub(crate) fn push_alone(
        &mut self,
        alloc: Global,
        plan: &'a Plan,
        stratum: usize,
    ) -> Result<Vec<usize>, NoMemory>
        requires none { self.old.stages.items ≡ [] }
        requires no_states { self.old.states.items ≡ [] }
        requires plan { CanBeDrawn plan.now }
        requires stratum { stratum < length plan.now.strata }
        ensures stages { OnOk result
            (self.new.stages.items ≡ stages_of (parts_by plan.now (Some stratum))) }
        ensures each { OnOk result (EachStarts self.new.stages.items self.new.states.items) }
        ensures firsts { IfOk result
            (λ firsts. firsts.items ≡ map (first_number (parts_by plan.now (Some stratum)))
            (range_with_len 0 2)) }
    {
        let mut firsts = Vec::new(alloc);
        firsts.push(0)?;
        self.push_stratum(alloc, plan, plan.stratum(stratum))?;
        firsts.push(self.stages.len())?;
        Ok(firsts)
    }
}
