ghost use Rattle.std.specs.Prelude.{◌≡◌, [], ◌^◌, ◌<◌, ◌≤◌, length, None, Some, IfOk, IfErr, IfSome, OnOk};
ghost use Rattle.smp_tape.specs.TapeSources.{tape_source};
ghost use Rattle.smp_split.specs.Runs.{KeepsOn, and_then, run};
ghost use Rattle.smp_log.specs.{Answers.{AnswersAs}, Genuine.{IsFullPath}, SectionLogs.{ArePlaced, steps_of}};
ghost use Rattle.smp_twostage.specs.Selections.{BelongsToCovered, all_of, covered_tree, section_count, strata_sections};
ghost use Rattle.smp_app.specs.{Commands.{source_names}, Drawn.{tree_of, start_of}, Kept.Exact.{IfLine, IsRefusedBy}};
ghost use Rattle.smp_io.specs.Store.{Files};
ghost use Rattle.smp_app.specs.Verdict.{drawn_by_seed, drawn_from, drawn_stage, stratum_at, values_left, values_taken};
ghost use Rattle.smp_status.specs.{Codes.{class_of}, Reports.{IsOfContent}};
ghost use Rattle.smp_plan.specs.{Reads.{Follows, Reads, Sees, told, result_view}, Planned.{IsPlanned, plan_view}};
ghost use Rattle.smp_app.specs.Kept.Stages.{DiffersTaken, EndsAs, EndsAsTold, FollowsEnd, HasStratum, IsSelection};
ghost use Rattle.smp_app.specs.Kept.Stages.{IsSourceInRanges, IsStart, IsWalked, selection_view, stopped_status, walked_view};
ghost use Rattle.smp_app.specs.Kept.Stages.{draw_view, drawn_by_taken, end_told, only_of, path_by, reading_by};

use crate::Status;
use crate::job::DrawSource;
use smp_frac::NoMemory;
use smp_io::Store;
use smp_log::{Head, ReplayFault, SectionLines, old_replay_into, replay_into, replay_section_into};
use smp_methods::AnyState;
use smp_plan::{FramePlan, read_input};
use smp_split::{Splitting, StagesState, WalkFault, selected_units, walk};
use smp_tape::{ChaChaWords, DrawFault, Draws, Sieve, Tape};
use smp_twostage::{StartedWhole, Whole, section_count};
use std::alloc::Global;

/// Why a walk came to no leaf.
#[derive(Clone, Copy)]
pub enum Stopped {
    /// A draw below a bound was refused.
    Draw { fault: DrawFault, bound: u128 },
    /// The log isn't genuine: this is the first line that isn't kept.
    Log { line: u64 },
    /// Memory ran out.
    NoMemory,
}

/// How a log is taken.
#[derive(Clone, Copy)]
pub enum Taken {
    /// As a log of all strata, of either version.
    Either,
    /// As a log of all strata, of version 1 alone.
    Old,
    /// As a log of version 2, of which the section of one stratum counts, counted from 0.
    Stratum(usize),
}

impl Taken {
    // The number of the stratum for which it is taken, where it is one alone.
    fn only(self) -> Option<usize>
        ensures { result ≡ only_of self }
    {
        match self {
            Taken::Either | Taken::Old => None,
            Taken::Stratum(stratum) => Some(stratum),
        }
    }
}

/// The selection by a plan, of all strata or of the one with this number, the state at which a walk ended, and how it
/// ended: at a leaf, with the lines of its steps, or before.
#[derive(Drop)]
pub struct Walked<'a> {
    pub whole: Whole<'a>,
    pub only: Option<usize>,
    pub state: StagesState<AnyState>,
    pub end: Result<SectionLines, Stopped>,
}

/// What is drawn: the selection, of all strata or of the one with this number, the done state at which a walk ended,
/// the rows that it selects, in frame order, and the lines of its steps.
#[derive(Drop)]
pub struct Selection<'a> {
    pub whole: Whole<'a>,
    pub only: Option<usize>,
    pub state: StagesState<AnyState>,
    pub rows: Vec<usize>,
    pub lines: SectionLines,
}

/// The start of a selection of all strata, or of the one with this number.
pub(crate) fn started_for<'a>(
    alloc: Global,
    plan: &'a FramePlan,
    only: Option<usize>,
) -> Result<StartedWhole<'a>, NoMemory>
    requires planned { IsPlanned plan.now }
    requires only { IfSome only (λ stratum. stratum < section_count (all_of plan.now.plan)) }
    ensures { IfOk result (IsStart plan.now.plan only) }
{
    match only {
        None => Whole::start(alloc, &plan.plan),
        Some(stratum) => Whole::only(alloc, &plan.plan, stratum),
    }
}

// Walks by a plan from its start.
fn walk_from<'a, D: Draws>(
    alloc: Global,
    plan: &'a FramePlan,
    started: StartedWhole<'a>,
    draws: &mut D,
) -> Walked<'a>
    requires planned { IsPlanned plan.now }
    requires started { IsStart plan.now.plan None started }
    ensures only { result.only ≡ None }
    ensures ends { EndsAs (plan_view plan.now)
        (run D.source (tree_of (plan_view plan.now)) (start_of (plan_view plan.now)) draws.old)
        draws.new result.state result.end }
    ensures walked { IfOk result.end (λ lines. IsWalked (plan_view plan.now) result.whole lines
        (walked_view (plan_view plan.now) result lines)) }
{
    let StartedWhole { whole, mut state } = started;
    let mut lines = SectionLines::new(alloc);
    match walk(&whole, &mut state, draws, &mut lines) {
        Ok(()) => {
            let end = Ok(lines);
            Walked {
                whole,
                only: None,
                state,
                end,
            }
        }
        Err(WalkFault::Draw(fault)) => {
            let bound = whole.bound(&state);
            let end = Err(Stopped::Draw { fault, bound });
            Walked {
                whole,
                only: None,
                state,
                end,
            }
        }
        Err(WalkFault::NoMemory) => {
            let end = Err(Stopped::NoMemory);
            Walked {
                whole,
                only: None,
                state,
                end,
            }
        }
    }
}

// The end of a replay, by its answer and the lines that it told.
fn end_told(told: Result<(), ReplayFault>, lines: SectionLines) -> Result<SectionLines, Stopped>
    ensures { result ≡ end_told told lines }
{
    match told {
        Ok(()) => Ok(lines),
        Err(ReplayFault::Differs { line }) => Err(Stopped::Log { line }),
        Err(ReplayFault::NoMemory) => Err(Stopped::NoMemory),
    }
}

// Goes along the steps that a log tells, by the way in which it is taken.
fn replay_taken(
    whole: &Whole,
    state: &mut StagesState<AnyState>,
    head: &Head,
    taken: Taken,
    log: &[u8],
    lines: &mut SectionLines,
) -> Result<(), ReplayFault>
    requires belongs { BelongsToCovered whole.now state.old }
    requires one { IfSome (only_of taken) (λ h. (strata_sections whole.now).count ≡ 1) }
    requires room { IfSome (only_of taken) (λ h. h < 2 ^ 32) }
    ensures reading { AnswersAs result state.new
        (reading_by taken whole.now state.old head.now log.now) }
    ensures told { OnOk result (Some (steps_of lines.new)
        ≡ and_then (Some (steps_of lines.old)) (path_by taken whole.now state.old log.now)) }
    ensures kept { OnOk result
        (KeepsOn (ArePlaced (covered_tree whole.now) (strata_sections whole.now))
        state.old state.new lines.old lines.new) }
    ensures full { OnOk result (IsFullPath (covered_tree whole.now) state.old
        (path_by taken whole.now state.old log.now) state.new) }
    ensures belongs { BelongsToCovered whole.now state.new }
{
    match taken {
        Taken::Either => replay_into(whole, state, head, log, lines),
        Taken::Old => old_replay_into(whole, state, head, log, lines),
        Taken::Stratum(stratum) => {
            replay_section_into(whole, state, head, stratum + 1, log, lines)
        }
    }
}

// Goes along the steps that a log tells, from the start of the strata for which it is taken.
fn walk_by_log<'a>(
    alloc: Global,
    plan: &'a FramePlan,
    started: StartedWhole<'a>,
    taken: Taken,
    log: &[u8],
) -> Walked<'a>
    requires planned { IsPlanned plan.now }
    requires only { HasStratum plan.now.plan (only_of taken) }
    requires started { IsStart plan.now.plan (only_of taken) started }
    ensures only { result.only ≡ only_of taken }
    ensures ends { EndsAsTold (plan_view plan.now) (only_of taken)
        (drawn_by_taken taken (plan_view plan.now) log.now) result.state result.end }
    ensures walked { IfOk result.end (λ lines. IsWalked (plan_view plan.now) result.whole lines
        (walked_view (plan_view plan.now) result lines)) }
{
    let StartedWhole { whole, mut state } = started;
    let mut lines = SectionLines::new(alloc);
    let told = replay_taken(&whole, &mut state, &plan.head, taken, log, &mut lines);
    Walked {
        whole,
        only: taken.only(),
        state,
        end: end_told(told, lines),
    }
}

// The refusal for which a walk stopped, where so many values were taken.
fn refusal(stopped: Stopped, taken: u64) -> Status
    ensures status { result ≡ stopped_status stopped taken }
{
    match stopped {
        Stopped::Draw {
            fault: DrawFault::Short,
            ..
        } => Status::TapeShort { taken },
        Stopped::Draw {
            fault: DrawFault::TooBig { place, value },
            bound,
        } => Status::TapeValue {
            place,
            value,
            bound,
        },
        Stopped::Draw {
            fault: DrawFault::Rejected { bound },
            ..
        } => Status::Rejected { bound },
        Stopped::Log { line } => Status::LogDiffers { line },
        Stopped::NoMemory => Status::NoMemory,
    }
}

// What is drawn where a walk ended with so many values taken and so many left.
fn selection_at<'a>(
    alloc: Global,
    plan: &'a FramePlan,
    walked: Walked<'a>,
    taken: u64,
    left: u64,
) -> Result<Selection<'a>, Status>
    requires { IfOk walked.end (λ lines. IsWalked (plan_view plan.now) walked.whole lines
        (walked_view (plan_view plan.now) walked lines)) }
    ensures follows { FollowsEnd (plan_view plan.now) walked.entry.only
        (result_view (selection_view (plan_view plan.now)) result)
        walked.entry.state walked.entry.end taken left }
    ensures kinds { IfErr result (λ error. IsOfContent (class_of error) error) }
    ensures selection { IfOk result (IsSelection (plan_view plan.now)) }
{
    let Walked {
        whole,
        only,
        state,
        end,
    } = walked;
    let lines = match end {
        Ok(lines) => lines,
        Err(stopped) => return Err(refusal(stopped, taken)),
    };
    if left > 0 {
        return Err(Status::TapeLong { left });
    }
    let rows = selected_units(alloc, &whole, &state)?;
    Ok(Selection {
        whole,
        only,
        state,
        rows,
        lines,
    })
}

// Selects by a plan with the values of a tape. All values are taken, or it is refused.
fn select_by_tape<'a>(
    alloc: Global,
    plan: &'a FramePlan,
    tape: Tape,
) -> Result<Selection<'a>, Status>
    requires { IsPlanned plan.now }
    ensures follows { Follows (result_view (selection_view (plan_view plan.now)) result)
        (drawn_from tape_source values_taken values_left (plan_view plan.now) tape) }
    ensures kinds { IfErr result (λ error. IsOfContent (class_of error) error) }
    ensures selection { IfOk result (IsSelection (plan_view plan.now)) }
{
    let started = started_for(alloc, plan, None)?;
    let mut tape = tape;
    let walked = walk_from(alloc, plan, started, &mut tape);
    selection_at(alloc, plan, walked, tape.taken(), tape.left())
}

// Selects by a plan with the words of a seed.
fn select_by_seed<'a>(
    alloc: Global,
    plan: &'a FramePlan,
    seed: [u8; 32],
) -> Result<Selection<'a>, Status>
    requires { IsPlanned plan.now }
    ensures follows { Follows (result_view (selection_view (plan_view plan.now)) result)
        (drawn_by_seed (plan_view plan.now) seed) }
    ensures kinds { IfErr result (λ error. IsOfContent (class_of error) error) }
    ensures selection { IfOk result (IsSelection (plan_view plan.now)) }
{
    let started = started_for(alloc, plan, None)?;
    let mut draws = Sieve::new(ChaChaWords::new(seed));
    let walked = walk_from(alloc, plan, started, &mut draws);
    selection_at(alloc, plan, walked, 0, 0)
}

// The section of a number, counted from 1: a stratum, or all strata where they are drawn together. A number that passes that of the
// sections is refused.
fn stratum_at(plan: &FramePlan, number: u32) -> Result<usize, Status>
    requires planned { IsPlanned plan.now }
    requires number { 1 ≤ number }
    ensures follows { Follows result (stratum_at (plan_view plan.now) number) }
    ensures kinds { IfErr result (λ error. IsOfContent (class_of error) error) }
    ensures within { IfOk result (λ stratum. stratum < section_count (all_of plan.now.plan)) }
    ensures small { IfOk result (λ stratum. stratum < 2 ^ 32) }
{
    let strata = section_count(&plan.plan);
    if number as usize > strata {
        return Err(Status::NoStratum {
            number,
            strata: strata as u32,
        });
    }
    Ok(number as usize - 1)
}

// Selects by a plan what a log tells. Where one stratum is taken, no other stratum has a state.
fn select_by_log<'a>(
    alloc: Global,
    plan: &'a FramePlan,
    taken: Taken,
    log: &[u8],
) -> Result<Selection<'a>, Status>
    requires planned { IsPlanned plan.now }
    requires only { HasStratum plan.now.plan (only_of taken) }
    ensures follows { Follows (result_view (selection_view (plan_view plan.now)) result)
        (drawn_by_taken taken (plan_view plan.now) log.now) }
    ensures differs { IfErr result (λ refusal. IfLine refusal
        (DiffersTaken taken (plan_view plan.now) log.now)) }
    ensures kinds { IfErr result (λ error. IsOfContent (class_of error) error) }
    ensures selection { IfOk result (IsSelection (plan_view plan.now)) }
{
    let started = started_for(alloc, plan, taken.only())?;
    // The head tells its lines.
    let _lines = plan.head.as_slice();
    let walked = walk_by_log(alloc, plan, started, taken, log);
    selection_at(alloc, plan, walked, 0, 0)
}

/// Selects by a plan, with the values of a tape or by the steps of a log, which is read first, or with the words of a
/// seed. Where one section of a log is asked for that the plan hasn't, that comes before the log is read.
#[tactic(auto, unfolding(crate::specs::Verdict::drawn_stage), using(smp_io::proofs::Asked::only_none))]
pub fn selection_from<'a, K: Store>(
    alloc: Global,
    store: &mut K,
    plan: &'a FramePlan,
    from: DrawSource,
) -> Result<Selection<'a>, Status>
    requires planned { IsPlanned plan.now }
    requires from { IsSourceInRanges from }
    ensures reads { Reads (source_names (draw_view from.entry))
        (drawn_stage (plan_view plan.now) (draw_view from.entry))
        (result_view (selection_view (plan_view plan.now)) result)
        (told K.files K.read_faults K.write_faults K.write_shortages K.asked store.old)
        (told K.files K.read_faults K.write_faults K.write_shortages K.asked store.new) }
    ensures selection { IfOk result (IsSelection (plan_view plan.now)) }
    ensures differs { (fs : Files)
        → Sees (source_names (draw_view from.entry)) (K.files store.old) fs
        → IfErr result (IsRefusedBy (plan_view plan.now) (draw_view from.entry) fs) }
    ensures idle { source_names (draw_view from.entry) ≡ [] → store.new ≡ store.old }
{
    match from {
        DrawSource::Tape(name) => {
            let bytes = read_input(alloc, store, name.as_str())?;
            let tape = Tape::read(alloc, bytes.as_slice())?;
            select_by_tape(alloc, plan, tape)
        }
        DrawSource::Seed(seed) => select_by_seed(alloc, plan, seed),
        DrawSource::Log(name) => {
            let bytes = read_input(alloc, store, name.as_str())?;
            select_by_log(alloc, plan, Taken::Either, bytes.as_slice())
        }
        DrawSource::OldLog(name) => {
            let bytes = read_input(alloc, store, name.as_str())?;
            select_by_log(alloc, plan, Taken::Old, bytes.as_slice())
        }
        DrawSource::Section(name, number) => {
            let stratum = stratum_at(plan, number)?;
            let bytes = read_input(alloc, store, name.as_str())?;
            select_by_log(alloc, plan, Taken::Stratum(stratum), bytes.as_slice())
        }
    }
}
