ghost use Rattle.std.specs.{Prelude.{◌≡◌, ◌++◌, ◌∷◌, [], ◌<◌, length, map, IfOk, OnOk, Some, codes, string_bytes}, Fmt.{decimal}};
ghost use Rattle.smp_app.specs.Texts;
ghost use Rattle.smp_app.specs.{Drawn.{rows_by}, Kept.Stages.{IsSelection, selection_view}};
ghost use Rattle.smp_app.specs.Kept.Stages as Stages;
ghost use Rattle.smp_plan.specs.Planned.{IsPlanned, plan_view};
ghost use Rattle.smp_frac.specs.Exact.{fraction, fraction_text};
ghost use Rattle.smp_weights.specs.Rows.{AddsRow, row};

use crate::job::{DrawnText, PlanText};
use crate::selection::{Selection, started_for};
use smp_frac::{Bytes, Frac, NoMemory, Text};
use smp_frame::Unit;
use smp_joint::joint_bytes;
use smp_log::{log_bytes, replay, step_lines};
use smp_plan::FramePlan;
use smp_split::Sections;
use smp_strata::asked;
use smp_twostage::{StartedWhole, balance_lines};
use smp_weights::{CsvRows, push_sample_row, sample_rows};
use std::alloc::Global;

impl PlanText {
    /// The text of a plan.
    pub(crate) fn bytes(self, alloc: Global, plan: &FramePlan) -> Result<Bytes, NoMemory>
        requires { IsPlanned plan.now }
        ensures { IfOk result (λ text. text ≡ Stages.plan_text self (plan_view plan.now)) }
    {
        match self {
            PlanText::Probabilities => probabilities_text(alloc, plan),
            PlanText::Accepted => accepted_text(alloc, plan),
            PlanText::Joints => joints_text(alloc, plan),
        }
    }
}

impl DrawnText {
    /// The text of what is drawn by a plan.
    pub(crate) fn bytes(
        self,
        alloc: Global,
        plan: &FramePlan,
        selection: &Selection,
    ) -> Result<Bytes, NoMemory>
        requires planned { IsPlanned plan.now }
        requires selection { IsSelection (plan_view plan.now) selection.now }
        ensures { IfOk result (λ text. text
            ≡ Stages.drawn_text self (selection_view (plan_view plan.now) selection.now)) }
    {
        match self {
            DrawnText::Ids => ids_text(alloc, plan, selection),
            DrawnText::Steps => step_lines(alloc, &selection.lines),
            DrawnText::Log => log_text(alloc, plan, selection),
            DrawnText::Sample => sample_text(alloc, plan, selection),
            DrawnText::Report => report_text(alloc, plan, selection),
            DrawnText::Summary => demo_text(alloc, plan, selection),
            DrawnText::Migrated => migrated_text(alloc, selection.lines.len()),
        }
    }
}

// The log: its head, the steps of a stratum after the other, and its end.
fn log_text(alloc: Global, plan: &FramePlan, selection: &Selection) -> Result<Bytes, NoMemory>
    requires planned { IsPlanned plan.now }
    requires selection { IsSelection (plan_view plan.now) selection.now }
    ensures { IfOk result (λ text. text
        ≡ Texts.log_text (selection_view (plan_view plan.now) selection.now)) }
{
    log_bytes(
        alloc,
        &plan.head,
        selection.whole.sections(),
        &selection.lines,
    )
}

// The ids of the drawn units: CSV with the header `id`, then an id a row, in frame order.
fn ids_text(alloc: Global, plan: &FramePlan, selection: &Selection) -> Result<Bytes, NoMemory>
    requires { IsSelection (plan_view plan.now) selection.now }
    ensures { IfOk result (λ text. text
        ≡ Texts.ids_text (selection_view (plan_view plan.now) selection.now)) }
{
    let units = plan.frame.units();
    let mut rows = CsvRows::new(alloc);
    rows.push(&[b"id"])?;
    for row in selection.rows.as_slice() {
        push_id(&mut rows, &units[*row].id)?;
    }
    rows.into_bytes()
}

fn push_id(rows: &mut CsvRows, id: &Text) -> Result<(), NoMemory>
    ensures { OnOk result (AddsRow rows.old rows.new (row (id.now ∷ []))) }
{
    rows.push(&[id.as_str().as_bytes()])
}

// The sample file: the drawn units with their design weights, in frame order.
fn sample_text(alloc: Global, plan: &FramePlan, selection: &Selection) -> Result<Bytes, NoMemory>
    requires planned { IsPlanned plan.now }
    requires selection { IsSelection (plan_view plan.now) selection.now }
    ensures { IfOk result (λ text. text
        ≡ Texts.sample_text (selection_view (plan_view plan.now) selection.now)) }
{
    let units = plan.frame.units();
    let mut rows = sample_rows(alloc)?;
    for row in selection.rows.as_slice() {
        push_sample_row(&mut rows, &units[*row].id, asked(&plan.plan, *row))?;
    }
    rows.into_bytes()
}

// The report of a draw: how many units were drawn of how many, and in how many steps; and the lines of the cube.
fn report_text(alloc: Global, plan: &FramePlan, selection: &Selection) -> Result<Bytes, NoMemory>
    requires planned { IsPlanned plan.now }
    requires selection { IsSelection (plan_view plan.now) selection.now }
    ensures { IfOk result (λ text. text
        ≡ Texts.report_text (selection_view (plan_view plan.now) selection.now)) }
{
    let drawn = selection.rows.as_slice().len();
    let units = row_count(plan, selection.only);
    let steps = selection.lines.len();
    let mut report = format!(in alloc; "selected {drawn} of {units}\nsteps {steps}\n")?;
    let lines = balance_lines(alloc, &selection.whole, &selection.state)?;
    report.push_str(&lines)?;
    bytes_of(alloc, &report)
}

// How many rows stand in all strata, or in the one with this number.
fn row_count(plan: &FramePlan, only: Option<usize>) -> usize
    requires { IsPlanned plan.now }
    ensures { result ≡ rows_by (plan_view plan.now) only }
{
    match only {
        None => plan.frame.units().len(),
        Some(stratum) => rows_in(plan, stratum),
    }
}

// How many rows stand in a section: in its stratum, or in all where they are drawn together.
fn rows_in(plan: &FramePlan, stratum: usize) -> usize
    requires { IsPlanned plan.now }
    ensures { result ≡ rows_by (plan_view plan.now) (Some stratum) }
{
    let units = plan.frame.units().len();
    let mut rows = 0;
    for row in 0..units {
        if plan.plan.procedure().method.draws_together() || plan.plan.seat(row).stratum == stratum {
            rows += 1;
        }
    }
    rows
}

// What is put of a log that was written anew.
fn migrated_text(alloc: Global, steps: usize) -> Result<Bytes, NoMemory>
    ensures { IfOk result (λ text. text
        ≡ codes "migrated " ++ (decimal steps ++ codes " steps\n")) }
{
    let migrated = format!(in alloc; "migrated {steps} steps\n")?;
    bytes_of(alloc, &migrated)
}

// The summary of the demonstration, once the log of the draw was replayed.
fn demo_text(alloc: Global, plan: &FramePlan, selection: &Selection) -> Result<Bytes, NoMemory>
    requires planned { IsPlanned plan.now }
    requires selection { IsSelection (plan_view plan.now) selection.now }
    ensures { IfOk result (λ text. text
        ≡ Texts.demo_text (selection_view (plan_view plan.now) selection.now)) }
{
    replay_own_log(alloc, plan, selection)?;
    let units = plan.frame.units().len();
    let drawn = selection.rows.as_slice().len();
    let steps = selection.lines.len();
    let lefts = lefts_text(alloc, plan, selection)?;
    let summary = format!(in alloc;
        "units {units}\nselected {drawn}\nsteps {steps}\nleft{lefts}\nreplay ok\n"
    )?;
    bytes_of(alloc, &summary)
}

// Replays the log of what was drawn, as `replay` would. It is genuine, so it is accepted.
fn replay_own_log(alloc: Global, plan: &FramePlan, selection: &Selection) -> Result<(), NoMemory>
    requires planned { IsPlanned plan.now }
    requires selection { IsSelection (plan_view plan.now) selection.now }
{
    let log = log_text(alloc, plan, selection)?;
    let StartedWhole { whole, mut state } = started_for(alloc, plan, selection.only)?;
    match replay(&whole, &mut state, &plan.head, log.as_slice()) {
        Ok(()) => Ok(()),
        Err(_) => unreachable!(),
    }
}

// How many units were fractional in each stratum where its landing began, each behind a blank.
fn lefts_text(alloc: Global, plan: &FramePlan, selection: &Selection) -> Result<String, NoMemory>
    requires planned { IsPlanned plan.now }
    requires selection { IsSelection (plan_view plan.now) selection.now }
    ensures { IfOk result (λ text. string_bytes text
        ≡ Texts.lefts_text (selection_view (plan_view plan.now) selection.now)) }
{
    let mut text = String::new(alloc);
    for stratum in 0..plan.plan.strata() {
        if selection.whole.covers(stratum) {
            push_left(&mut text, selection.whole.left(&selection.state, stratum))?;
        }
    }
    Ok(text)
}

fn push_left(text: &mut String, left: u32) -> Result<(), NoMemory>
    ensures { OnOk result (string_bytes text.new
        ≡ string_bytes text.old ++ (codes " " ++ decimal left)) }
{
    write!(text, " {left}")?;
    Ok(())
}

fn bytes_of(alloc: Global, text: &str) -> Result<Bytes, NoMemory>
    ensures { IfOk result (λ bytes. bytes ≡ text.now) }
{
    let mut bytes = Bytes::new(alloc);
    bytes.push_all(text.as_bytes())?;
    Ok(bytes)
}

// The requested probabilities: CSV with the header `id,probability`, then the id and the fraction of each row.
fn probabilities_text(alloc: Global, plan: &FramePlan) -> Result<Bytes, NoMemory>
    requires { IsPlanned plan.now }
    ensures { IfOk result (λ text. text ≡ Texts.probabilities_text (plan_view plan.now)) }
{
    let units = plan.frame.units();
    let mut rows = CsvRows::new(alloc);
    rows.push(&[b"id", b"probability"])?;
    for row in 0..units.len() {
        push_probability(&mut rows, &units[row].id, asked(&plan.plan, row))?;
    }
    rows.into_bytes()
}

fn push_probability(rows: &mut CsvRows, id: &Text, probability: Frac) -> Result<(), NoMemory>
    ensures { OnOk result (AddsRow rows.old rows.new
        (row (id.now ∷ fraction_text (fraction probability) ∷ []))) }
{
    let fraction = probability.text();
    rows.push(&[id.as_str().as_bytes(), fraction.as_slice()])
}

// The joint probabilities of each two units.
fn joints_text(alloc: Global, plan: &FramePlan) -> Result<Bytes, NoMemory>
    requires { IsPlanned plan.now }
    ensures { IfOk result (λ text. text ≡ Texts.joints_text (plan_view plan.now)) }
{
    let ids = ids_of(alloc, plan.frame.units())?;
    joint_bytes(alloc, ids.as_slice(), &plan.plan)
}

// The ids of units.
fn ids_of(alloc: Global, units: &[Unit]) -> Result<Vec<Text>, NoMemory>
    ensures { IfOk result (λ ids. ids.items ≡ map (λ u. u.id) units.now) }
{
    let mut ids = Vec::new(alloc);
    for unit in units {
        ids.push(unit.id.copy(alloc)?)?;
    }
    Ok(ids)
}

// What is said of a design and a frame that are accepted: how many units there are, and in how many strata.
fn accepted_text(alloc: Global, plan: &FramePlan) -> Result<Bytes, NoMemory>
    requires { IsPlanned plan.now }
    ensures { IfOk result (λ text. text ≡ Texts.accepted_text (plan_view plan.now)) }
{
    let units = plan.frame.units().len();
    let strata = plan.plan.strata();
    let accepted = format!(in alloc; "accepted {units} units in {strata} strata\n")?;
    bytes_of(alloc, &accepted)
}
