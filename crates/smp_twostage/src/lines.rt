//! What the report tells of the strata that are balanced.

ghost use Rattle.std.specs.{Prelude.{◌≡◌, ◌++◌, ◌+◌, ◌^◌, ◌<◌, true, length, map, IfOk, OnOk, string_bytes}, List.{flat_map, slice_get}};
ghost use Rattle.smp_design.specs.Words.{balances};
ghost use Rattle.smp_frac.specs.LowestTerms.{lowest_terms};
ghost use Rattle.smp_strata.specs.Seats.{first_fraction};
ghost use Rattle.smp_twostage.specs.Kept.Stages.{IsThere, each_told, section_lines, told_count, told_seat};
ghost use Rattle.smp_twostage.specs.{Lines.{balance_lines, seat_values, told_sections}, Plans.{CanBeDrawn}};
ghost use Rattle.smp_twostage.specs.{Selections.{BelongsToCovered, covered_tree, covers}, Starts.{covered_first}};

use crate::{DrawnUnits, Whole, section_count};
use smp_frac::{Frac, NoMemory};
use smp_methods::AnyState;
use smp_split::StagesState;
use smp_strata::{Plan, Seat, first_asked};
use std::alloc::Global;

/// What the cube, or the local cube, kept and gave up in each stratum that is covered (Deville and Tillé 2004), in a done state; no text
/// by any other method.
///
/// Of each stratum H, in order of first appearance, come `left H L`, with L the number of its first stage units that were undecided
/// where its landing began (see [`Whole::left`]); and then for each balancing column J `balance H J E T`. E is the sum of the values of
/// the drawn first stage units over their probabilities in the stratum, a fraction in lowest terms, or `wide` where it needs a number of
/// 2^126 or more; T is the sum of the values of those that can be selected. H and J are counted from 1, H among all strata of the plan.
/// Each line ends with a line feed.
///
/// Where all strata are drawn together, these are the lines of one, of the number 1, over the units of all strata.
///
/// Where there is too little memory, the answer is [`NoMemory`], the only error.
pub fn balance_lines(
    alloc: Global,
    whole: &Whole,
    state: &StagesState<AnyState>,
) -> Result<String, NoMemory>
    requires state { BelongsToCovered whole.now state.now }
    requires done { (covered_tree whole.now).done state.now ≡ true }
    ensures { IfOk result (λ text. string_bytes text ≡ balance_lines whole.now state.now.states) }
{
    let plan = whole.plan();
    let mut text = String::new(alloc);
    if !plan.procedure().method.balances() {
        return Ok(text);
    }
    for section in 0..section_count(plan) {
        if whole.covers(section) {
            push_lines(alloc, &mut text, whole, state, section)?;
        }
    }
    Ok(text)
}

// Writes the lines of a section.
fn push_lines(
    alloc: Global,
    text: &mut String,
    whole: &Whole,
    state: &StagesState<AnyState>,
    section: usize,
) -> Result<(), NoMemory>
    requires state { BelongsToCovered whole.now state.now }
    requires done { (covered_tree whole.now).done state.now ≡ true }
    requires balance { balances whole.now.plan.procedure.method ≡ true }
    requires within { section < length whole.now.plan.strata }
    requires covered { covers whole.now section ≡ true }
    requires room { section + 1 < 2 ^ 64 }
    ensures { OnOk result (string_bytes text.new
        ≡ string_bytes text.old ++ section_lines whole.now state.now.states section) }
{
    let lines = section_lines(alloc, whole, state, section)?;
    text.push_str(&lines)?;
    Ok(())
}

// The lines of a section.
fn section_lines(
    alloc: Global,
    whole: &Whole,
    state: &StagesState<AnyState>,
    section: usize,
) -> Result<String, NoMemory>
    requires state { BelongsToCovered whole.now state.now }
    requires done { (covered_tree whole.now).done state.now ≡ true }
    requires balance { balances whole.now.plan.procedure.method ≡ true }
    requires within { section < length whole.now.plan.strata }
    requires covered { covers whole.now section ≡ true }
    requires room { section + 1 < 2 ^ 64 }
    ensures { IfOk result
        (λ text. string_bytes text ≡ section_lines whole.now state.now.states section) }
{
    let plan = whole.plan();
    let values = told_values(alloc, whole, section)?;
    let asked = told_asked(alloc, whole, section)?;
    let chosen = told_chosen(alloc, whole, state, section)?;
    let drawn = DrawnUnits {
        number: section + 1,
        left: whole.left(state, section),
        columns: plan.procedure().balance,
        values: values.as_slice(),
        asked: asked.as_slice(),
        chosen: chosen.as_slice(),
    };
    crate::drawn_lines(alloc, &drawn)
}

// ---- the first stage units of a section

// How many are told.
fn told_count(whole: &Whole, section: usize) -> usize
    requires { section < length whole.now.plan.strata }
    ensures { result ≡ told_count whole.now section }
{
    let plan = whole.plan();
    if plan.procedure().method.draws_together() {
        plan.rows()
    } else {
        plan.stratum(section).units.as_slice().len()
    }
}

// Where one of them stands.
fn told_seat(whole: &Whole, section: usize, number: usize) -> Seat
    requires drawable { CanBeDrawn whole.now.plan }
    requires within { section < length whole.now.plan.strata }
    requires covered { covers whole.now section ≡ true }
    requires number { number < told_count whole.now section }
    ensures is { result ≡ told_seat whole.now section number }
    ensures there { IsThere whole.now.plan result }
    ensures covered { covers whole.now result.stratum ≡ true }
{
    let plan = whole.plan();
    if plan.procedure().method.draws_together() {
        plan.seat(number)
    } else {
        Seat {
            stratum: section,
            unit: number,
            place: 0,
        }
    }
}

// Their balancing values.
fn told_values<'a>(
    alloc: Global,
    whole: &'a Whole,
    section: usize,
) -> Result<Vec<&'a [i32]>, NoMemory>
    requires drawable { CanBeDrawn whole.now.plan }
    requires within { section < length whole.now.plan.strata }
    requires covered { covers whole.now section ≡ true }
    ensures { IfOk result (λ values. map (λ v. v.now) values.items
        ≡ each_told (seat_values whole.now.plan) whole.now section (told_count whole.now section)) }
{
    let units = told_count(whole, section);
    let mut values = Vec::with_capacity(alloc, units)?;
    for number in 0..units {
        values.push(values_at(whole.plan(), told_seat(whole, section, number)))?;
    }
    Ok(values)
}

// Those of one.
fn values_at<'a>(plan: &'a Plan, seat: Seat) -> &'a [i32]
    requires { IsThere plan.now seat }
    ensures { result.now ≡ seat_values plan.now seat }
{
    let stratum = plan.stratum(seat.stratum);
    stratum.units.as_slice()[seat.unit].balance.as_slice()
}

// The probabilities that are asked for them.
fn told_asked(alloc: Global, whole: &Whole, section: usize) -> Result<Vec<Frac>, NoMemory>
    requires drawable { CanBeDrawn whole.now.plan }
    requires within { section < length whole.now.plan.strata }
    requires covered { covers whole.now section ≡ true }
    ensures { IfOk result (λ asked. asked.items
        ≡ each_told (λ p. lowest_terms (first_fraction whole.now.plan.strata p.stratum p.unit))
        whole.now section (told_count whole.now section)) }
{
    let units = told_count(whole, section);
    let mut asked = Vec::with_capacity(alloc, units)?;
    for number in 0..units {
        asked.push(asked_at(whole.plan(), told_seat(whole, section, number)))?;
    }
    Ok(asked)
}

// That of one.
fn asked_at(plan: &Plan, seat: Seat) -> Frac
    requires { IsThere plan.now seat }
    ensures { result ≡ lowest_terms (first_fraction plan.now.strata seat.stratum seat.unit) }
{
    first_asked(plan, seat.stratum, seat.unit)
}

// Whether each is drawn.
fn told_chosen(
    alloc: Global,
    whole: &Whole,
    state: &StagesState<AnyState>,
    section: usize,
) -> Result<Vec<bool>, NoMemory>
    requires state { BelongsToCovered whole.now state.now }
    requires done { (covered_tree whole.now).done state.now ≡ true }
    requires within { section < length whole.now.plan.strata }
    requires covered { covers whole.now section ≡ true }
    ensures { IfOk result (λ chosen. chosen.items
        ≡ each_told (λ p. covered_first whole.now state.now.states p.stratum p.unit)
        whole.now section (told_count whole.now section)) }
{
    let units = told_count(whole, section);
    let mut chosen = Vec::with_capacity(alloc, units)?;
    for number in 0..units {
        let seat = told_seat(whole, section, number);
        chosen.push(whole.first(state, seat.stratum, seat.unit))?;
    }
    Ok(chosen)
}
