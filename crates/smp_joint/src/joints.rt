//! The joint probabilities of the rows of a plan.

ghost use Rattle.std.specs.Prelude.{◌≡◌, ◌<◌, true, length, is_some, IfOk, OnOk};
ghost use Rattle.smp_frac.specs.Exact.{fraction};
ghost use Rattle.smp_twostage.specs.Plans.{CanBeDrawn};
ghost use Rattle.smp_weights.specs.Rows.{AddsRow};
ghost use Rattle.smp_joint.specs.{JointRows.{HasJoints, IsSystematicPlan}, JointText.{joint_row, joint_rows, joint_text}};

use crate::pairs::Pairs;
use smp_frac::{Bytes, Frac, NoMemory, Text};
use smp_strata::Plan;
use smp_weights::CsvRows;
use std::alloc::Global;

/// The joint probabilities of the rows of a plan: CSV with the header `first,second,probability`, and a row for each two
/// rows of the frame, by their ids, the earlier one first, in frame order of the first and then of the second. It takes
/// time quadratic in the rows, and draws nothing.
///
/// What they are is said where the plan draws systematically, in the order of the frame and in one stage.
pub fn joint_bytes(alloc: Global, ids: &[Text], plan: &Plan) -> Result<Bytes, NoMemory>
    requires ids { length ids.now ≡ plan.now.rows }
    ensures text { IfOk result (λ text. text ≡ joint_text ids.now plan.now) }

    // Where the plan draws systematically, in the order of the frame and in one stage, these are the probabilities that
    // both rows are selected; and where those of a stratum's units add up to n, the joint ones of a unit with the others
    // add up to n - 1 times its own.
    ensures joints { OnOk result
        (CanBeDrawn plan.now → IsSystematicPlan plan.now → HasJoints plan.now) }
{
    let pairs = Pairs::new(alloc, plan)?;
    let mut rows = CsvRows::new(alloc);
    rows.push(&[b"first", b"second", b"probability"])?;
    for first in 0..ids.len() {
        push_pairs(&mut rows, ids, &pairs, first)?;
    }
    rows.into_bytes()
}

// Writes the rows of a row of the frame with each later one.
fn push_pairs(rows: &mut CsvRows, ids: &[Text], pairs: &Pairs, first: usize) -> Result<(), NoMemory>
    requires ids { length ids.now ≡ pairs.now.rows }
    requires first { first < length ids.now }
    requires there { is_some rows.old ≡ true }
    ensures { OnOk result (AddsRow rows.old rows.new (joint_rows ids.now pairs.now first)) }
{
    for second in first + 1..ids.len() {
        let joint = pairs.joint(first, second);
        push_pair(rows, &ids[first], &ids[second], joint)?;
    }
    Ok(())
}

// Writes the row of two rows of the frame.
fn push_pair(rows: &mut CsvRows, first: &Text, second: &Text, joint: Frac) -> Result<(), NoMemory>
    ensures { OnOk result (AddsRow rows.old rows.new
        (joint_row first.now second.now (fraction joint))) }
{
    let probability = joint.text();
    rows.push(&[
        first.as_str().as_bytes(),
        second.as_str().as_bytes(),
        probability.as_slice(),
    ])
}
