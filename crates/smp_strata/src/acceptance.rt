//! Whether a frame serves a design, and the plan of both.

ghost use Rattle.std.specs.Prelude.{◌≡◌, IfOk, length};
ghost use Rattle.smp_frame.specs.Bounds.{HaveBalance, HavePoints, IsFrame};
ghost use Rattle.smp_design.specs.Bounds.{IsDesign};
ghost use Rattle.smp_strata.specs.{Asked.{AsksAsFrame}, Bounds.{IsPlan}, Draws.{DrawsAsAsked, IsAllocated}, Misfits.{Reports, misfit_of}};
ghost use Rattle.smp_strata.specs.Plans.{strata_plan};

use crate::building::planned;
use crate::layout::{clusters_of, strata_of};
use crate::{Misfit, Plan};
use smp_design::Design;
use smp_frame::Frame;
use std::alloc::Global;

/// The plan of a frame that was read with a design's columns, or the first reason why the frame doesn't serve the
/// design, in the order of [`Misfit`]'s variants; each kind is looked for in the whole frame before the next.
///
/// Strata, first stage units and rows are in order of first appearance in the frame. The time is linear in the rows,
/// but for the sorts of the allocation and of the requests.
pub fn accept(alloc: Global, frame: &Frame, design: &Design) -> Result<Plan, Misfit>
    requires frame { IsFrame frame.now }
    requires design { IsDesign design.now }
    requires balance { HaveBalance (length design.now.columns.balance) frame.now }
    requires points { HavePoints (length design.now.columns.near) frame.now }
    ensures misfit { Reports result (misfit_of design.now frame.now) }
    ensures plan { IfOk result (λ plan. plan ≡ strata_plan design.now frame.now) }

    // what is true of every plan
    ensures sound { IfOk result IsPlan }
    // each row has the inclusion probability that is asked for it
    ensures asked { IfOk result (AsksAsFrame design.now frame.now) }
    // each stratum draws its sample size of first stage units, each second stage its n of the rows
    ensures drawn { IfOk result (DrawsAsAsked design.now frame.now) }
    // a number that is asked of all strata is allocated among them by largest remainders, all of it
    ensures allocated { IfOk result (λ _. IsAllocated design.now frame.now) }
{
    let units = frame.units();
    let clusters = clusters_of(alloc, units, design.second)?;
    let strata = strata_of(alloc, units, &clusters)?;
    planned(alloc, units, design, &clusters, &strata)
}
