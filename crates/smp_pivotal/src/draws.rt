//! How many draws select a unit.

ghost use Rattle.std.specs.{Prelude.{◌≡◌, ℕ, ◌<◌, false, length, slice_index}, Bool.{Decides}};
ghost use Rattle.smp_split.specs.{Counts.{draws_selecting, selected_after}, Orders.{frame_order}, Trees.{weight_sum}};
ghost use Rattle.smp_pivotal.specs.{Systematic.{PointsAt, numerator_of}, SystematicMethod.{method_of}};

use crate::{Systematic, SystematicState};

/// The systematic step, once the order of the units is drawn. It runs nothing: its contract is the theorem.
pub fn draws_of_units(design: &Systematic, state: &SystematicState)
    requires belongs { (method_of design.now).belongs state.now }
    requires drawn { state.now.order.left ≡ 0 }
    requires going { (method_of design.now).tree.done state.now ≡ false }

    // There are as many draws as the common denominator says.
    ensures bound { weight_sum ((method_of design.now).tree.parts state.now) ≡ state.now.state.den }

    // A draw selects a unit exactly where some whole j of 0 or more puts draw + j * den on the unit's piece.
    ensures selects { (draw unit : ℕ) → draw < state.now.state.den →
        unit < (method_of design.now).tree.units →
        Decides (selected_after (method_of design.now).tree state.now draw unit)
        (PointsAt state.now draw unit) }

    // Each unit is selected by exactly as many of the draws as its numerator says.
    ensures exactly { (unit : ℕ) → unit < (method_of design.now).tree.units →
        draws_selecting (method_of design.now).tree state.now unit ≡ numerator_of state.now unit }
{}

/// The state before the first step, in the order of the frame: each unit is selected by exactly as many of the draws as its numerator says.
/// It runs nothing: its contract is the theorem.
pub fn draws_in_frame_order(design: &Systematic, state: &SystematicState)
    requires belongs { (method_of design.now).belongs state.now }
    requires start { state.now ≡ design.now }
    requires frame { design.now.order ≡ frame_order (length design.now.state.numer) }
    ensures { (unit : ℕ) → unit < length design.now.state.numer →
        draws_selecting (method_of design.now).tree state.now unit ≡
        slice_index design.now.state.numer unit }
{}
