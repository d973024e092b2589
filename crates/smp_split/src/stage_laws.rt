//! Laws of selections in stages.

ghost use Rattle.std.specs.Prelude.{◌≡◌, ◌+◌, ◌<◌, ℕ, Bool, length, suc};
ghost use Rattle.smp_split.specs.{Methods.{owns, trees}, Sectioning.{IsPartOf, IsSectioned}};
ghost use Rattle.smp_split.specs.{OwnStages.{AreSections, AreTheirOwn, own_progress, sections_by}, Stages.{IsUnderWay, staged_tree}};

use crate::{Splitting, Stages};

/// Stages in sections are drawn one section after the other. It runs nothing: its contract is the theorem.
pub fn stages_go_by_sections<D: Splitting>(stages: &Stages<D>)
    ensures { (before : ℕ → ℕ) (n : ℕ) → AreSections stages.now.stages.items before n
        → IsSectioned (staged_tree (trees D.method) stages.now.stages.items stages.now.seats.items)
        (IsUnderWay (trees D.method) (owns D.method) stages.now.stages.items)
        (sections_by before n) }
{}

/// Stages of their own that are a section are a part of the whole, and make its steps there. It runs nothing: its contract is the theorem.
pub fn own_stages_are_a_part<D: Splitting>(stages: &Stages<D>, part: &Stages<D>)
    ensures { (before : ℕ → ℕ) (n h : ℕ) (own : ℕ → Bool)
        → AreSections stages.now.stages.items before n → h < n
        → before (suc h) ≡ before h + length part.now.stages.items
        → AreTheirOwn stages.now.stages.items stages.now.seats.items (before h)
        part.now.stages.items part.now.seats.items own
        → IsPartOf (staged_tree (trees D.method) stages.now.stages.items stages.now.seats.items)
        (IsUnderWay (trees D.method) (owns D.method) stages.now.stages.items) (sections_by before n)
        h
        (staged_tree (trees D.method) part.now.stages.items part.now.seats.items)
        (own_progress (trees D.method) (before h) part.now.stages.items) own }
{}
