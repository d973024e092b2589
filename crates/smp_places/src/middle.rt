//! Where the root of a tree stands.
#![tactic(auto)]

ghost use Rattle.std.specs.Prelude.{◌≡◌, ◌≤◌, ◌<◌};
ghost use Rattle.smp_places.specs.Trees.{middle};

/// The place of the root of a tree.
pub fn middle_of(low: usize, high: usize) -> usize
    requires { low < high }
    ensures is { result ≡ middle low high }
    ensures from { low ≤ result }
    ensures before { result < high }
{
    low + (high - low) / 2
}
