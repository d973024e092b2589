//! Brewer's method over as many units as there may be. A body that adds up the sizes for each offer would make some 200,000,000,000 additions
//! here, and not end in a test's time.

ghost use Rattle.std.specs.Prelude.{◌≤◌};

use smp_brewer::Brewer;
use smp_prob::requested;
use smp_split::{Kind, NoTrace, Splitting, WalkFault, walk};
use smp_tape::{DrawFault, Tape};
use std::alloc::Global;
use std::test::Fail;

// Whether a draw of two units of these sizes, by the values of a tape, ends since the tape ends, where it would offer a unit: then all values
// are taken.
fn offers_to_the_end(alloc: Global, sizes: &[u32], values: &[u128]) -> Result<bool, Fail> {
    if sizes.len() > 200_000 || !sizes.iter().all(|&size| size < 1 << 31) {
        return Ok(false);
    }
    let Ok(request) = requested(alloc, sizes, 2) else {
        return Ok(false);
    };
    let design = Brewer::new(alloc, &request)?;
    let mut state = design.start(alloc)?;
    let mut tape = Tape::from_values(alloc, values)?;
    let end = walk(&design, &mut state, &mut tape, &mut NoTrace);
    let is_short = end == Err(WalkFault::Draw(DrawFault::Short));
    let is_taken = tape.taken() == values.len() as u64;
    Ok(is_short && is_taken && !design.done(&state) && design.kind(&state) == Kind::Offer)
}

fn sizes(alloc: Global) -> Result<Vec<u32>, Fail> {
    let mut sizes = vec![in alloc; 1; 200_000]?;
    sizes[0] = 2;
    Ok(sizes)
}

fn refused_offers(alloc: Global) -> Result<Vec<u128>, Fail> {
    let mut values = Vec::new(alloc);
    for _ in 0..2_000_000 {
        values.extend_from_slice(&[100_000, 39_999_600_000])?;
    }
    Ok(values)
}

fn all_are_refused(alloc: Global) -> Result<bool, Fail> {
    let sizes = sizes(alloc)?;
    let values = refused_offers(alloc)?;
    offers_to_the_end(alloc, sizes.as_slice(), values.as_slice())
}

// Each offer falls on the 100,000th unit. Of the 199,999 ^ 2 draws for a unit of size 1 the first 200,000 * 199,997 take it, which are
// 39,999,400,000, so each offer is refused.
#[test]
fn two_million_offers_are_refused(rt: HostRuntime) -> Result<(), Fail> {
    assert!(rt; all_are_refused(rt.alloc())?);
    Ok(())
}
