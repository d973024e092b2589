//! A selection by elimination that ends while more units are left than its request draws, as no draw of the program does.

use crate::walks;
use smp_elim::Elimination;
use smp_prob::Request;
use smp_split::Kind;
use std::alloc::Global;
use std::test::Fail;

fn three_units_are_left(alloc: Global) -> Result<bool, Fail> {
    let request = Request::all_free(alloc, &[1, 2, 3, 4], 2, 10)?;
    let design = Elimination::to(alloc, &request, 3)?;
    let mut state = design.start(alloc)?;
    let path = [(Kind::Eliminate, 3, 0)];
    Ok(walks(alloc, &design, &mut state, path.as_slice(), &[1, 2, 3])?)
}

#[test]
fn three_units_of_a_request_of_two(rt: HostRuntime) -> Result<(), Fail> {
    assert!(rt; three_units_are_left(rt.alloc())?);
    Ok(())
}
