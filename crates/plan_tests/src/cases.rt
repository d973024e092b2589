use smp_cases::{CASES, CaseFault, demo_design, demo_frame, needs_columns, run_case};
use smp_design::Method;
use smp_tape::DrawFault;
use std::alloc::Global;
use std::test::Fail;

fn run(
    alloc: Global,
    method: Method,
    sizes: &[u32],
    n: u32,
    tape: &[u128],
) -> Option<Result<u64, CaseFault>> {
    let small = sizes.iter().all(|&size| size < 1 << 31);
    if needs_columns(method) || sizes.len() > 64 || n == 0 || !small {
        return None;
    }
    Some(run_case(alloc, method, sizes, n, tape))
}

fn mask_of(places: &[u32]) -> u64 {
    places
        .iter()
        .fold(0, |mask, &place| mask | 1u64.wrapping_shl(place))
}

#[test]
fn cases_draw_their_units(rt: HostRuntime) -> Result<(), Fail> {
    let alloc = rt.alloc();
    let mut wrong = None;
    for case in &CASES {
        let drawn = run(alloc, case.method, case.sizes, case.n, case.tape);
        if drawn != Some(Ok(mask_of(case.drawn))) {
            wrong = Some((case.method, case.n));
        }
    }
    assert_eq!(rt; wrong, None);
    Ok(())
}

#[test]
fn faults_are_told(rt: HostRuntime) -> Result<(), Fail> {
    let alloc = rt.alloc();
    let told = [
        run(alloc, Method::Pivotal, &[1, 1], 3, &[]),
        run(alloc, Method::Pivotal, &[1, 1], 1, &[]),
        run(alloc, Method::Pivotal, &[1, 1], 1, &[0, 0]),
    ];
    let wanted = [
        Some(Err(CaseFault::TooMany { positive: 2 })),
        Some(Err(CaseFault::Draw(DrawFault::Short))),
        Some(Err(CaseFault::Long { left: 1 })),
    ];
    assert_eq!(rt; told, wanted);
    Ok(())
}

// Whether a text begins with a header and then these rows.
fn begins(text: &[u8], header: &str, rows: &str) -> bool {
    match text.strip_prefix(header.as_bytes()) {
        Some(rest) => rest.starts_with(rows.as_bytes()),
        None => false,
    }
}

// Whether the demonstration's frame of so many rows and this seed has this length, these first rows and this last one.
fn is_frame(
    alloc: Global,
    (n, seed): (u32, u64),
    length: usize,
    first: &str,
    last: &str,
) -> Result<bool, Fail> {
    if n < 30 || n > 100_000 {
        return Ok(false);
    }
    let frame = demo_frame(alloc, n, seed)?;
    let text = frame.as_slice();
    let header = "id,region,area,herd,workers\n";
    Ok(text.len() == length && begins(text, header, first) && text.ends_with(last.as_bytes()))
}

fn is_design(alloc: Global, n: u32, wanted: &str) -> Result<bool, Fail> {
    if n < 30 || n > 100_000 {
        return Ok(false);
    }
    let design = demo_design(alloc, n)?;
    Ok(design.as_slice() == wanted.as_bytes())
}

#[test]
fn the_demonstration_has_its_input(rt: HostRuntime) -> Result<(), Fail> {
    let alloc = rt.alloc();
    let first = "u1,r1,1808,3,18\nu2,r2,5237,254,12\n";
    assert!(rt; is_frame(alloc, (30, 0), 563, first, "\nu30,r0,7657,233,6\n")?);
    let first = "u1,r1,2489,128,18\nu2,r2,7603,330,8\n";
    assert!(rt; is_frame(alloc, (30, u64::MAX), 570, first, "\nu30,r0,9534,128,1\n")?);
    let first = "u1,r1,5279,398,14\nu2,r2,8674,238,20\n";
    assert!(rt; is_frame(alloc, (200, 7), 3779, first, "\nu200,r2,9451,282,9\n")?);
    let first = "u1,r1,4775,132,17\nu2,r2,2871,432,16\n";
    let last = "\nu100000,r1,2519,313,4\n";
    assert!(rt; is_frame(alloc, (100_000, 1), 2_110_826, first, last)?);
    let design = "version = 1\n\
        method = \"cube\"\n\
        id = \"id\"\n\
        stratum = \"region\"\n\
        balance = [\"area\", \"herd\", \"workers\"]\n\
        n = 6\n";
    assert!(rt; is_design(alloc, 34, design)?);
    Ok(())
}
