use smp_frac::{NoMemory, Text};
use smp_frame::{Columns, Frame, FrameFault, Names, read_frame};
use std::alloc::Global;
use std::process::Abort;
use std::test::Fail;

// The columns i, w of second sizes and p of probabilities. No design asks for both of these.
fn columns(alloc: Global) -> Result<Columns, NoMemory> {
    Ok(Columns {
        id: Text::from_str(alloc, "i")?,
        stratum: None,
        psu: None,
        size: None,
        second_size: Some(Text::from_str(alloc, "w")?),
        prob: Some(Text::from_str(alloc, "p")?),
        balance: Names::from_vec(Vec::new(alloc)),
        near: Names::from_vec(Vec::new(alloc)),
    })
}

// The column that a fault names.
fn told(answer: &Result<Frame, FrameFault>) -> &str {
    match answer {
        Err(FrameFault::MissingColumn { name }) => name.as_str(),
        Err(FrameFault::NotNumber { column, .. }) => column.as_str(),
        _ => "",
    }
}

// Second sizes come before probabilities.
fn second_sizes_are_first(rt: &impl Abort, alloc: Global, columns: &Columns) {
    let frames: [&[u8]; 2] = [b"i\n", b"i,p,w\na,2,-\n"];
    for bytes in frames {
        let answer = read_frame(alloc, bytes, columns);
        assert_eq!(rt; told(&answer), "w", "{bytes:?}");
    }
}

#[test]
fn second_sizes_come_before_probabilities(rt: HostRuntime) -> Result<(), Fail> {
    let columns = columns(rt.alloc())?;
    second_sizes_are_first(&rt, rt.alloc(), &columns);
    Ok(())
}
