use smp_log::{LogFault, SectionLines, log_head, old_log_bytes, old_replay};
use smp_pivotal::Pivotal;
use smp_prob::{Order, Request};
use smp_split::Kind;
use std::alloc::Global;
use std::test::Fail;

// The head of the bytes `abc` as a design and of no bytes as a frame, and two steps. Both digests are among the published
// examples of SHA-256 (NIST).
const LOG: &[u8] =
    b"sampler-log 1\ndesign ba7816bf8f01cfea414140de5dae2223b00361a396177a9cb410ff61f20015ad\nframe e3b0c44298fc1c149afbf4c8996fb92427ae41e4649b934ca495991b7852b855\npivot 3 0\nlone 1 0\nend 2\n";

// Two of four units of the sizes 1 to 4 by sequential pivotal steps, by hand.
pub(crate) const FOUR_LOG: &[u8] =
    b"sampler-log 1\ndesign ba7816bf8f01cfea414140de5dae2223b00361a396177a9cb410ff61f20015ad\nframe e3b0c44298fc1c149afbf4c8996fb92427ae41e4649b934ca495991b7852b855\npivot 3 0\npivot 4 3\npivot 5 4\nend 3\n";

#[test]
fn logs_of_version_1_are_written(rt: HostRuntime) -> Result<(), Fail> {
    let alloc = rt.alloc();
    let mut path = SectionLines::new(alloc);
    path.push(0, Kind::Pivot, 3, 0)?;
    path.push(0, Kind::Lone, 1, 0)?;
    let log = old_log_bytes(alloc, &log_head(b"abc", b""), &path)?;
    assert_eq!(rt; log.as_slice(), LOG);
    Ok(())
}

// The design by which two of four units of the sizes 1 to 4 are drawn.
pub(crate) fn two_of_four(alloc: Global) -> Result<Pivotal, Fail> {
    let request = Request::all_free(alloc, &[1, 2, 3, 4], 2, 10)?;
    Ok(Pivotal::new(alloc, &request, Order::Frame)?)
}

fn replayed(alloc: Global, design: &Pivotal, log: &[u8]) -> Result<Result<(), LogFault>, Fail> {
    let mut state = design.start(alloc)?;
    Ok(old_replay(design, &mut state, &log_head(b"abc", b""), log))
}

// The line at which the replay of a log differs, where it isn't genuine.
fn differs_at(alloc: Global, log: &[u8]) -> Result<Option<u64>, Fail> {
    let answer = {
        let design = two_of_four(alloc)?;
        replayed(alloc, &design, log)
    };
    match answer? {
        Ok(()) => Ok(None),
        Err(LogFault::Differs { line }) => Ok(Some(line)),
    }
}

// The first length at which the log that is cut there isn't told to differ at the line that it breaks off in.
fn told_wrongly(alloc: Global) -> Result<Option<usize>, Fail> {
    let mut line = 1u64;
    for length in 0..FOUR_LOG.len() {
        if differs_at(alloc, &FOUR_LOG[..length])? != Some(line) {
            return Ok(Some(length));
        }
        if FOUR_LOG[length] == b'\n' {
            line = line.wrapping_add(1);
        }
    }
    Ok(None)
}

fn differs_before(alloc: Global, length: usize) -> Result<Option<u64>, Fail> {
    differs_at(alloc, FOUR_LOG.get(..length).unwrap_or(b""))
}

// The log of 193 bytes is accepted. Cut before each of them, it differs at the first line that isn't whole.
#[test]
fn logs_are_cut_at_each_byte(rt: HostRuntime) -> Result<(), Fail> {
    let alloc = rt.alloc();
    assert_eq!(rt; told_wrongly(alloc)?, None);
    // by hand
    let lines = [
        differs_before(alloc, 13)?,
        differs_before(alloc, 14)?,
        differs_before(alloc, 157)?,
        differs_before(alloc, 192)?,
        differs_before(alloc, 193)?,
    ];
    assert_eq!(rt; lines, [Some(1), Some(2), Some(4), Some(7), None]);
    Ok(())
}
