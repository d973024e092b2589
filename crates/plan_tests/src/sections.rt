use crate::log::{FOUR_LOG, two_of_four};
use smp_frac::Bytes;
use smp_log::{LogFault, ReplayFault, log_head, migrate, replay_section};
use smp_pivotal::{Pivotal, PivotalState};
use smp_split::{Kind, Sections, Splitting};
use std::alloc::Global;
use std::marker::Model;
use std::test::Fail;

// Two of four units of the sizes 1 to 4, by sequential pivotal steps, in each of two strata: by hand.
const LOG: &[u8] =
    b"sampler-log 2\ndesign ba7816bf8f01cfea414140de5dae2223b00361a396177a9cb410ff61f20015ad\nframe e3b0c44298fc1c149afbf4c8996fb92427ae41e4649b934ca495991b7852b855\nstratum 1 0\npivot 3 0\npivot 4 3\npivot 5 4\ndone 1 3\nstratum 2 3\npivot 3 2\npivot 4 0\npivot 5 1\ndone 2 3\nend 6\n";

// The log of its first stratum alone.
const FIRST_LOG: &[u8] =
    b"sampler-log 2\ndesign ba7816bf8f01cfea414140de5dae2223b00361a396177a9cb410ff61f20015ad\nframe e3b0c44298fc1c149afbf4c8996fb92427ae41e4649b934ca495991b7852b855\nstratum 1 0\npivot 3 0\npivot 4 3\npivot 5 4\ndone 1 3\nend 3\n";

// A design that is one section, as a stratum is of a draw in strata.
#[derive(Drop)]
struct Stratum {
    design: Pivotal,
}

impl Model for Stratum {
    ghost use Rattle.smp_prob.specs.Shares.{Shares};
    ghost use Rattle.smp_split.specs.Orders.{Ordered};

    ghost Value = { Ordered Shares };

    ghost view = { λ s. s.design };
}

impl Splitting for Stratum {
    ghost use Rattle.smp_pivotal.specs.PivotalMethod.{method_of};

    type State = PivotalState;

    ghost method = { λ design. method_of design };

    fn units(&self) -> usize {
        self.design.units()
    }

    fn done(&self, state: &PivotalState) -> bool {
        self.design.done(state)
    }

    fn kind(&self, state: &PivotalState) -> Kind {
        self.design.kind(state)
    }

    fn bound(&self, state: &PivotalState) -> u128 {
        self.design.bound(state)
    }

    fn advance(&self, state: &mut PivotalState, draw: u128) {
        self.design.advance(state, draw);
    }

    fn selected(&self, state: &PivotalState, unit: usize) -> bool {
        self.design.selected(state, unit)
    }
}

impl Sections for Stratum {
    ghost use Rattle.smp_pivotal.specs.PivotalMethod.{method_of};
    ghost use Rattle.plan_tests.specs.Sections.{one_section, one_sectioned};

    ghost sectioning = { λ design. one_section (method_of design).tree };

    ghost sectioned = { λ design. one_sectioned (method_of design).tree
        (method_of design).belongs };

    fn sections(&self) -> usize {
        1
    }

    fn section(&self, state: &PivotalState) -> usize {
        if self.design.done(state) { 1 } else { 0 }
    }
}

fn stratum_of_four(alloc: Global) -> Result<Stratum, Fail> {
    let design = two_of_four(alloc)?;
    Ok(Stratum { design })
}

fn replayed(
    alloc: Global,
    stratum: &Stratum,
    number: usize,
    log: &[u8],
) -> Result<Result<(), LogFault>, Fail> {
    let mut state = stratum.design.start(alloc)?;
    let head = log_head(b"abc", b"");
    Ok(replay_section(stratum, &mut state, &head, number, log))
}

// The line at which the replay of a section differs, where it isn't genuine.
fn differs_at(alloc: Global, number: usize, log: &[u8]) -> Result<Option<u64>, Fail> {
    let answer = {
        let stratum = stratum_of_four(alloc)?;
        replayed(alloc, &stratum, number, log)
    };
    match answer? {
        Ok(()) => Ok(None),
        Err(LogFault::Differs { line }) => Ok(Some(line)),
    }
}

// The first length at which the log that is cut there isn't told to differ at the line that it breaks off in, where the
// section ends at a later byte, or isn't accepted, where the section is whole.
fn told_wrongly(alloc: Global, number: usize, end: usize) -> Result<Option<usize>, Fail> {
    let mut line = 1u64;
    for length in 0..LOG.len() {
        let wanted = if length < end { Some(line) } else { None };
        if differs_at(alloc, number, &LOG[..length])? != wanted {
            return Ok(Some(length));
        }
        if LOG[length] == b'\n' {
            line = line.wrapping_add(1);
        }
    }
    Ok(None)
}

// The first section ends with the 8th line, at byte 208, and the second with the 13th, at byte 259.
#[test]
fn sections_are_cut_at_each_byte(rt: HostRuntime) -> Result<(), Fail> {
    let alloc = rt.alloc();
    assert_eq!(rt; told_wrongly(alloc, 1, 208)?, None);
    assert_eq!(rt; told_wrongly(alloc, 2, 259)?, None);
    Ok(())
}

#[test]
fn sections_are_replayed(rt: HostRuntime) -> Result<(), Fail> {
    let alloc = rt.alloc();
    let lines = [
        differs_at(alloc, 1, LOG)?,
        differs_at(alloc, 2, LOG)?,
        differs_at(alloc, 3, LOG)?,
        differs_at(alloc, 1, FIRST_LOG)?,
        differs_at(alloc, 2, FIRST_LOG)?,
        differs_at(alloc, 1, FOUR_LOG)?,
    ];
    assert_eq!(rt; lines, [None, None, Some(15), None, Some(10), Some(1)]);
    Ok(())
}

fn migrated(
    alloc: Global,
    stratum: &Stratum,
    log: &[u8],
) -> Result<Result<Bytes, ReplayFault>, Fail> {
    let mut state = stratum.design.start(alloc)?;
    let head = log_head(b"abc", b"");
    Ok(migrate(alloc, stratum, &mut state, &head, log))
}

// What a log of version 1 becomes.
fn migrated_log(alloc: Global, log: &[u8]) -> Result<Bytes, Fail> {
    let answer = {
        let stratum = stratum_of_four(alloc)?;
        migrated(alloc, &stratum, log)
    };
    Ok(answer??)
}

#[test]
fn a_log_of_version_1_becomes_one_of_version_2(rt: HostRuntime) -> Result<(), Fail> {
    let text = migrated_log(rt.alloc(), FOUR_LOG)?;
    assert_eq!(rt; text.as_slice(), FIRST_LOG);
    Ok(())
}
