ghost use Rattle.std.specs.Prelude.{◌≡◌, ◌≤◌, None, Ok, IfOk, option_map, string_bytes};
ghost use Rattle.smp_status.specs.FaultLines;
ghost use Rattle.smp_status.specs.{FaultLines.{fault_line, design_line, frame_line, misfit_line}, Reports.{Reports, kept_status, put_by}};

use crate::Status;
use smp_design::DesignFault;
use smp_frac::NoMemory;
use smp_frame::FrameFault;
use smp_io::{Sink, StoreFault};
use smp_strata::Misfit;
use std::alloc::{AllocError, Global};

/// Puts the line of a refusal, and answers how the call ended: as it did before, unless there is no memory for the line.
pub fn report<S: Sink>(alloc: Global, status: Status, out: &mut S) -> Status
    ensures line { Reports (fault_line status) status result
        (put_by S.written S.faults S.shortages out.old)
        (put_by S.written S.faults S.shortages out.new) }
    ensures puts { S.faults out.old ≤ S.faults out.new }
{
    match put_line(alloc, &status, out) {
        Ok(()) => status,
        Err(NoMemory) => Status::NoMemory,
    }
}

// Puts the line of a refusal, where it has one. The refusal stands where the put fails.
fn put_line<S: Sink>(alloc: Global, status: &Status, out: &mut S) -> Result<(), NoMemory>
    ensures line { Reports (fault_line status.now) status.now (kept_status status.now result)
        (put_by S.written S.faults S.shortages out.old)
        (put_by S.written S.faults S.shortages out.new) }
    ensures puts { S.faults out.old ≤ S.faults out.new }
{
    match line_for(alloc, status)? {
        None => Ok(()),
        Some(line) => match out.put(line.as_bytes()) {
            Ok(()) | Err(StoreFault::Failed) => Ok(()),
            Err(StoreFault::NoMemory) => Err(NoMemory),
        },
    }
}

// The line of a refusal; none for a status that has none.
fn line_for(alloc: Global, status: &Status) -> Result<Option<String>, AllocError>
    ensures line { IfOk result (λ line. option_map string_bytes line ≡ fault_line status.now) }
    ensures none { fault_line status.now ≡ None → result ≡ Ok None }
{
    match status {
        Status::Usage => Ok(Some(usage_line(alloc)?)),
        Status::Design(fault) => design_line(alloc, fault),
        Status::Frame(fault) => frame_line(alloc, fault),
        Status::Misfit(misfit) => misfit_line(alloc, misfit),
        Status::TapeText { line } => {
            Ok(Some(format!(in alloc; "error 6 tape line {line} isn't a number\n")?))
        }
        Status::TapeShort { taken } => {
            Ok(Some(format!(in alloc; "error 7 tape ends after {taken}\n")?))
        }
        Status::TapeValue {
            place,
            value,
            bound,
        } => Ok(Some(format!(in alloc; "error 8 tape value {place} is {value}, bound {bound}\n")?)),
        Status::TapeLong { left } => Ok(Some(format!(in alloc; "error 9 tape has {left} more\n")?)),
        Status::Rejected { bound } => {
            Ok(Some(format!(in alloc; "error 10 rejected 256 times below {bound}\n")?))
        }
        Status::LogDiffers { line } => {
            Ok(Some(format!(in alloc; "error 11 log differs at line {line}\n")?))
        }
        Status::NoStratum { number, strata } => {
            Ok(Some(format!(in alloc; "error 16 stratum {number} of {strata}\n")?))
        }
        Status::NoJoint => Ok(Some(String::from_str(
            alloc,
            "error 17 joint probabilities need systematic selection in frame order\n",
        )?)),
        Status::JointLarge { rows } => {
            Ok(Some(format!(in alloc; "error 18 {rows} rows, at most 2000\n")?))
        }
        Status::Done | Status::ReadFault | Status::WriteFault | Status::NoMemory => Ok(None),
    }
}

fn usage_line(alloc: Global) -> Result<String, AllocError>
    ensures { IfOk result (λ line. string_bytes line ≡ FaultLines.usage_line) }
{
    String::from_str(
        alloc,
        "error 2 usage: sampler COMMAND [OPTIONS], COMMAND is quick, draw, replay, migrate, probs, check, joint or demo\n",
    )
}

fn design_line(alloc: Global, fault: &DesignFault) -> Result<Option<String>, AllocError>
    ensures line { IfOk result (λ line. option_map string_bytes line ≡ design_line fault.now) }
    ensures none { design_line fault.now ≡ None → result ≡ Ok None }
{
    match fault {
        DesignFault::Syntax => Ok(Some(String::from_str(alloc, "error 3.1 design isn't TOML\n")?)),
        DesignFault::Version => Ok(Some(String::from_str(alloc, "error 3.2 version\n")?)),
        DesignFault::UnknownKey { name } => {
            Ok(Some(format!(in alloc; "error 3.3 unknown key {}\n", name.as_str())?))
        }
        DesignFault::MissingKey { name } => {
            Ok(Some(format!(in alloc; "error 3.4 missing key {}\n", name.as_str())?))
        }
        DesignFault::BadValue { key } => {
            Ok(Some(format!(in alloc; "error 3.5 bad value of {}\n", key.as_str())?))
        }
        DesignFault::Clash { first, second } => Ok(Some(format!(in alloc;
            "error 3.6 {} clashes with {}\n",
            first.as_str(),
            second.as_str()
        )?)),
        DesignFault::NoMemory => Ok(None),
    }
}

fn frame_line(alloc: Global, fault: &FrameFault) -> Result<Option<String>, AllocError>
    ensures line { IfOk result (λ line. option_map string_bytes line ≡ frame_line fault.now) }
    ensures none { frame_line fault.now ≡ None → result ≡ Ok None }
{
    match fault {
        FrameFault::NoHeader => Ok(Some(String::from_str(alloc, "error 4.1 no header\n")?)),
        FrameFault::MissingColumn { name } => {
            Ok(Some(format!(in alloc; "error 4.2 missing column {}\n", name.as_str())?))
        }
        FrameFault::RepeatedColumn { name } => {
            Ok(Some(format!(in alloc; "error 4.3 repeated column {}\n", name.as_str())?))
        }
        FrameFault::RowLength { row } => {
            Ok(Some(format!(in alloc; "error 4.4 length of row {row}\n")?))
        }
        FrameFault::NotNumber { row, column } => Ok(Some(format!(in alloc;
            "error 4.5 no number in row {row} column {}\n",
            column.as_str()
        )?)),
        FrameFault::TooLarge { row, column } => Ok(Some(format!(in alloc;
            "error 4.6 number too large in row {row} column {}\n",
            column.as_str()
        )?)),
        FrameFault::RepeatedId { row } => {
            Ok(Some(format!(in alloc; "error 4.7 repeated id in row {row}\n")?))
        }
        FrameFault::TooManyRows => Ok(Some(String::from_str(alloc, "error 4.8 too many rows\n")?)),
        FrameFault::NotText { row } => {
            Ok(Some(format!(in alloc; "error 4.9 row {row} isn't UTF-8\n")?))
        }
        FrameFault::NoRows => Ok(Some(String::from_str(alloc, "error 4.10 no rows\n")?)),
        FrameFault::NotFraction { row, column } => Ok(Some(format!(in alloc;
            "error 4.11 no fraction in row {row} column {}\n",
            column.as_str()
        )?)),
        FrameFault::NotProbability { row, column } => Ok(Some(format!(in alloc;
            "error 4.12 no probability in row {row} column {}\n",
            column.as_str()
        )?)),
        FrameFault::NoMemory => Ok(None),
    }
}

fn misfit_line(alloc: Global, misfit: &Misfit) -> Result<Option<String>, AllocError>
    ensures line { IfOk result (λ line. option_map string_bytes line ≡ misfit_line misfit.now) }
    ensures none { misfit_line misfit.now ≡ None → result ≡ Ok None }
{
    match misfit {
        Misfit::UnitInTwo { psu } => Ok(Some(format!(in alloc;
            "error 5.1 first stage unit in two strata: {}\n",
            psu.as_str()
        )?)),
        Misfit::PsuTooLarge { psu } => Ok(Some(format!(in alloc;
            "error 5.2 first stage unit too large: {}\n",
            psu.as_str()
        )?)),
        Misfit::NoSize { stratum } => {
            Ok(Some(format!(in alloc; "error 5.3 no sample size: {}\n", stratum.as_str())?))
        }
        Misfit::TooMany {
            stratum,
            n,
            positive,
        } => Ok(Some(format!(in alloc;
            "error 5.4 {n} asked of {positive}: {}\n",
            stratum.as_str()
        )?)),
        Misfit::SecondTooMany { psu, n, positive } => Ok(Some(format!(in alloc;
            "error 5.5 second stage {n} asked of {positive}: {}\n",
            psu.as_str()
        )?)),
        Misfit::Denominator { stratum } => Ok(Some(format!(in alloc;
            "error 5.6 denominator too large: {}\n",
            stratum.as_str()
        )?)),
        Misfit::NotWhole { stratum, sum } => Ok(Some(format!(in alloc;
            "error 5.7 sum {}/{} isn't whole: {}\n",
            sum.num,
            sum.den,
            stratum.as_str()
        )?)),
        Misfit::RowLimit { strata, variables } => Ok(Some(format!(in alloc;
            "error 5.8 {strata} strata and {variables} variables pass 16 rows\n"
        )?)),
        Misfit::NoMemory => Ok(None),
    }
}
