//! What is said of cases.

ghost use Rattle.std.specs.Prelude.{◌≡◌};
ghost use Rattle.smp_caseread.specs.Tallies.{none_counted, counted};

use crate::differences::Differences;
use crate::reader::CaseFault;
use std::fmt;

/// What is said of a case.
#[derive(Drop)]
pub enum Verdict {
    /// All is as it is wanted.
    Ok,
    /// These parts aren't as they are wanted.
    Differs(Differences),
    /// The text is no case.
    NotRead(CaseFault),
}

impl From<Differences> for Verdict {
    ghost use Rattle.std.specs.Prelude.{◌≡◌};
    ghost use Rattle.smp_caseread.specs.Tallies.{verdict_of};

    ghost from_gives = { λ found verdict. verdict ≡ verdict_of found };

    fn from(found: Differences) -> Verdict {
        if found.is_empty() {
            Verdict::Ok
        } else {
            Verdict::Differs(found)
        }
    }
}

impl fmt::Display for Verdict {
    fn fmt<W: fmt::Write>(&self, f: &mut fmt::Formatter<W>) -> fmt::Result {
        match self {
            Verdict::Ok => write!(f, "ok"),
            Verdict::NotRead(fault) => write!(f, "not read: {fault}"),
            Verdict::Differs(found) => {
                write!(f, "differs")?;
                let mut mark = ": ";
                for text in found.as_slice() {
                    write!(f, "{mark}{text}")?;
                    mark = "; ";
                }
                Ok(())
            }
        }
    }
}

/// How many cases were ok, differ, and weren't read.
#[derive(Clone, Copy)]
pub struct Tally {
    ok: u64,
    differ: u64,
    not_read: u64,
}

impl Tally {
    /// No case yet.
    pub fn new() -> Tally
        ensures { result ≡ none_counted }
    {
        Tally {
            ok: 0,
            differ: 0,
            not_read: 0,
        }
    }

    /// Counts one more case. A count stops at its end.
    pub fn count(&mut self, verdict: &Verdict)
        ensures { self.new ≡ counted verdict.now self.old }
    {
        match verdict {
            Verdict::Ok => self.ok = self.ok.saturating_add(1),
            Verdict::Differs(_) => self.differ = self.differ.saturating_add(1),
            Verdict::NotRead(_) => self.not_read = self.not_read.saturating_add(1),
        }
    }
}

impl fmt::Display for Tally {
    fn fmt<W: fmt::Write>(&self, f: &mut fmt::Formatter<W>) -> fmt::Result {
        let ok = self.ok;
        let differ = self.differ;
        let not_read = self.not_read;
        write!(f, "{ok} ok, {differ} differ, {not_read} not read")
    }
}
