ghost use Rattle.std.specs.Prelude.{◌≡◌};
ghost use Rattle.smp_status.specs.Codes.{code_of, design_status, frame_status, misfit_status, tape_status};
ghost use Rattle.smp_status.specs.declared.status.Status.TheVariants as status;

use smp_design::DesignFault;
use smp_frac::NoMemory;
use smp_frame::FrameFault;
use smp_strata::Misfit;
use smp_tape::TapeFault;

/// How a call ended.
#[derive(Debug, Drop)]
pub enum Status {
    /// All was done.
    Done,
    /// The words haven't the form of a command.
    Usage,
    /// The design has this fault.
    Design(DesignFault),
    /// The frame has this fault.
    Frame(FrameFault),
    /// The frame doesn't serve the design: this is the first misfit.
    Misfit(Misfit),
    /// This line of the tape, counted from 1, is the first that isn't a number.
    TapeText {
        line: u64,
    },
    /// The walk asks for a value and the tape has none left; so many were taken.
    TapeShort {
        taken: u64,
    },
    /// The value at this place of the tape, counted from 1, isn't below the bound that was asked.
    TapeValue {
        place: u64,
        value: u128,
        bound: u128,
    },
    /// So many values of the tape are left at the end of the walk.
    TapeLong {
        left: u64,
    },
    /// 256 candidates in a row for a draw below this bound weren't below it.
    Rejected {
        bound: u128,
    },
    /// The log isn't that of a draw of this design and this frame: this line, counted from 1, is the first that isn't kept.
    LogDiffers {
        line: u64,
    },
    /// The plan has no stratum of this number, but so many strata.
    NoStratum {
        number: u32,
        strata: u32,
    },
    /// The design doesn't draw systematically, in the order of the frame and in one stage.
    NoJoint,
    /// The frame has so many rows, and joint probabilities are for at most 2,000.
    JointLarge {
        rows: u64,
    },
    /// A file couldn't be read.
    ReadFault,
    /// A file couldn't be written, or the result couldn't be put.
    WriteFault,
    /// Memory ran out.
    NoMemory,
}

impl Status {
    /// The exit code of the program.
    pub fn code(&self) -> u8
        ensures { result ≡ code_of self.now }
    {
        match self {
            Status::Done => 0,
            Status::Usage => 2,
            Status::Design(_) => 3,
            Status::Frame(_) => 4,
            Status::Misfit(_) => 5,
            Status::TapeText { .. } => 6,
            Status::TapeShort { .. } => 7,
            Status::TapeValue { .. } => 8,
            Status::TapeLong { .. } => 9,
            Status::Rejected { .. } => 10,
            Status::LogDiffers { .. } => 11,
            Status::ReadFault => 12,
            Status::WriteFault => 13,
            Status::NoMemory => 14,
            Status::NoStratum { .. } => 16,
            Status::NoJoint => 17,
            Status::JointLarge { .. } => 18,
        }
    }
}

impl From<NoMemory> for Status {
    ghost from_gives = { λ _ answer. answer ≡ status.NoMemory };

    fn from(_: NoMemory) -> Status {
        Status::NoMemory
    }
}

impl From<DesignFault> for Status {
    ghost from_gives = { λ fault answer. answer ≡ design_status fault };

    fn from(fault: DesignFault) -> Status {
        match fault {
            DesignFault::NoMemory => Status::NoMemory,
            fault => Status::Design(fault),
        }
    }
}

impl From<FrameFault> for Status {
    ghost from_gives = { λ fault answer. answer ≡ frame_status fault };

    fn from(fault: FrameFault) -> Status {
        match fault {
            FrameFault::NoMemory => Status::NoMemory,
            fault => Status::Frame(fault),
        }
    }
}

impl From<Misfit> for Status {
    ghost from_gives = { λ misfit answer. answer ≡ misfit_status misfit };

    fn from(misfit: Misfit) -> Status {
        match misfit {
            Misfit::NoMemory => Status::NoMemory,
            misfit => Status::Misfit(misfit),
        }
    }
}

impl From<TapeFault> for Status {
    ghost from_gives = { λ fault answer. answer ≡ tape_status fault };

    fn from(fault: TapeFault) -> Status {
        match fault {
            TapeFault::Line { line } => Status::TapeText { line },
            TapeFault::NoMemory => Status::NoMemory,
        }
    }
}
