//! What the words of a command line ask for.

use smp_frac::Text;

/// What the command `quick` is to do.
#[derive(Drop)]
pub struct QuickArguments {
    /// The name of the frame's file.
    pub frame: Text,
    /// How many units are drawn, from 1 to 200,000.
    pub n: u32,
    /// The name of the tape's file.
    pub tape: Text,
    /// The name of the file that the drawn ids are written to.
    pub out: Text,
}

/// Where the draws of a selection come from.
#[derive(Drop)]
pub enum Chance {
    /// From the values of the tape in the file of this name.
    Tape(Text),
    /// From the words of the generator whose key are these bytes.
    Seed([u8; 32]),
}

/// What the command `draw` is to do.
#[derive(Drop)]
pub struct DrawArguments {
    /// The name of the design's file.
    pub design: Text,
    /// The name of the frame's file.
    pub frame: Text,
    /// Where the draws come from.
    pub chance: Chance,
    /// The name of the file that the log is written to.
    pub log: Text,
    /// The name of the file that the sample is written to.
    pub sample: Text,
}

/// What the command `replay` is to do.
#[derive(Drop)]
pub struct ReplayArguments {
    /// The name of the design's file.
    pub design: Text,
    /// The name of the frame's file.
    pub frame: Text,
    /// The name of the file that the log is read from.
    pub log: Text,
    /// The name of the file that the sample is written to.
    pub sample: Text,
    /// Its stratum alone, counted from 1; all where it isn't there.
    pub stratum: Option<u32>,
}

/// What the command `migrate` is to do.
#[derive(Drop)]
pub struct MigrateArguments {
    /// The name of the design's file.
    pub design: Text,
    /// The name of the frame's file.
    pub frame: Text,
    /// The name of the file that the log is read from.
    pub log: Text,
    /// The name of the file that the new log is written to.
    pub to: Text,
}

/// What the command `demo` is to do.
#[derive(Clone, Copy)]
pub struct DemoArguments {
    /// How many units the frame has, from 30 to 100,000.
    pub n: u32,
    /// The number that the frame and the key are made of.
    pub seed: u64,
}

/// The files that a command reads that writes none.
#[derive(Drop)]
pub struct DesignArguments {
    /// The name of the design's file.
    pub design: Text,
    /// The name of the frame's file.
    pub frame: Text,
}

/// What the words of a command line ask for.
#[derive(Drop)]
pub enum Command {
    /// Draw a sample by sequential pivotal selection, without a design file.
    Quick(QuickArguments),
    /// Draw the sample of a design.
    Draw(DrawArguments),
    /// Select again what a log tells.
    Replay(ReplayArguments),
    /// Write a log of version 1 as one of version 2.
    Migrate(MigrateArguments),
    /// List the requested probabilities.
    Probs(DesignArguments),
    /// Say whether a design and a frame are accepted.
    Check(DesignArguments),
    /// List the joint probabilities.
    Joint(DesignArguments),
    /// Draw from a frame and a design that the program makes.
    Demo(DemoArguments),
}
