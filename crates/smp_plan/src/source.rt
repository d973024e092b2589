//! Where the inputs of a plan stand.

use smp_frac::Text;

/// Where the design of a command stands.
#[derive(Drop)]
pub enum DesignSource<'a> {
    /// In the file of this name.
    Held(&'a Text),
    /// In the file of this name, for joint probabilities: it has to draw systematically, in the order of the frame and in one stage.
    Joint(&'a Text),
    /// With the command: the one of `quick`, for so many units.
    Quick(u32),
    /// With the command: the bytes of the one of `demo`, for a frame of so many units.
    Demo(u32),
}

/// Where the frame of a command stands.
#[derive(Clone, Copy)]
pub enum FrameSource<'a> {
    /// In the file of this name.
    Held(&'a Text),
    /// In the file of this name, for joint probabilities: it may have 2,000 rows.
    Joint(&'a Text),
    /// With the command: the bytes of the one of `demo`, with so many units, made of a seed.
    Demo { n: u32, seed: u64 },
}
