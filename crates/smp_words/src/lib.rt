//! The words of a command line, read with clap as those of one simple command, and what they ask for.
//!
//! [`command_from`] gives the [`Command`] of the words of a call. `specs/Words.antt` has the table of the commands.
#![tactic(auto)]

mod command;
mod command_line;
mod given;
mod words;

pub use command::{
    Chance, Command, DemoArguments, DesignArguments, DrawArguments, MigrateArguments,
    QuickArguments, ReplayArguments,
};
pub use words::command_from;
