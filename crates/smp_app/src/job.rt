//! The table of the commands.

ghost use Rattle.std.specs.Prelude.{◌≡◌, ◌∷◌, [], map, IfOk};
ghost use Rattle.smp_words.specs.{Words.{IsAsked}, declared.command.Command.TheVariants.{Demo, Draw, Joint, Migrate, Quick, Replay}};
ghost use Rattle.smp_plan.specs.declared.source.DesignSource.TheVariants as DesignSource;
ghost use Rattle.smp_plan.specs.declared.source.FrameSource.TheVariants as FrameSource;
ghost use Rattle.smp_plan.specs.Inputs.{FrameForJoint, FrameHeld, Held, HeldForJoint};
ghost use Rattle.smp_app.specs.Commands.{Lists, job_of, log_source, source_of};
ghost use Rattle.smp_app.specs.Kept.Stages.{IsJob, draw_view, job_view, file_view, plan_text, drawn_text};

use smp_cases::demo_key;
use smp_frac::{NoMemory, Text};
use smp_plan::{DesignSource, FrameSource};
use smp_words::{
    Chance, Command, DemoArguments, DesignArguments, DrawArguments, MigrateArguments,
    QuickArguments, ReplayArguments,
};
use std::alloc::Global;

/// A text of a plan.
#[derive(Clone, Copy, Debug, PartialEq, Eq)]
pub enum PlanText {
    /// The requested probability of each unit.
    Probabilities,
    /// How many units are accepted.
    Accepted,
    /// The joint probability of each two units.
    Joints,
}

/// A text of what is drawn.
#[derive(Clone, Copy, Debug, PartialEq, Eq)]
pub enum DrawnText {
    /// The ids of the drawn units.
    Ids,
    /// The lines of the steps.
    Steps,
    /// The log: its head, the steps of a stratum after the other, and its end.
    Log,
    /// The drawn units with their weights.
    Sample,
    /// How many units were drawn, and in how many steps.
    Report,
    /// The same in the words of the demonstration, whose log is replayed first.
    Summary,
    /// In how many steps they were drawn.
    Migrated,
}

/// Where the draws of a command come from.
#[derive(Clone, Copy)]
pub enum DrawSource<'a> {
    /// From the values of the tape in the file of this name.
    Tape(&'a Text),
    /// From the words of the generator whose key are these bytes.
    Seed([u8; 32]),
    /// From the steps that the log in the file of this name tells.
    Log(&'a Text),
    /// The same, where the log is to be of version 1.
    OldLog(&'a Text),
    /// From the steps that the log in the file of this name, of version 2, tells of one stratum alone, counted from 1.
    Section(&'a Text, u32),
}

impl<'a> DrawSource<'a> {
    fn of(chance: &'a Chance) -> DrawSource<'a>
        ensures { draw_view result ≡ source_of chance.now }
    {
        match chance {
            Chance::Tape(name) => DrawSource::Tape(name),
            Chance::Seed(seed) => DrawSource::Seed(*seed),
        }
    }

    // A log, or one stratum of it.
    fn of_log(name: &'a Text, stratum: Option<u32>) -> DrawSource<'a>
        ensures { draw_view result ≡ log_source name.now stratum }
    {
        match stratum {
            None => DrawSource::Log(name),
            Some(number) => DrawSource::Section(name, number),
        }
    }
}

/// A file that is written of what is drawn.
#[derive(Drop)]
pub struct DrawnFile<'a> {
    /// Its name.
    pub name: &'a Text,
    /// What it holds.
    pub text: DrawnText,
}

/// How a command goes on from the plan.
#[derive(Drop)]
pub enum Work<'a> {
    /// It puts a text of the plan.
    Lists(PlanText),
    /// It draws, writes files, and puts a text.
    Draws {
        /// Where its draws come from.
        from: DrawSource<'a>,
        /// The files in the order in which they are written.
        files: Vec<DrawnFile<'a>>,
        /// What is put after them.
        put: DrawnText,
    },
}

/// What a command reads, how it draws, and what it writes and puts.
#[derive(Drop)]
pub struct Job<'a> {
    /// Where its design stands.
    pub design: DesignSource<'a>,
    /// Where its frame stands.
    pub frame: FrameSource<'a>,
    /// How it goes on from the plan.
    pub work: Work<'a>,
}

impl<'a> Job<'a> {
    /// The job of a command.
    pub fn of(alloc: Global, command: &'a Command) -> Result<Job<'a>, NoMemory>
        requires { IsAsked command.now }
        ensures job { IfOk result (λ job. job_view job ≡ job_of command.now) }
        ensures is_job { IfOk result IsJob }
    {
        match command {
            Command::Quick(arguments) => quick_job(alloc, arguments),
            Command::Draw(arguments) => draw_job(alloc, arguments),
            Command::Replay(arguments) => replay_job(alloc, arguments),
            Command::Migrate(arguments) => migrate_job(alloc, arguments),
            Command::Probs(arguments) => Ok(listing(arguments, PlanText::Probabilities)),
            Command::Check(arguments) => Ok(listing(arguments, PlanText::Accepted)),
            Command::Joint(arguments) => Ok(joint_job(arguments)),
            Command::Demo(arguments) => Ok(demo_job(alloc, arguments)),
        }
    }
}

fn quick_job<'a>(alloc: Global, arguments: &'a QuickArguments) -> Result<Job<'a>, NoMemory>
    requires { IsAsked (Quick arguments.now) }
    ensures job { IfOk result (λ job. job_view job ≡ job_of (Quick arguments.now)) }
    ensures is_job { IfOk result IsJob }
{
    let files = one_file(alloc, &arguments.out, DrawnText::Ids)?;
    Ok(Job {
        design: DesignSource::Quick(arguments.n),
        frame: FrameSource::Held(&arguments.frame),
        work: Work::Draws {
            from: DrawSource::Tape(&arguments.tape),
            files,
            put: DrawnText::Steps,
        },
    })
}

fn draw_job<'a>(alloc: Global, arguments: &'a DrawArguments) -> Result<Job<'a>, NoMemory>
    requires { IsAsked (Draw arguments.now) }
    ensures job { IfOk result (λ job. job_view job ≡ job_of (Draw arguments.now)) }
    ensures is_job { IfOk result IsJob }
{
    let from = DrawSource::of(&arguments.chance);
    let mut files = one_file(alloc, &arguments.log, DrawnText::Log)?;
    files.push(drawn_file(&arguments.sample, DrawnText::Sample))?;
    let put = DrawnText::Report;
    let work = Work::Draws { from, files, put };
    Ok(held_job(&arguments.design, &arguments.frame, work))
}

fn replay_job<'a>(alloc: Global, arguments: &'a ReplayArguments) -> Result<Job<'a>, NoMemory>
    requires { IsAsked (Replay arguments.now) }
    ensures job { IfOk result (λ job. job_view job ≡ job_of (Replay arguments.now)) }
    ensures is_job { IfOk result IsJob }
{
    let from = DrawSource::of_log(&arguments.log, arguments.stratum);
    let files = one_file(alloc, &arguments.sample, DrawnText::Sample)?;
    let put = DrawnText::Report;
    let work = Work::Draws { from, files, put };
    Ok(held_job(&arguments.design, &arguments.frame, work))
}

fn migrate_job<'a>(alloc: Global, arguments: &'a MigrateArguments) -> Result<Job<'a>, NoMemory>
    requires { IsAsked (Migrate arguments.now) }
    ensures job { IfOk result (λ job. job_view job ≡ job_of (Migrate arguments.now)) }
    ensures is_job { IfOk result IsJob }
{
    let from = DrawSource::OldLog(&arguments.log);
    let files = one_file(alloc, &arguments.to, DrawnText::Log)?;
    let put = DrawnText::Migrated;
    let work = Work::Draws { from, files, put };
    Ok(held_job(&arguments.design, &arguments.frame, work))
}

// The joint probabilities are put, of a design that has them and of a frame that isn't too large for them.
fn joint_job<'a>(arguments: &'a DesignArguments) -> Job<'a>
    ensures job { job_view result ≡ job_of (Joint arguments.now) }
    ensures design { (job_view result).design ≡ HeldForJoint arguments.now.design }
    ensures frame { (job_view result).frame ≡ FrameForJoint arguments.now.frame }
{
    Job {
        design: DesignSource::Joint(&arguments.design),
        frame: FrameSource::Joint(&arguments.frame),
        work: Work::Lists(PlanText::Joints),
    }
}

// A frame and a design that the command makes are drawn from by the seed's own key.
fn demo_job<'a>(alloc: Global, arguments: &DemoArguments) -> Job<'a>
    ensures job { job_view result ≡ job_of (Demo arguments.now) }
    ensures design { result.design ≡ DesignSource.Demo arguments.now.n }
    ensures frame { result.frame ≡ FrameSource.Demo arguments.now.n arguments.now.seed }
{
    let DemoArguments { n, seed } = *arguments;
    Job {
        design: DesignSource::Demo(n),
        frame: FrameSource::Demo { n, seed },
        work: Work::Draws {
            from: DrawSource::Seed(demo_key(seed)),
            files: Vec::new(alloc),
            put: DrawnText::Summary,
        },
    }
}

// One file, alone.
fn one_file<'a>(
    alloc: Global,
    name: &'a Text,
    text: DrawnText,
) -> Result<Vec<DrawnFile<'a>>, NoMemory>
    ensures { IfOk result (λ files. map file_view files.items
        ≡ record { name = name.now; text = drawn_text text } ∷ []) }
{
    let mut files = Vec::new(alloc);
    files.push(drawn_file(name, text))?;
    Ok(files)
}

fn drawn_file<'a>(name: &'a Text, text: DrawnText) -> DrawnFile<'a>
    ensures { file_view result ≡ record { name = name.now; text = drawn_text text } }
{
    DrawnFile { name, text }
}

// A text of the plan of a design and a frame is put.
fn listing<'a>(arguments: &'a DesignArguments, text: PlanText) -> Job<'a>
    ensures design { (job_view result).design ≡ Held arguments.now.design }
    ensures frame { (job_view result).frame ≡ FrameHeld arguments.now.frame }
    ensures work { (job_view result).work ≡ Lists (plan_text text) }
{
    held_job(&arguments.design, &arguments.frame, Work::Lists(text))
}

// The job of a design and a frame that are held in files.
fn held_job<'a>(design: &'a Text, frame: &'a Text, work: Work<'a>) -> Job<'a>
    ensures design { (job_view result).design ≡ Held design.now }
    ensures frame { (job_view result).frame ≡ FrameHeld frame.now }
    ensures work { result.work ≡ work.entry }
{
    Job {
        design: DesignSource::Held(design),
        frame: FrameSource::Held(frame),
        work,
    }
}
