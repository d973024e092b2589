ghost use Rattle.std.specs.Prelude.{◌≡◌, ◌≤◌, ℕ, List, [], Some, map, string_bytes};
ghost use Rattle.smp_io.specs.Store.{AsksOnly};
ghost use Rattle.smp_words.specs.Words.{IsAsked, command_of};
ghost use Rattle.smp_app.specs.{Answers.{IsAnswer, outside}, Headline.{Headline}, Kept.Stages.{IsJob, WorkSays, job_view}};
ghost use Rattle.smp_status.specs.Codes.{class_of};
ghost use Rattle.smp_app.specs.{Commands.{files_named, files_of, inputs_named, inputs_of, job_for, job_of}, Kept.Exact.{ExactSays}};

use crate::Status;
use crate::job::Job;
use crate::work::outputs_from;
use smp_io::{Sink, Store, StoreFault};
use smp_status::report;
use smp_words::{Command, command_from};
use std::alloc::Global;

/// Does what the words of a command line ask for, the program's name first, and answers how it went.
///
/// - `draw --design D --frame F --tape T --log L --sample S` reads the design D, the frame F and the tape T, draws the sample of the design
///   with the values of the tape, writes the log, of version 2, to L and the drawn units with their weights to S, and puts a report. With
///   `--seed K` in place of `--tape T` it draws with the words of the seed K.
/// - `replay --design D --frame F --log L --sample S` reads D, F and the log L, of version 1 or 2, and writes to S
///   and puts what the draw wrote and put whose log L is. With `--stratum H` it goes through the steps of the stratum
///   H alone, for which L has to be of version 2, writes its drawn units to S and puts the report of the stratum. Where
///   all strata are drawn together, they are the stratum 1, and there is no other.
/// - `migrate --design D --frame F --log L --to M` reads D, F and the log L of version 1, writes the log of version 2
///   of the same steps to M, and puts how many there are.
/// - `probs --design D --frame F` puts the probabilities with which the units of F are to be selected.
/// - `check --design D --frame F` puts how many units are accepted.
/// - `joint --design D --frame F` puts the joint probability of each two rows of F, where D draws systematically, in the order of the frame
///   and in one stage, and F has 2,000 rows at most.
/// - `demo N SEED` makes a frame of N units and a design for it, draws by a key that is made of SEED, replays its own
///   log and puts a summary. It reads and writes no file.
/// - `quick FRAME N TAPE OUT` needs no design: it draws N units by sequential pivotal steps, writes their ids to OUT and puts the lines of
///   the steps.
///
/// After a refusal no file has changed, and a line was put that says what was wrong. No file is read that the words don't name as an input.
/// Where they name no file, the store isn't touched.
pub fn sampler<K: Store, S: Sink>(
    alloc: Global,
    words: &[String],
    store: &mut K,
    out: &mut S,
) -> Status
    // The main statement: what a call that ended well has done, and where the log differs that it refused.
    ensures headline { Headline result (map string_bytes words.now)
        (outside K.files K.read_faults K.write_faults K.write_shortages
        S.written S.faults S.shortages store.old out.old)
        (outside K.files K.read_faults K.write_faults K.write_shortages
        S.written S.faults S.shortages store.new out.new) }

    // What each answer says, of any words, store and sink.
    ensures answer { IsAnswer result (map string_bytes words.now)
        (outside K.files K.read_faults K.write_faults K.write_shortages
        S.written S.faults S.shortages store.old out.old)
        (outside K.files K.read_faults K.write_faults K.write_shortages
        S.written S.faults S.shortages store.new out.new) }

    // No file is asked for but the inputs of the command.
    ensures asked { AsksOnly (inputs_named (map string_bytes words.now))
        (K.asked store.old) (K.asked store.new) }

    // `demo` and words of no command touch no file.
    ensures idle { files_named (map string_bytes words.now) ≡ [] → store.new ≡ store.old }
{
    let status = work(alloc, words, store, out);
    report(alloc, status, out)
}

// All but the line of a refusal.
#[tactic(auto, using(smp_io::proofs::Asked::only_none))]
fn work<K: Store, S: Sink>(alloc: Global, words: &[String], store: &mut K, out: &mut S) -> Status
    ensures says { WorkSays (class_of result) result (map string_bytes words.now)
        (outside K.files K.read_faults K.write_faults K.write_shortages
        S.written S.faults S.shortages store.old out.old)
        (outside K.files K.read_faults K.write_faults K.write_shortages
        S.written S.faults S.shortages store.new out.new) }
    ensures exact { ExactSays (class_of result) result (map string_bytes words.now)
        (K.files store.old) }
    ensures puts { S.faults out.old ≤ S.faults out.new }
    ensures shortages { S.shortages out.old ≤ S.shortages out.new }
    ensures asked { AsksOnly (inputs_named (map string_bytes words.now))
        (K.asked store.old) (K.asked store.new) }
    ensures idle { files_named (map string_bytes words.now) ≡ [] → store.new ≡ store.old }
{
    match command_from(alloc, words) {
        Ok(Some(command)) => carry_out(alloc, &command, store, out),
        Ok(None) => Status::Usage,
        Err(_) => Status::NoMemory,
    }
}

// The work of a command, of any words that are this command.
#[tactic(auto, using(smp_io::proofs::Asked::only_none))]
fn carry_out<K: Store, S: Sink>(
    alloc: Global,
    command: &Command,
    store: &mut K,
    out: &mut S,
) -> Status
    requires { IsAsked command.now }
    ensures says { (words : List (List ℕ)) → command_of words ≡ Some command.now
        → WorkSays (class_of result) result words
        (outside K.files K.read_faults K.write_faults K.write_shortages
        S.written S.faults S.shortages store.old out.old)
        (outside K.files K.read_faults K.write_faults K.write_shortages
        S.written S.faults S.shortages store.new out.new) }
    ensures exact { (words : List (List ℕ)) → command_of words ≡ Some command.now
        → ExactSays (class_of result) result words (K.files store.old) }
    ensures puts { S.faults out.old ≤ S.faults out.new }
    ensures shortages { S.shortages out.old ≤ S.shortages out.new }
    ensures asked { AsksOnly (inputs_of (job_of command.now))
        (K.asked store.old) (K.asked store.new) }
    ensures idle { files_of (job_of command.now) ≡ [] → store.new ≡ store.old }
{
    match Job::of(alloc, command) {
        Ok(job) => do_job(alloc, &job, store, out),
        Err(_) => Status::NoMemory,
    }
}

// The work of a job, of any words that ask for it.
fn do_job<K: Store, S: Sink>(alloc: Global, job: &Job, store: &mut K, out: &mut S) -> Status
    requires { IsJob job.now }
    ensures says { (words : List (List ℕ)) → job_for words ≡ Some (job_view job.now)
        → WorkSays (class_of result) result words
        (outside K.files K.read_faults K.write_faults K.write_shortages
        S.written S.faults S.shortages store.old out.old)
        (outside K.files K.read_faults K.write_faults K.write_shortages
        S.written S.faults S.shortages store.new out.new) }
    ensures exact { (words : List (List ℕ)) → job_for words ≡ Some (job_view job.now)
        → ExactSays (class_of result) result words (K.files store.old) }
    ensures puts { S.faults out.old ≤ S.faults out.new }
    ensures shortages { S.shortages out.old ≤ S.shortages out.new }
    ensures asked { AsksOnly (inputs_of (job_view job.now))
        (K.asked store.old) (K.asked store.new) }
    ensures idle { files_of (job_view job.now) ≡ [] → store.new ≡ store.old }
{
    let outputs = match outputs_from(alloc, store, job) {
        Ok(outputs) => outputs,
        Err(status) => return status,
    };
    match outputs.deliver(store, out) {
        Ok(()) => Status::Done,
        Err(StoreFault::Failed) => Status::WriteFault,
        Err(StoreFault::NoMemory) => Status::NoMemory,
    }
}
