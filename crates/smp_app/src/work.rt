ghost use Rattle.std.specs.Prelude.{◌≡◌, [], map, IfOk, Ok};
ghost use Rattle.smp_io.specs.Store.{Files};
ghost use Rattle.smp_app.specs.Commands.{drawn_names, inputs_of, outputs_of, written_by, written_names, outputs_by};
ghost use Rattle.smp_app.specs.{Verdict.{outputs_stage, work_stage}, Kept.Exact.{EndsExact, EndsExactFrom}};
ghost use Rattle.smp_app.specs.Deliveries.{outputs_view, names_of};
ghost use Rattle.smp_plan.specs.{Reads.{Reads, Sees, told, result_view}, Planned.{IsPlanned, plan_view}};
ghost use Rattle.smp_app.specs.Kept.Stages.{IsJob, IsSelection, IsWorkInRanges, job_view, work_view, file_view, drawn_text, selection_view};

use crate::job::{DrawnFile, DrawnText, Job, Work};
use crate::selection::{Selection, selection_from};
use crate::{OutputFile, Outputs, Status};
use smp_frac::NoMemory;
use smp_io::Store;
use smp_plan::{FramePlan, plan_from};
use std::alloc::Global;

/// Reads the inputs of a job, and does all of its work but to write and put its outputs.
pub fn outputs_from<K: Store>(alloc: Global, store: &mut K, job: &Job) -> Result<Outputs, Status>
    requires { IsJob job.now }
    ensures reads { Reads (inputs_of (job_view job.now)) (outputs_stage (job_view job.now))
        (result_view outputs_view result)
        (told K.files K.read_faults K.write_faults K.write_shortages K.asked store.old)
        (told K.files K.read_faults K.write_faults K.write_shortages K.asked store.new) }
    ensures exact { (fs : Files) → Sees (inputs_of (job_view job.now)) (K.files store.old) fs
        → EndsExact (job_view job.now) fs result }
    ensures named { IfOk result (λ outputs. names_of (outputs_view outputs).files
        ≡ outputs_of (job_view job.now)) }
    ensures idle { inputs_of (job_view job.now) ≡ [] → store.new ≡ store.old }
{
    let plan = plan_from(alloc, store, &job.design, job.frame)?;
    work_outputs(alloc, store, &job.work, &plan)
}

// Goes on from the plan, which is only lent, so that it is let go in one place.
#[tactic(auto, using(smp_io::proofs::Asked::only_none))]
fn work_outputs<K: Store>(
    alloc: Global,
    store: &mut K,
    work: &Work,
    plan: &FramePlan,
) -> Result<Outputs, Status>
    requires planned { IsPlanned plan.now }
    requires ranges { IsWorkInRanges work.now }
    ensures reads { Reads (drawn_names (work_view work.now))
        (work_stage (work_view work.now) (plan_view plan.now)) (result_view outputs_view result)
        (told K.files K.read_faults K.write_faults K.write_shortages K.asked store.old)
        (told K.files K.read_faults K.write_faults K.write_shortages K.asked store.new) }
    ensures exact { (fs : Files) → Sees (drawn_names (work_view work.now)) (K.files store.old) fs
        → EndsExactFrom (plan_view plan.now) (work_view work.now) fs result }
    ensures named { IfOk result (λ outputs. names_of (outputs_view outputs).files
        ≡ written_names (work_view work.now)) }
    ensures idle { drawn_names (work_view work.now) ≡ [] → store.new ≡ store.old }
{
    match work {
        Work::Lists(text) => Ok(Outputs {
            files: Vec::new(alloc),
            put: text.bytes(alloc, plan)?,
        }),
        Work::Draws { from, files, put } => {
            let selection = selection_from(alloc, store, plan, *from)?;
            Ok(drawn_outputs(alloc, files.as_slice(), *put, plan, &selection)?)
        }
    }
}

// What is written and put of what is drawn.
fn drawn_outputs(
    alloc: Global,
    files: &[DrawnFile],
    put: DrawnText,
    plan: &FramePlan,
    selection: &Selection,
) -> Result<Outputs, NoMemory>
    requires planned { IsPlanned plan.now }
    requires selection { IsSelection (plan_view plan.now) selection.now }
    ensures { IfOk result (λ outputs. outputs_view outputs
        ≡ outputs_by (map file_view files.now) (drawn_text put)
        (selection_view (plan_view plan.now) selection.now)) }
{
    let mut written = Vec::new(alloc);
    for file in files {
        written.push(output_file(alloc, file, plan, selection)?)?;
    }
    let put = put.bytes(alloc, plan, selection)?;
    Ok(Outputs {
        files: written,
        put,
    })
}

fn output_file(
    alloc: Global,
    file: &DrawnFile,
    plan: &FramePlan,
    selection: &Selection,
) -> Result<OutputFile, NoMemory>
    requires planned { IsPlanned plan.now }
    requires selection { IsSelection (plan_view plan.now) selection.now }
    ensures { IfOk result (λ written. written
        ≡ written_by (selection_view (plan_view plan.now) selection.now) (file_view file.now)) }
{
    Ok(OutputFile {
        name: file.name.copy(alloc)?,
        bytes: file.text.bytes(alloc, plan, selection)?,
    })
}
