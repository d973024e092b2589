ghost use Rattle.std.specs.Prelude.{◌≡◌, ◌∷◌, [], IfOk, length, true};
ghost use Rattle.smp_frame.specs.Bounds.{HaveBalance, HavePoints, IsFrame};
ghost use Rattle.smp_design.specs.Bounds.{IsDesign};
ghost use Rattle.smp_words.specs.Words.{all_distinct};
ghost use Rattle.smp_plan.specs.{Stops.{content_of}, Inputs.{design_names, frame_names, input_names}};
ghost use Rattle.smp_plan.specs.Inputs as Inputs;
ghost use Rattle.smp_plan.specs.{Inputs.{design_stage, frame_content, frame_stage, plan_of, plan_stage}, Reads.{Reads, told, result_view}};
ghost use Rattle.smp_plan.specs.Planned.{GivesPlan, IsFrameInRanges, IsInRanges, IsPlanned, source_view, frame_view, read_view, plan_view};

use crate::quick::quick_design;
use crate::{DesignSource, FrameSource};
use smp_cases::{demo_design, demo_frame};
use smp_design::{Design, Method, Order, read_design};
use smp_frac::Bytes;
use smp_frame::{Frame, read_frame};
use smp_io::{Store, StoreFault};
use smp_log::{Head, log_head};
use smp_status::Status;
use smp_strata::{Misfit, Plan, accept};
use std::alloc::Global;

// The most rows of which joint probabilities are listed.
const MAX_JOINT_ROWS: usize = 2_000;

/// A design, and the bytes that it was read from; none for the design of a command.
#[derive(Drop)]
pub struct ReadDesign {
    pub design: Design,
    pub bytes: Bytes,
}

/// A design, the frame that it asks of, the plan of both, and the first lines of a log, which name the bytes that
/// design and frame were read from.
#[derive(Drop)]
pub struct FramePlan {
    /// The design.
    pub design: Design,
    /// The units of the frame, by the columns of the design.
    pub frame: Frame,
    /// The strata, their first stage units and what is asked of each.
    pub plan: Plan,
    /// The first lines of a log.
    pub head: Head,
}

/// Reads the file of this name, and asks for no other. A failed read is `ReadFault`. No file changes.
#[tactic(auto, using(smp_io::proofs::Asked::only_one))]
pub fn read_input<K: Store>(alloc: Global, store: &mut K, name: &str) -> Result<Bytes, Status>
    ensures { Reads (name.now ∷ []) (content_of name.now) result
        (told K.files K.read_faults K.write_faults K.write_shortages K.asked store.old)
        (told K.files K.read_faults K.write_faults K.write_shortages K.asked store.new) }
{
    match store.read(alloc, name) {
        Ok(bytes) => Ok(bytes),
        Err(StoreFault::Failed) => Err(Status::ReadFault),
        Err(StoreFault::NoMemory) => Err(Status::NoMemory),
    }
}

// Reads a design from its file, or makes the one of the command.
#[tactic(auto, unfolding(crate::specs::Inputs::design_stage), using(smp_io::proofs::Asked::only_none))]
fn design_from<K: Store>(
    alloc: Global,
    store: &mut K,
    source: &DesignSource,
) -> Result<ReadDesign, Status>
    requires { IsInRanges source.now }
    ensures reads { Reads (design_names (source_view source.now))
        (design_stage (source_view source.now)) (result_view read_view result)
        (told K.files K.read_faults K.write_faults K.write_shortages K.asked store.old)
        (told K.files K.read_faults K.write_faults K.write_shortages K.asked store.new) }
    ensures design { IfOk result (λ read. IsDesign read.design) }
    ensures idle { design_names (source_view source.now) ≡ [] → store.new ≡ store.old }
{
    match source {
        DesignSource::Held(name) => {
            let bytes = read_input(alloc, store, name.as_str())?;
            let design = read_design(alloc, bytes.as_slice())?;
            Ok(ReadDesign { design, bytes })
        }
        DesignSource::Joint(name) => {
            let bytes = read_input(alloc, store, name.as_str())?;
            let design = read_design(alloc, bytes.as_slice())?;
            if !has_joints(&design) {
                return Err(Status::NoJoint);
            }
            Ok(ReadDesign { design, bytes })
        }
        DesignSource::Demo(n) => {
            let bytes = demo_design(alloc, *n)?;
            let design = read_design(alloc, bytes.as_slice())?;
            Ok(ReadDesign { design, bytes })
        }
        DesignSource::Quick(n) => Ok(ReadDesign {
            design: quick_design(alloc, *n)?,
            bytes: Bytes::new(alloc),
        }),
    }
}

// Whether a design draws systematically, in the order of the frame and in one stage.
fn has_joints(design: &Design) -> bool
    ensures { let way = design.now.procedure in
        result ≡ Inputs.has_joints way.method way.order design.now.second }
{
    let procedure = design.procedure;
    match (procedure.method, procedure.order, &design.second) {
        (Method::Systematic, Order::Frame, None) => true,
        _ => false,
    }
}

// Whether so many rows are too many for joint probabilities, where these are asked for.
fn is_large(source: FrameSource, rows: usize) -> bool
    ensures { result ≡ Inputs.is_large (frame_view source.entry) rows }
{
    match source {
        FrameSource::Joint(_) => rows > MAX_JOINT_ROWS,
        _ => false,
    }
}

// The plan of a design and a frame.
fn plan_for(alloc: Global, design: Design, frame: Frame, head: Head) -> Result<FramePlan, Misfit>
    requires design { IsDesign design }
    requires frame { IsFrame frame }
    requires balance { HaveBalance (length design.columns.balance) frame }
    requires points { HavePoints (length design.columns.near) frame }
    ensures follows { GivesPlan (result_view plan_view result)
        (plan_of (record { design = design; units = frame; head = head })) }
    ensures planned { IfOk result IsPlanned }
{
    let plan = accept(alloc, &frame, &design)?;
    Ok(FramePlan {
        design,
        frame,
        plan,
        head,
    })
}

// The bytes of a frame, from its file or from the command.
#[tactic(auto, using(smp_io::proofs::Asked::only_none))]
fn frame_bytes<K: Store>(alloc: Global, store: &mut K, source: FrameSource) -> Result<Bytes, Status>
    requires { IsFrameInRanges source }
    ensures reads { Reads (frame_names (frame_view source.entry))
        (frame_content (frame_view source.entry)) result
        (told K.files K.read_faults K.write_faults K.write_shortages K.asked store.old)
        (told K.files K.read_faults K.write_faults K.write_shortages K.asked store.new) }
    ensures idle { frame_names (frame_view source.entry) ≡ [] → store.new ≡ store.old }
{
    match source {
        FrameSource::Held(name) | FrameSource::Joint(name) => {
            read_input(alloc, store, name.as_str())
        }
        FrameSource::Demo { n, seed } => Ok(demo_frame(alloc, n, seed)?),
    }
}

// Reads a frame, and plans what a design asks of it.
#[tactic(auto, unfolding(crate::specs::Inputs::frame_stage))]
fn frame_plan<K: Store>(
    alloc: Global,
    store: &mut K,
    read: ReadDesign,
    source: FrameSource,
) -> Result<FramePlan, Status>
    requires design { IsDesign read.design }
    requires frame { IsFrameInRanges source }
    ensures reads { Reads (frame_names (frame_view source.entry))
        (frame_stage (read_view read) (frame_view source.entry))
        (result_view plan_view result)
        (told K.files K.read_faults K.write_faults K.write_shortages K.asked store.old)
        (told K.files K.read_faults K.write_faults K.write_shortages K.asked store.new) }
    ensures planned { IfOk result IsPlanned }
    ensures idle { frame_names (frame_view source.entry) ≡ [] → store.new ≡ store.old }
{
    let bytes = frame_bytes(alloc, store, source)?;
    let content = bytes.as_slice();
    let frame = read_frame(alloc, content, &read.design.columns)?;
    let rows = frame.units().len();
    if is_large(source, rows) {
        return Err(Status::JointLarge { rows: rows as u64 });
    }
    let head = log_head(read.bytes.as_slice(), content);
    Ok(plan_for(alloc, read.design, frame, head)?)
}

/// Reads the design and then the frame, and plans what the design asks of the frame. Their files have different names.
///
/// The first fault of the design, the first of the frame or the first misfit of both is refused, in this order, and a failed read of one of
/// them is `ReadFault`. No file changes, and no other file is asked for. Where both stand with the command, the store isn't touched.
pub fn plan_from<K: Store>(
    alloc: Global,
    store: &mut K,
    design: &DesignSource,
    frame: FrameSource,
) -> Result<FramePlan, Status>
    requires design { IsInRanges design.now }
    requires frame { IsFrameInRanges frame }
    requires distinct { all_distinct (input_names (source_view design.now) (frame_view frame))
        ≡ true }
    ensures reads { Reads (input_names (source_view design.now) (frame_view frame.entry))
        (plan_stage (source_view design.now) (frame_view frame.entry))
        (result_view plan_view result)
        (told K.files K.read_faults K.write_faults K.write_shortages K.asked store.old)
        (told K.files K.read_faults K.write_faults K.write_shortages K.asked store.new) }
    ensures planned { IfOk result IsPlanned }
    ensures idle { input_names (source_view design.now) (frame_view frame.entry) ≡ []
        → store.new ≡ store.old }
{
    let read = design_from(alloc, store, design)?;
    frame_plan(alloc, store, read, frame)
}
