//! The design of `quick`.

ghost use Rattle.std.specs.Prelude.{◌≡◌, IfOk};
ghost use Rattle.smp_frame.specs.Sized.{sized_columns};
ghost use Rattle.smp_plan.specs.Plans.{quick_design};

use smp_design::{Design, Method, Procedure, Quotas};
use smp_frac::{NoMemory, Text};
use smp_frame::{Columns, Names};
use std::alloc::Global;

/// The design of `quick`: so many units by pivotal steps in frame order, with the columns `id` and `size`.
pub(crate) fn quick_design(alloc: Global, n: u32) -> Result<Design, NoMemory>
    ensures { IfOk result (λ design. design ≡ quick_design n) }
{
    Ok(Design {
        version: 1,
        procedure: Procedure::without_values(Method::Pivotal),
        columns: quick_columns(alloc)?,
        n: Some(n),
        sizes: Quotas::from_vec(Vec::new(alloc)),
        second: None,
    })
}

fn quick_columns(alloc: Global) -> Result<Columns, NoMemory>
    ensures { IfOk result (λ columns. columns ≡ sized_columns) }
{
    Ok(Columns {
        id: Text::from_str(alloc, "id")?,
        stratum: None,
        psu: None,
        size: Some(Text::from_str(alloc, "size")?),
        second_size: None,
        prob: None,
        balance: Names::from_vec(Vec::new(alloc)),
        near: Names::from_vec(Vec::new(alloc)),
    })
}
