ghost use Rattle.std.specs.Prelude.{◌≡◌, filter, not, nat_lt, ◌&&◌, IfOk};
ghost use Rattle.smp_prob.specs.Requested.{places};

use smp_frac::NoMemory;
use std::alloc::Global;

// The units that are certain, the free ones, and the sizes of those.
#[derive(Drop)]
pub(crate) struct Picked {
    pub(crate) certain: Vec<usize>,
    pub(crate) free: Vec<usize>,
    pub(crate) free_sizes: Vec<u32>,
}

// The places of the sizes from the border on, and those of the other sizes above 0.
pub(crate) fn pick(alloc: Global, sizes: &[u32], border: u32) -> Result<Picked, NoMemory>
    ensures certain { IfOk result (λ picked.
        picked.certain.items ≡ places (λ z. not (nat_lt z border)) 0 sizes.now) }
    ensures free { IfOk result (λ picked.
        picked.free.items ≡ places (λ z. nat_lt 0 z && nat_lt z border) 0 sizes.now) }
    ensures free_sizes { IfOk result (λ picked.
        picked.free_sizes.items ≡ filter (λ z. nat_lt 0 z && nat_lt z border) sizes.now) }
{
    let mut certain = Vec::new(alloc);
    let mut free = Vec::with_capacity(alloc, sizes.len())?;
    let mut free_sizes = Vec::with_capacity(alloc, sizes.len())?;
    for (place, &size) in sizes.iter().enumerate() {
        if size >= border {
            certain.push(place)?;
        } else if size > 0 {
            free.push(place)?;
            free_sizes.push(size)?;
        }
    }
    Ok(Picked {
        certain,
        free,
        free_sizes,
    })
}
