//! The input of the demonstration.

ghost use Rattle.std.specs.Prelude.{◌≡◌, ◌++◌, ◌/◌, ◌^◌, ◌≤◌, IfOk, OnOk, string_bytes};
ghost use Rattle.smp_cases.specs.Demo.{demo_design_text, demo_frame_text, demo_key, next_state, row_text, state_after};

use smp_frac::{Bytes, NoMemory};
use std::alloc::{AllocError, Global};

// A linear congruential generator modulo 2^64 (Knuth 1997).
#[derive(Drop)]
struct Generator {
    state: u64,
}

impl Generator {
    // The next number: the upper 31 bits of the next state.
    fn next(&mut self) -> u64
        ensures state { self.new.state ≡ next_state self.old.state }
        ensures number { result ≡ self.new.state / 2 ^ 33 }
    {
        self.state = self
            .state
            .wrapping_mul(6_364_136_223_846_793_005)
            .wrapping_add(1_442_695_040_888_963_407);
        self.state >> 33
    }
}

// Appends row i, whose numbers the next three calls of the generator give.
fn push_row(text: &mut String, generator: &mut Generator, i: u32) -> Result<(), AllocError>
    ensures text { OnOk result (string_bytes text.new
        ≡ string_bytes text.old ++ row_text generator.old.state i) }
    ensures state { generator.new.state ≡ state_after generator.old.state 3 }
{
    let region = i % 3;
    let area = 1 + generator.next() % 10000;
    let herd = generator.next() % 501;
    let workers = 1 + generator.next() % 20;
    write!(text, "u{i},r{region},{area},{herd},{workers}\n")
}

/// A frame of `n` farms, from 30 to 100,000, with the columns `id`, `region`, `area`, `herd` and `workers`, each line ended by a
/// line feed. The region of farm i is the remainder of i by 3. The numbers come from a linear congruential generator that starts
/// at `seed`: the area from 1 to 10,000, the herd from 0 to 500, the workers from 1 to 20.
pub fn demo_frame(alloc: Global, n: u32, seed: u64) -> Result<Bytes, NoMemory>
    requires some { 30 ≤ n }
    requires few { n ≤ 100000 }
    ensures { IfOk result (λ text. text ≡ demo_frame_text n seed) }
{
    let mut generator = Generator { state: seed };
    let mut text = String::from_str(alloc, "id,region,area,herd,workers\n")?;
    for i in 1..n + 1 {
        push_row(&mut text, &mut generator, i)?;
    }
    Ok(Bytes::from_vec(text.into_bytes()))
}

/// A design for the frame of `n` farms, from 30 to 100,000: a fifth of them, rounded down, by the cube method, in strata by region
/// and balanced on area, herd and workers.
pub fn demo_design(alloc: Global, n: u32) -> Result<Bytes, NoMemory>
    requires some { 30 ≤ n }
    requires few { n ≤ 100000 }
    ensures { IfOk result (λ text. text ≡ demo_design_text n) }
{
    let drawn = n / 5;
    let text = format!(in alloc;
        "version = 1\n\
         method = \"cube\"\n\
         id = \"id\"\n\
         stratum = \"region\"\n\
         balance = [\"area\", \"herd\", \"workers\"]\n\
         n = {drawn}\n"
    )?;
    Ok(Bytes::from_vec(text.into_bytes()))
}

/// The key of the demonstration's draw: the 8 bytes of `seed`, the lowest first, four times over.
pub fn demo_key(seed: u64) -> [u8; 32]
    ensures { result ≡ demo_key seed }
{
    let [a, b, c, d, e, f, g, h] = seed.to_le_bytes();
    [
        a, b, c, d, e, f, g, h, a, b, c, d, e, f, g, h, a, b, c, d, e, f, g, h, a, b, c, d, e, f,
        g, h,
    ]
}
