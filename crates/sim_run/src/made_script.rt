//! The script that `make` runs.

ghost use Rattle.std.specs.Prelude.{◌≡◌, ◌<◌, ◌≤◌, ◌^◌, ℕ, IfOk, length, string_bytes};
ghost use Rattle.nv_base.specs.declared.limits.TheConstants.{MAX_INPUT};
ghost use Rattle.script.specs.Parts.{Script};
ghost use Rattle.sim_run.specs.MadeScript.{IsMade, front_text, made_text};

use nv_base::NoMemory;
use std::alloc::Global;

/// All lines before the one that draws the steps.
const FRONT: &str = concat!(
    "nvk 1\n",
    "cores 2\n",
    "memory 1024\n",
    "records 8\n",
    "object raw 4 3\n",
    "object flt 1 3\n",
    "object cfg 2 2 3 100\n",
    "object log 8 3\n",
    "object stat 2 3\n",
    "program sense 200\n",
    "mv s0, a0\n",
    "li a0, 0\n",
    "li a1, 512\n",
    "li a7, 1\n",
    "ecall\n",
    "lw t0, 520(zero)\n",
    "sw t0, 524(zero)\n",
    "lw t0, 516(zero)\n",
    "sw t0, 520(zero)\n",
    "lw t0, 512(zero)\n",
    "sw t0, 516(zero)\n",
    "slli t0, s0, 3\n",
    "sub t0, t0, s0\n",
    "addi t0, t0, 3\n",
    "sw t0, 512(zero)\n",
    "li a7, 2\n",
    "ecall\n",
    "li a0, 1\n",
    "mv a1, s0\n",
    "li a7, 3\n",
    "ecall\n",
    "li a0, 0\n",
    "li a7, 4\n",
    "ecall\n",
    "end\n",
    "program filter 200\n",
    "mv s0, a0\n",
    "li a0, 0\n",
    "li a1, 512\n",
    "li a7, 1\n",
    "ecall\n",
    "lw t0, 512(zero)\n",
    "lw t1, 516(zero)\n",
    "add t0, t0, t1\n",
    "lw t1, 520(zero)\n",
    "add t0, t0, t1\n",
    "lw t1, 524(zero)\n",
    "add t0, t0, t1\n",
    "srli t0, t0, 2\n",
    "sw t0, 512(zero)\n",
    "li a0, 1\n",
    "li a7, 2\n",
    "ecall\n",
    "li a0, 2\n",
    "mv a1, s0\n",
    "li a7, 3\n",
    "ecall\n",
    "li a0, 0\n",
    "li a7, 4\n",
    "ecall\n",
    "end\n",
    "program send 200\n",
    "mv s0, a0\n",
    "li a0, 1\n",
    "li a1, 512\n",
    "li a7, 1\n",
    "ecall\n",
    "li a0, 2\n",
    "li a1, 516\n",
    "ecall\n",
    "li a0, 4\n",
    "li a1, 544\n",
    "ecall\n",
    "lw t0, 512(zero)\n",
    "lw t1, 516(zero)\n",
    "lw t2, 544(zero)\n",
    "bltu t0, t1, low\n",
    "addi t2, t2, 1\n",
    "low: sw t2, 544(zero)\n",
    "sw t0, 548(zero)\n",
    "li a7, 2\n",
    "ecall\n",
    "sw s0, 552(zero)\n",
    "sw t0, 556(zero)\n",
    "li a0, 3\n",
    "li a1, 552\n",
    "ecall\n",
    "lw t1, 520(zero)\n",
    "bgeu s0, t1, out\n",
    "addi a1, s0, 1\n",
    "li a0, 0\n",
    "li a7, 3\n",
    "ecall\n",
    "out: li a0, 0\n",
    "li a7, 4\n",
    "ecall\n",
    "end\n",
    "task sense 1\n",
    "task sense 50\n",
    "power 500*40\n",
);

/// These lines.
#[tactic(auto, unfolding(crate::specs::MadeScript::front_text))]
fn front() -> &'static str
    ensures { result.now ≡ front_text }
{
    FRONT
}

/// A sensor pipeline of three programs over five objects, on two cores, whose 20,000 steps are drawn with a seed, while power
/// fails forty times. By `made_text_is_read`, `read_script` takes it. `NoMemory` where no room for the text was found.
#[tactic(auto, unfolding(crate::specs::MadeScript::made_text), using(crate::proofs::MadeRead::made_short))]
pub fn make_text(alloc: Global, seed: u32) -> Result<String, NoMemory>
    ensures text { IfOk result (λ text. string_bytes text ≡ made_text seed) }
    ensures short { length (made_text seed) ≤ MAX_INPUT }
{
    let mut digits = itoa::Buffer::new();
    let mut text = String::new(alloc);
    text.push_str(front())?;
    text.push_str("mix ")?;
    text.push_str(digits.format(seed))?;
    text.push_str(" 20000\nrun\n")?;
    Ok(text)
}

/// The script that is made is read, whatever the seed, and of its schedule the seed alone is free.
pub fn made_text_is_read()
    ensures { (seed : ℕ) → seed < 2 ^ 32 → (script : Script) × IsMade seed script }
{}
