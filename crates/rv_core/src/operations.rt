// What each operation computes.

ghost use Rattle.std.specs.Prelude.{◌≡◌, ◌+◌, ◌^◌, ◌<◌, ◌≤◌, ◌*ℤ◌, ℕ, pos, length, max};
ghost use Rattle.rv_core.specs.Bytes.{IsZeroFrom};
ghost use Rattle.rv_core.specs.Operations.{computed, upper_word, with_immediate, is_taken, load_size, store_size, read_at, put_at};
ghost use Rattle.rv_isa.specs.declared.instruction.RegOp.TheVariants.{Div, Divu, Rem, Remu};

use crate::bytes::{half_in, put_half_in, put_word_in, word_in};
use rv_isa::{BranchOp, ImmOp, LoadOp, RegOp, StoreOp};

/// How many bytes a load reads.
#[inline(always)]
pub fn size_of_load(op: LoadOp) -> u32
    ensures size { result ≡ load_size op }
    ensures range { (0 < result) × (result ≤ 4) }
{
    match op {
        LoadOp::Lb | LoadOp::Lbu => 1,
        LoadOp::Lh | LoadOp::Lhu => 2,
        LoadOp::Lw => 4,
    }
}

/// How many bytes a store writes.
#[inline(always)]
pub fn size_of_store(op: StoreOp) -> u32
    ensures size { result ≡ store_size op }
    ensures range { (0 < result) × (result ≤ 4) }
{
    match op {
        StoreOp::Sb => 1,
        StoreOp::Sh => 2,
        StoreOp::Sw => 4,
    }
}

/// What a load reads at an address, extended to 32 bits.
#[inline(always)]
pub fn read_in(op: LoadOp, memory: &[u8], at: usize) -> u32
    requires { at + load_size op ≤ length memory.now }
    ensures { result ≡ read_at op memory.now at }
{
    match op {
        LoadOp::Lb => (memory[at].cast_signed() as i32).cast_unsigned(),
        LoadOp::Lh => ((half_in(memory, at) << 16).cast_signed() >> 16).cast_unsigned(),
        LoadOp::Lw => word_in(memory, at),
        LoadOp::Lbu => memory[at] as u32,
        LoadOp::Lhu => half_in(memory, at),
    }
}

/// Puts the low bytes of a word at an address, as many as the store writes.
#[inline(always)]
pub fn put_in(op: StoreOp, memory: &mut [u8], at: usize, word: u32)
    requires { at + store_size op ≤ length memory.old }
    ensures exact { memory.new ≡ put_at op memory.old at word }
    ensures zeros { (used : ℕ) → IsZeroFrom used memory.old
        → IsZeroFrom (max used (at + store_size op)) memory.new }
{
    match op {
        StoreOp::Sb => memory[at] = (word % 256) as u8,
        StoreOp::Sh => put_half_in(memory, at, word % 65536),
        StoreOp::Sw => put_word_in(memory, at, word),
    }
}

fn upper_half(product: i64) -> u32
    ensures { result ≡ upper_word product }
{
    (product.cast_unsigned() >> 32) as u32
}

fn multiply_high(a: i32, b: i32) -> u32
    ensures { result ≡ upper_word (a *ℤ b) }
{
    upper_half(a as i64 * b as i64)
}

fn multiply_high_mixed(a: i32, b: u32) -> u32
    ensures { result ≡ upper_word (a *ℤ pos b) }
{
    upper_half(a as i64 * b as i64)
}

fn multiply_high_unsigned(a: u32, b: u32) -> u32
    ensures { result ≡ upper_word (pos a *ℤ pos b) }
{
    ((a as u64 * b as u64) >> 32) as u32
}

fn divide(a: u32, b: u32) -> u32
    ensures { result ≡ computed Div a b }
{
    if b == 0 {
        return u32::MAX;
    }
    a.cast_signed()
        .wrapping_div(b.cast_signed())
        .cast_unsigned()
}

fn divide_unsigned(a: u32, b: u32) -> u32
    ensures { result ≡ computed Divu a b }
{
    if b == 0 { u32::MAX } else { a / b }
}

fn remainder(a: u32, b: u32) -> u32
    ensures { result ≡ computed Rem a b }
{
    if b == 0 {
        return a;
    }
    a.cast_signed()
        .wrapping_rem(b.cast_signed())
        .cast_unsigned()
}

fn remainder_unsigned(a: u32, b: u32) -> u32
    ensures { result ≡ computed Remu a b }
{
    if b == 0 { a } else { a % b }
}

/// What an operation makes of two registers; sums, differences and the lower words of products wrap, shifts
/// use the low five bits, and a division by zero gives all ones and leaves the dividend.
#[inline(always)]
pub fn compute(op: RegOp, a: u32, b: u32) -> u32
    ensures { result ≡ computed op a b }
{
    match op {
        RegOp::Add => a.wrapping_add(b),
        RegOp::Sub => a.wrapping_sub(b),
        RegOp::Sll => a.wrapping_shl(b),
        RegOp::Slt => (a.cast_signed() < b.cast_signed()) as u32,
        RegOp::Sltu => (a < b) as u32,
        RegOp::Xor => a ^ b,
        RegOp::Srl => a.wrapping_shr(b),
        RegOp::Sra => (a.cast_signed() >> (b % 32)).cast_unsigned(),
        RegOp::Or => a | b,
        RegOp::And => a & b,
        RegOp::Mul => a.wrapping_mul(b),
        RegOp::Mulh => multiply_high(a.cast_signed(), b.cast_signed()),
        RegOp::Mulhsu => multiply_high_mixed(a.cast_signed(), b),
        RegOp::Mulhu => multiply_high_unsigned(a, b),
        RegOp::Div => divide(a, b),
        RegOp::Divu => divide_unsigned(a, b),
        RegOp::Rem => remainder(a, b),
        RegOp::Remu => remainder_unsigned(a, b),
    }
}

/// The operation that takes a register in place of the immediate.
#[inline(always)]
pub fn by_register(op: ImmOp) -> RegOp
    ensures { result ≡ with_immediate op }
{
    match op {
        ImmOp::Addi => RegOp::Add,
        ImmOp::Slti => RegOp::Slt,
        ImmOp::Sltiu => RegOp::Sltu,
        ImmOp::Xori => RegOp::Xor,
        ImmOp::Ori => RegOp::Or,
        ImmOp::Andi => RegOp::And,
        ImmOp::Slli => RegOp::Sll,
        ImmOp::Srli => RegOp::Srl,
        ImmOp::Srai => RegOp::Sra,
    }
}

/// Whether a branch is taken.
#[inline(always)]
pub fn taken(op: BranchOp, a: u32, b: u32) -> bool
    ensures { result ≡ is_taken op a b }
{
    match op {
        BranchOp::Beq => a == b,
        BranchOp::Bne => a != b,
        BranchOp::Blt => a.cast_signed() < b.cast_signed(),
        BranchOp::Bge => a.cast_signed() >= b.cast_signed(),
        BranchOp::Bltu => a < b,
        BranchOp::Bgeu => a >= b,
    }
}
