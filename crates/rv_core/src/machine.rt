// The machine: its state, one step of it, and the calls between steps.

ghost use Rattle.std.specs.Prelude.{◌≡◌, ◌+◌, ◌*◌, ◌/◌, ◌^◌, ◌<◌, ◌≤◌, ◌%◌, IfOk, IsTrue, OnOk, false, length};
ghost use Rattle.std.specs.Result.{result_err};
ghost use Rattle.rv_isa.specs.Ranges.{IsInstr};
ghost use Rattle.rv_core.specs.Bytes.{put_word, words_at};
ghost use Rattle.rv_core.specs.State.{MachineState, Next};
ghost use Rattle.std.specs.Int.{cast_unsigned, w32};
ghost use Rattle.rv_core.specs.Decoded.{meant};
ghost use Rattle.rv_core.specs.Operations.{computed, register, with_immediate, with_register, sum_of, store_size, put_at};
ghost use Rattle.rv_core.specs.Execution.{goes_on, jumps, branches, loads, stores, calls, service_of, executed};
ghost use Rattle.rv_core.specs.Stepping.{step_of, answer, fated, HasCalled, IsCall, IsStopped, Keeps};
ghost use Rattle.rv_core.specs.Task.{blank, first_state, resumed, place_refusal, IsPlace};

use crate::bytes::{load_code, word_in, words_out};
use crate::decoded::Decoded;
use crate::operations::{
    by_register, compute, put_in, read_in, size_of_load, size_of_store, taken,
};
use crate::quick::Quick;
use crate::services::{Fate, Service, Step};
use nv_base::limits::MAX_MEMORY;
use nv_base::{NoMemory, TrapCause};
use rv_isa::{BranchOp, ImmOp, LoadOp, Reg, RegOp, StoreOp};
use std::alloc::Global;
use std::marker::Model;

/// The machine of one task: 32 registers, a program counter, a private memory of at most 65,536 bytes,
/// the instructions counted since the task began, and the fuel, which is how many may be counted.
#[derive(Debug, Drop)]
pub struct Machine {
    registers: [u32; 32],
    pc: u32,
    memory: Vec<u8>,

    // no byte at or above this was written, so that a task begins without touching them
    used: usize,
    count: u32,
    fuel: u32,

    // instructions that were decoded before: no clause sees them
    decoded: Decoded,
}

impl Model for Machine {
    ghost use Rattle.std.specs.Prelude.{◌≡◌, ◌≤◌, length, slice_index};
    ghost use Rattle.nv_base.specs.declared.limits.TheConstants.{MAX_MEMORY};
    ghost use Rattle.rv_core.specs.State.{MachineState};

    ghost Value = { MachineState };

    ghost view = { λ m. record {
      registers = m.registers;
      pc = m.pc;
      memory = m.memory.items;
      count = m.count;
      fuel = m.fuel;
    } };

    ghost use Rattle.rv_core.specs.Bytes.{IsZeroFrom};

    ghost invariant = { λ m. (length m.memory.items ≤ MAX_MEMORY) × (slice_index m.registers 0 ≡ 0)
        × (m.used ≤ length m.memory.items) × IsZeroFrom m.used m.memory.items };
}

impl Machine {
    /// Takes room for so many bytes of memory, all zero, with no task.
    pub fn new(alloc: Global, bytes: u32) -> Result<Machine, NoMemory>
        requires { bytes ≤ MAX_MEMORY }
        ensures exact { IfOk result (λ m. m ≡ blank bytes) }
        ensures room { IfOk result (λ m. length m.memory ≡ bytes) }
    {
        let memory = vec![in alloc; 0u8; bytes as usize]?;
        Ok(Machine {
            registers: [0; 32],
            pc: 0,
            memory,
            used: 0,
            count: 0,
            fuel: 0,
            decoded: Decoded::new(alloc)?,
        })
    }

    /// Begins a task: the code stands at 0 with zeros behind it, sp is the size of memory, a0 the argument.
    pub fn load(&mut self, code: &[u32], arg: u32, fuel: u32)
        requires { 4 * length code.now ≤ length self.old.memory }
        ensures exact { self.new ≡ first_state code.now arg fuel (length self.old.memory) }
        ensures room { length self.new.memory ≡ length self.old.memory }
        ensures limit { length self.new.memory ≤ MAX_MEMORY }
    {
        load_code(self.memory.as_mut_slice(), self.used, code);
        self.used = 4 * code.len();
        self.registers = [0; 32];
        self.registers[2] = self.memory.len() as u32;
        self.registers[10] = arg;
        self.pc = 0;
        self.count = 0;
        self.fuel = fuel;
    }

    /// Goes past the call that the machine waits on, with a0 set where a value is given.
    pub fn resume(&mut self, a0: Option<u32>)
        requires { self.old.pc + 4 ≤ length self.old.memory }
        ensures exact { resumed self.old a0 ≡ Next self.new }
        ensures kept { Keeps self.old self.new }
        ensures limit { length self.new.memory ≤ MAX_MEMORY }
    {
        if let Some(value) = a0 {
            self.registers[10] = value;
        }
        self.pc += 4;
    }

    /// Whether so many words fit at an address: `CallAlign` exactly where the address is no multiple of 4,
    /// and else `CallRange` exactly where the words are not whole in memory.
    pub fn fits(&self, at: u32, words: u32) -> Result<(), TrapCause>
        ensures refusal { result_err result ≡ place_refusal self.now at words }
        ensures ok { OnOk result (IsPlace self.now at words) }
    {
        if at % 4 != 0 {
            return Err(TrapCause::CallAlign);
        }
        if at as u64 + 4 * words as u64 > self.memory.len() as u64 {
            return Err(TrapCause::CallRange);
        }
        Ok(())
    }

    /// Puts a word into memory.
    pub fn copy_in(&mut self, at: u32, word: u32)
        requires { IsPlace self.old at 1 }
        ensures exact { self.new ≡ record self.old { memory = put_word self.old.memory at word } }
        ensures room { length self.new.memory ≡ length self.old.memory }
        ensures limit { length self.new.memory ≤ MAX_MEMORY }
    {
        self.put(StoreOp::Sw, at as usize, word);
    }

    /// Copies the words at an address out of memory.
    pub fn copy_out(&self, at: u32, into: &mut [u32])
        requires { IsPlace self.now at (length into.old) }
        ensures { into.new ≡ words_at self.now.memory at (length into.old) }
    {
        words_out(self.memory.as_slice(), at as usize, into);
    }

    /// Counts one instruction and does it. After a call the program counter still stands on the
    /// instruction that called.
    pub fn step(&mut self) -> Step
        ensures exact { step_of self.old ≡ answer result self.new }
        ensures counted { self.old.count < self.old.fuel → self.new.count ≡ self.old.count + 1 }
        ensures fuel { self.new.fuel ≡ self.old.fuel }
        ensures room { length self.new.memory ≡ length self.old.memory }
        ensures limit { length self.new.memory ≤ MAX_MEMORY }
        ensures waits { IsCall result → self.new.pc + 4 ≤ length self.new.memory }
    {
        match self.turn() {
            Fate::Went => Step::Went,
            Fate::Calls => self.service(),
            Fate::Stops(cause) => Step::Trap(cause),
        }
    }

    /// One step where it leads to a next state and nothing else: else nothing has changed, and `step` tells what comes.
    #[inline(always)]
    pub fn go(&mut self) -> bool
        ensures went { IsTrue result → step_of self.old ≡ Next self.new }
        ensures rests { result ≡ false → self.new ≡ self.old }
        ensures stops { result ≡ false → (s : MachineState) → step_of self.old ≡ Next s → ⊥ }
        ensures fuel { self.new.fuel ≡ self.old.fuel }
        ensures room { length self.new.memory ≡ length self.old.memory }
        ensures limit { length self.new.memory ≤ MAX_MEMORY }
    {
        let count = self.count;
        if let Fate::Went = self.turn() {
            return true;
        }
        self.count = count;
        false
    }

    /// Counts one instruction and does it, unless it calls or stops.
    #[inline(always)]
    fn turn(&mut self) -> Fate
        ensures exact { step_of self.old ≡ fated result self.new }
        ensures counted { self.old.count < self.old.fuel → self.new.count ≡ self.old.count + 1 }
        ensures fuel { self.new.fuel ≡ self.old.fuel }
        ensures room { length self.new.memory ≡ length self.old.memory }
        ensures limit { length self.new.memory ≤ MAX_MEMORY }
        ensures waits { HasCalled result → self.new.pc + 4 ≤ length self.new.memory }
        ensures rests { IsStopped result → self.new ≡ record self.old { count = self.new.count } }
    {
        if self.count >= self.fuel {
            return Fate::Stops(TrapCause::Fuel);
        }
        self.count += 1;
        let at = self.pc as usize;
        if at + 4 > self.memory.len() {
            return Fate::Stops(TrapCause::Fetch);
        }
        let word = word_in(self.memory.as_slice(), at);
        if !self.decoded.knows(at, word) {
            return Fate::Stops(TrapCause::Illegal);
        }
        let i = self.decoded.get(at);
        self.execute(i)
    }

    #[inline(always)]
    #[tactic(auto, unfolding(crate::specs::Execution::executed))]
    fn execute(&mut self, i: Quick) -> Fate
        requires fits { IsInstr (meant i) }
        requires next { self.old.pc + 4 < 2 ^ 32 }
        ensures exact { executed self.old (meant i) ≡ fated result self.new }
        ensures rests { IsStopped result → self.new ≡ self.old }
        ensures kept { Keeps self.old self.new }
    {
        match i {
            Quick::Lui(d, imm) => self.set_and_go(d, imm << 12),
            Quick::Auipc(d, imm) => {
                let value = self.pc.wrapping_add(imm << 12);
                self.set_and_go(d, value)
            }
            Quick::Jal(d, offset) => {
                let target = self.pc.wrapping_add_signed(offset);
                self.jump(d, target)
            }
            Quick::Jalr(d, a, imm) => {
                let target = self.sum(a, imm) / 2 * 2;
                self.jump(d, target)
            }
            Quick::Beq(a, b, offset) => self.branch(BranchOp::Beq, a, b, offset),
            Quick::Bne(a, b, offset) => self.branch(BranchOp::Bne, a, b, offset),
            Quick::Blt(a, b, offset) => self.branch(BranchOp::Blt, a, b, offset),
            Quick::Bge(a, b, offset) => self.branch(BranchOp::Bge, a, b, offset),
            Quick::Bltu(a, b, offset) => self.branch(BranchOp::Bltu, a, b, offset),
            Quick::Bgeu(a, b, offset) => self.branch(BranchOp::Bgeu, a, b, offset),
            Quick::Lb(d, a, imm) => self.load_value(LoadOp::Lb, d, a, imm),
            Quick::Lh(d, a, imm) => self.load_value(LoadOp::Lh, d, a, imm),
            Quick::Lw(d, a, imm) => self.load_value(LoadOp::Lw, d, a, imm),
            Quick::Lbu(d, a, imm) => self.load_value(LoadOp::Lbu, d, a, imm),
            Quick::Lhu(d, a, imm) => self.load_value(LoadOp::Lhu, d, a, imm),
            Quick::Sb(a, b, imm) => self.store_value(StoreOp::Sb, a, b, imm),
            Quick::Sh(a, b, imm) => self.store_value(StoreOp::Sh, a, b, imm),
            Quick::Sw(a, b, imm) => self.store_value(StoreOp::Sw, a, b, imm),
            Quick::Addi(d, a, imm) => self.immediate(ImmOp::Addi, d, a, imm),
            Quick::Slti(d, a, imm) => self.immediate(ImmOp::Slti, d, a, imm),
            Quick::Sltiu(d, a, imm) => self.immediate(ImmOp::Sltiu, d, a, imm),
            Quick::Xori(d, a, imm) => self.immediate(ImmOp::Xori, d, a, imm),
            Quick::Ori(d, a, imm) => self.immediate(ImmOp::Ori, d, a, imm),
            Quick::Andi(d, a, imm) => self.immediate(ImmOp::Andi, d, a, imm),
            Quick::Slli(d, a, imm) => self.immediate(ImmOp::Slli, d, a, imm),
            Quick::Srli(d, a, imm) => self.immediate(ImmOp::Srli, d, a, imm),
            Quick::Srai(d, a, imm) => self.immediate(ImmOp::Srai, d, a, imm),
            Quick::Add(d, a, b) => self.operation(RegOp::Add, d, a, b),
            Quick::Sub(d, a, b) => self.operation(RegOp::Sub, d, a, b),
            Quick::Sll(d, a, b) => self.operation(RegOp::Sll, d, a, b),
            Quick::Slt(d, a, b) => self.operation(RegOp::Slt, d, a, b),
            Quick::Sltu(d, a, b) => self.operation(RegOp::Sltu, d, a, b),
            Quick::Xor(d, a, b) => self.operation(RegOp::Xor, d, a, b),
            Quick::Srl(d, a, b) => self.operation(RegOp::Srl, d, a, b),
            Quick::Sra(d, a, b) => self.operation(RegOp::Sra, d, a, b),
            Quick::Or(d, a, b) => self.operation(RegOp::Or, d, a, b),
            Quick::And(d, a, b) => self.operation(RegOp::And, d, a, b),
            Quick::Mul(d, a, b) => self.operation(RegOp::Mul, d, a, b),
            Quick::Mulh(d, a, b) => self.operation(RegOp::Mulh, d, a, b),
            Quick::Mulhsu(d, a, b) => self.operation(RegOp::Mulhsu, d, a, b),
            Quick::Mulhu(d, a, b) => self.operation(RegOp::Mulhu, d, a, b),
            Quick::Div(d, a, b) => self.operation(RegOp::Div, d, a, b),
            Quick::Divu(d, a, b) => self.operation(RegOp::Divu, d, a, b),
            Quick::Rem(d, a, b) => self.operation(RegOp::Rem, d, a, b),
            Quick::Remu(d, a, b) => self.operation(RegOp::Remu, d, a, b),
            Quick::Fence(..) => self.go_on(),
            Quick::Ecall => Fate::Calls,
            Quick::Ebreak => Fate::Stops(TrapCause::Break),
        }
    }

    #[inline(always)]
    fn immediate(&mut self, op: ImmOp, rd: Reg, rs1: Reg, imm: i32) -> Fate
        requires fits { rd.0 < 32 }
        requires base { rs1.0 < 32 }
        requires next { self.old.pc + 4 < 2 ^ 32 }
        ensures exact { let value = computed (with_immediate op) (register self.old rs1.0)
            (cast_unsigned w32 imm) in
            goes_on (with_register self.old rd.0 value) ≡ fated result self.new }
        ensures rests { IsStopped result → self.new ≡ self.old }
        ensures kept { Keeps self.old self.new }
    {
        let value = compute(by_register(op), self.register(rs1), imm.cast_unsigned());
        self.set_and_go(rd, value)
    }

    #[inline(always)]
    fn operation(&mut self, op: RegOp, rd: Reg, rs1: Reg, rs2: Reg) -> Fate
        requires fits { rd.0 < 32 }
        requires first { rs1.0 < 32 }
        requires second { rs2.0 < 32 }
        requires next { self.old.pc + 4 < 2 ^ 32 }
        ensures exact { let value = computed op (register self.old rs1.0)
            (register self.old rs2.0) in
            goes_on (with_register self.old rd.0 value) ≡ fated result self.new }
        ensures rests { IsStopped result → self.new ≡ self.old }
        ensures kept { Keeps self.old self.new }
    {
        let value = compute(op, self.register(rs1), self.register(rs2));
        self.set_and_go(rd, value)
    }

    #[inline(always)]
    fn register(&self, r: Reg) -> u32
        requires { r.0 < 32 }
        ensures { result ≡ register self.now r.0 }
    {
        self.registers[r.0 as usize]
    }

    #[inline(always)]
    fn set_register(&mut self, r: Reg, value: u32)
        requires { r.0 < 32 }
        ensures exact { self.new ≡ with_register self.old r.0 value }
        ensures kept { Keeps self.old self.new }
    {
        if r.0 != 0 {
            self.registers[r.0 as usize] = value;
        }
    }

    #[inline(always)]
    fn sum(&self, r: Reg, imm: i32) -> u32
        requires { r.0 < 32 }
        ensures { result ≡ sum_of self.now r imm }
    {
        self.register(r).wrapping_add_signed(imm)
    }

    #[inline(always)]
    fn go_on(&mut self) -> Fate
        requires { self.old.pc + 4 < 2 ^ 32 }
        ensures exact { goes_on self.old ≡ fated result self.new }
        ensures rests { IsStopped result → self.new ≡ self.old }
        ensures kept { Keeps self.old self.new }
    {
        self.pc += 4;
        Fate::Went
    }

    #[inline(always)]
    fn set_and_go(&mut self, rd: Reg, value: u32) -> Fate
        requires fits { rd.0 < 32 }
        requires next { self.old.pc + 4 < 2 ^ 32 }
        ensures exact { goes_on (with_register self.old rd.0 value) ≡ fated result self.new }
        ensures rests { IsStopped result → self.new ≡ self.old }
        ensures kept { Keeps self.old self.new }
    {
        let next = self.pc + 4;
        self.set_register(rd, value);
        self.pc = next;
        Fate::Went
    }

    // The link register is written last, since the target may have been read from it.
    #[inline(always)]
    fn jump(&mut self, rd: Reg, target: u32) -> Fate
        requires fits { rd.0 < 32 }
        requires next { self.old.pc + 4 < 2 ^ 32 }
        ensures exact { let linked = with_register self.old rd.0 (self.old.pc + 4) in
            jumps self.old target linked ≡ fated result self.new }
        ensures rests { IsStopped result → self.new ≡ self.old }
        ensures kept { Keeps self.old self.new }
    {
        if target % 4 != 0 {
            return Fate::Stops(TrapCause::Jump);
        }
        let link = self.pc + 4;
        self.set_register(rd, link);
        self.pc = target;
        Fate::Went
    }

    #[inline(always)]
    fn branch(&mut self, op: BranchOp, rs1: Reg, rs2: Reg, offset: i32) -> Fate
        requires first { rs1.0 < 32 }
        requires second { rs2.0 < 32 }
        requires next { self.old.pc + 4 < 2 ^ 32 }
        ensures exact { branches self.old op rs1 rs2 offset ≡ fated result self.new }
        ensures rests { IsStopped result → self.new ≡ self.old }
        ensures kept { Keeps self.old self.new }
    {
        if !taken(op, self.register(rs1), self.register(rs2)) {
            return self.go_on();
        }
        let target = self.pc.wrapping_add_signed(offset);
        if target % 4 != 0 {
            return Fate::Stops(TrapCause::Jump);
        }
        self.pc = target;
        Fate::Went
    }

    #[inline(always)]
    fn load_value(&mut self, op: LoadOp, rd: Reg, rs1: Reg, imm: i32) -> Fate
        requires fits { rd.0 < 32 }
        requires base { rs1.0 < 32 }
        requires next { self.old.pc + 4 < 2 ^ 32 }
        ensures exact { loads self.old op rd.0 (sum_of self.old rs1 imm) ≡ fated result self.new }
        ensures rests { IsStopped result → self.new ≡ self.old }
        ensures kept { Keeps self.old self.new }
    {
        let at = self.sum(rs1, imm);
        let size = size_of_load(op);
        if at % size != 0 {
            return Fate::Stops(TrapCause::LoadAlign);
        }
        let at = at as usize;
        if at + size as usize > self.memory.len() {
            return Fate::Stops(TrapCause::Load);
        }
        let value = read_in(op, self.memory.as_slice(), at);
        self.set_and_go(rd, value)
    }

    #[inline(always)]
    fn store_value(&mut self, op: StoreOp, rs1: Reg, rs2: Reg, imm: i32) -> Fate
        requires base { rs1.0 < 32 }
        requires source { rs2.0 < 32 }
        requires next { self.old.pc + 4 < 2 ^ 32 }
        ensures exact { stores self.old op (sum_of self.old rs1 imm) (register self.old rs2.0)
            ≡ fated result self.new }
        ensures rests { IsStopped result → self.new ≡ self.old }
        ensures kept { Keeps self.old self.new }
    {
        let at = self.sum(rs1, imm);
        let word = self.register(rs2);
        let size = size_of_store(op);
        if at % size != 0 {
            return Fate::Stops(TrapCause::StoreAlign);
        }
        let at = at as usize;
        if at + size as usize > self.memory.len() {
            return Fate::Stops(TrapCause::Store);
        }
        self.put(op, at, word);
        self.go_on()
    }

    #[inline(always)]
    fn put(&mut self, op: StoreOp, at: usize, word: u32)
        requires { at + store_size op ≤ length self.old.memory }
        ensures exact { self.new ≡ record self.old { memory = put_at op self.old.memory at word } }
        ensures limit { length self.new.memory ≤ MAX_MEMORY }
        ensures kept { Keeps self.old self.new }
    {
        put_in(op, self.memory.as_mut_slice(), at, word);
        self.used = self.used.max(at + size_of_store(op) as usize);
    }

    fn service(&self) -> Step
        ensures { calls self.now (service_of self.now) ≡ answer result self.now }
    {
        let object = self.registers[10];
        let at = self.registers[11];
        let first = self.registers[12];
        let count = self.registers[13];
        match self.registers[17] {
            1 => Step::Call(Service::Read { object, at }),
            2 => Step::Call(Service::Write { object, at }),
            3 => Step::Call(Service::Spawn {
                program: object,
                arg: at,
            }),
            4 => Step::Call(Service::Finish { code: object }),
            5 => Step::Call(Service::ReadPart {
                object,
                at,
                first,
                count,
            }),
            6 => Step::Call(Service::WritePart {
                object,
                at,
                first,
                count,
            }),
            _ => Step::Trap(TrapCause::Call),
        }
    }
}
