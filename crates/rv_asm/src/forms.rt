//! The forms of a line: mnemonics with their operands.

ghost use Rattle.std.specs.Prelude.{◌≡◌, option_map, find, nat_eq, pos};
ghost use Rattle.std.specs.Cmp.Lexicographic.{pointwise};
ghost use Rattle.rv_isa.specs.Names.{mnemonic_of};
ghost use Rattle.rv_isa.specs.declared.instruction.Instr.TheVariants.{Jalr};
ghost use Rattle.rv_asm.specs.Forms.{branch_template as branch_row, branch_templates, form_among, form_named as named, form_parts, imm_template as imm_row, imm_templates, load_template as load_row, load_templates, op_template as op_row, op_templates, pseudo_forms, single_templates, store_template as store_row, store_templates, templates};
ghost use Rattle.rv_asm.specs.Seen.{form_seen};

use rv_isa::{BranchOp, ImmOp, Instr, LoadOp, Operand, Reg, RegOp, StoreOp, mnemonic, operands};

/// What the operands of a line fill.
#[derive(Clone, Copy, Debug)]
pub struct Form {
    /// The operands, in order.
    pub operands: &'static [Operand],
    /// The instruction before its operands are filled in.
    pub template: Instr,
}

const X0: Reg = Reg(0);

const RA: Reg = Reg(1);

const BRANCHES: [BranchOp; 6] = [
    BranchOp::Beq,
    BranchOp::Bne,
    BranchOp::Blt,
    BranchOp::Bge,
    BranchOp::Bltu,
    BranchOp::Bgeu,
];

const LOADS: [LoadOp; 5] = [LoadOp::Lb, LoadOp::Lh, LoadOp::Lw, LoadOp::Lbu, LoadOp::Lhu];

const STORES: [StoreOp; 3] = [StoreOp::Sb, StoreOp::Sh, StoreOp::Sw];

const IMMEDIATES: [ImmOp; 9] = [
    ImmOp::Addi,
    ImmOp::Slti,
    ImmOp::Sltiu,
    ImmOp::Xori,
    ImmOp::Ori,
    ImmOp::Andi,
    ImmOp::Slli,
    ImmOp::Srli,
    ImmOp::Srai,
];

const REGISTER_OPS: [RegOp; 18] = [
    RegOp::Add,
    RegOp::Sub,
    RegOp::Sll,
    RegOp::Slt,
    RegOp::Sltu,
    RegOp::Xor,
    RegOp::Srl,
    RegOp::Sra,
    RegOp::Or,
    RegOp::And,
    RegOp::Mul,
    RegOp::Mulh,
    RegOp::Mulhsu,
    RegOp::Mulhu,
    RegOp::Div,
    RegOp::Divu,
    RegOp::Rem,
    RegOp::Remu,
];

/// The instructions that no other shares its fields with.
const SINGLES: [Instr; 7] = [
    Instr::Lui { rd: Reg(0), imm: 0 },
    Instr::Auipc { rd: Reg(0), imm: 0 },
    Instr::Jal {
        rd: Reg(0),
        offset: 0,
    },
    Instr::Jalr {
        rd: Reg(0),
        rs1: Reg(0),
        imm: 0,
    },
    Instr::Fence {
        rd: Reg(0),
        rs1: Reg(0),
        bits: 0x0ff,
    },
    Instr::Ecall,
    Instr::Ebreak,
];

fn branch_template(op: BranchOp) -> Instr
    ensures { result ≡ branch_row op }
{
    Instr::Branch {
        op,
        rs1: X0,
        rs2: X0,
        offset: 0,
    }
}

fn load_template(op: LoadOp) -> Instr
    ensures { result ≡ load_row op }
{
    Instr::Load {
        op,
        rd: X0,
        rs1: X0,
        imm: 0,
    }
}

fn store_template(op: StoreOp) -> Instr
    ensures { result ≡ store_row op }
{
    Instr::Store {
        op,
        rs1: X0,
        rs2: X0,
        imm: 0,
    }
}

fn imm_template(op: ImmOp) -> Instr
    ensures { result ≡ imm_row op }
{
    Instr::OpImm {
        op,
        rd: X0,
        rs1: X0,
        imm: 0,
    }
}

fn op_template(op: RegOp) -> Instr
    ensures { result ≡ op_row op }
{
    Instr::Op {
        op,
        rd: X0,
        rs1: X0,
        rs2: X0,
    }
}

#[tactic(auto, unfolding(crate::specs::Forms::single_templates))]
fn single_named(word: &[u8]) -> Option<Instr>
    ensures { result ≡ find (λ i. pointwise nat_eq (mnemonic_of i) word.now) single_templates }
{
    SINGLES
        .iter()
        .copied()
        .find(|i| mnemonic(*i).as_bytes() == word)
}

#[tactic(auto, unfolding(crate::specs::Forms::branch_templates))]
fn branch_named(word: &[u8]) -> Option<Instr>
    ensures { result ≡ find (λ i. pointwise nat_eq (mnemonic_of i) word.now) branch_templates }
{
    BRANCHES
        .iter()
        .map(|op| branch_template(*op))
        .find(|i| mnemonic(*i).as_bytes() == word)
}

#[tactic(auto, unfolding(crate::specs::Forms::load_templates))]
fn load_named(word: &[u8]) -> Option<Instr>
    ensures { result ≡ find (λ i. pointwise nat_eq (mnemonic_of i) word.now) load_templates }
{
    LOADS
        .iter()
        .map(|op| load_template(*op))
        .find(|i| mnemonic(*i).as_bytes() == word)
}

#[tactic(auto, unfolding(crate::specs::Forms::store_templates))]
fn store_named(word: &[u8]) -> Option<Instr>
    ensures { result ≡ find (λ i. pointwise nat_eq (mnemonic_of i) word.now) store_templates }
{
    STORES
        .iter()
        .map(|op| store_template(*op))
        .find(|i| mnemonic(*i).as_bytes() == word)
}

#[tactic(auto, unfolding(crate::specs::Forms::imm_templates))]
fn imm_named(word: &[u8]) -> Option<Instr>
    ensures { result ≡ find (λ i. pointwise nat_eq (mnemonic_of i) word.now) imm_templates }
{
    IMMEDIATES
        .iter()
        .map(|op| imm_template(*op))
        .find(|i| mnemonic(*i).as_bytes() == word)
}

#[tactic(auto, unfolding(crate::specs::Forms::op_templates))]
fn op_named(word: &[u8]) -> Option<Instr>
    ensures { result ≡ find (λ i. pointwise nat_eq (mnemonic_of i) word.now) op_templates }
{
    REGISTER_OPS
        .iter()
        .map(|op| op_template(*op))
        .find(|i| mnemonic(*i).as_bytes() == word)
}

/// The instruction of a mnemonic, before its operands are filled in.
#[tactic(auto, using(crate::proofs::FormSearch::found_among))]
fn template_named(word: &[u8]) -> Option<Instr>
    ensures { result ≡ find (λ i. pointwise nat_eq (mnemonic_of i) word.now) templates }
{
    if let Some(single) = single_named(word) {
        return Some(single);
    }
    if let Some(branch) = branch_named(word) {
        return Some(branch);
    }
    if let Some(load) = load_named(word) {
        return Some(load);
    }
    if let Some(store) = store_named(word) {
        return Some(store);
    }
    if let Some(imm) = imm_named(word) {
        return Some(imm);
    }
    op_named(word)
}

fn make_form(operands: &'static [Operand], template: Instr) -> Form
    ensures operands { result.operands.now ≡ operands.entry.now }
    ensures template { result.template ≡ template }
{
    Form { operands, template }
}

fn indirect_jump(rs1: Reg) -> Instr
    ensures { result ≡ Jalr (record { 0 = 0 }) rs1 (pos 0) }
{
    Instr::Jalr {
        rd: X0,
        rs1,
        imm: 0,
    }
}

#[tactic(auto, unfolding(crate::specs::Forms::pseudo_forms))]
fn pseudo_form(word: &[u8]) -> Option<Form>
    ensures { option_map form_seen result
        ≡ option_map form_parts (form_among pseudo_forms word.now) }
{
    if word == b"nop".as_slice() {
        Some(make_form(&[], imm_template(ImmOp::Addi)))
    } else if word == b"mv".as_slice() {
        Some(make_form(&[Operand::Rd, Operand::Rs1], imm_template(ImmOp::Addi)))
    } else if word == b"not".as_slice() {
        Some(make_form(
            &[Operand::Rd, Operand::Rs1],
            Instr::OpImm {
                op: ImmOp::Xori,
                rd: X0,
                rs1: X0,
                imm: -1,
            },
        ))
    } else if word == b"neg".as_slice() {
        Some(make_form(&[Operand::Rd, Operand::Rs2], op_template(RegOp::Sub)))
    } else if word == b"j".as_slice() {
        Some(make_form(&[Operand::Target], Instr::Jal { rd: X0, offset: 0 }))
    } else if word == b"jr".as_slice() {
        Some(make_form(&[Operand::Rs1], indirect_jump(X0)))
    } else if word == b"ret".as_slice() {
        Some(make_form(&[], indirect_jump(RA)))
    } else if word == b"beqz".as_slice() {
        Some(make_form(
            &[Operand::Rs1, Operand::Target],
            branch_template(BranchOp::Beq),
        ))
    } else if word == b"bnez".as_slice() {
        Some(make_form(
            &[Operand::Rs1, Operand::Target],
            branch_template(BranchOp::Bne),
        ))
    } else {
        None
    }
}

/// The form of a mnemonic.
#[tactic(auto, using(crate::proofs::FormSearch::form_is))]
pub fn form_named(word: &[u8]) -> Option<Form>
    ensures { option_map form_seen result ≡ named word.now }
{
    match template_named(word) {
        Some(template) => Some(make_form(operands(template), template)),
        None => pseudo_form(word),
    }
}
