//! The mnemonics, and the forms that they name.
ghost use Rattle.std.specs.Prelude.{◌≡◌};
ghost use Rattle.std.specs.List.{find};
ghost use Rattle.std.specs.Str.{bytes_eq};
ghost use Rattle.spec_isa.specs.Denoted.{branches, loads, stores, immediates, shifts, registers, amos};
ghost use Rattle.dl_asm.specs.Mnemonics as names;

use crate::form::{Form, Order};
use crate::text::split_once;
use spec_isa::instr::{AmoOp, BranchOp, ImmediateOp, LoadOp, RegisterOp, ShiftOp, StoreOp};

const REGISTER_OPS: [(&[u8], RegisterOp); 18] = [
    (b"add", RegisterOp::Add),
    (b"sub", RegisterOp::Sub),
    (b"sll", RegisterOp::Sll),
    (b"slt", RegisterOp::Slt),
    (b"sltu", RegisterOp::Sltu),
    (b"xor", RegisterOp::Xor),
    (b"srl", RegisterOp::Srl),
    (b"sra", RegisterOp::Sra),
    (b"or", RegisterOp::Or),
    (b"and", RegisterOp::And),
    (b"mul", RegisterOp::Mul),
    (b"mulh", RegisterOp::Mulh),
    (b"mulhsu", RegisterOp::Mulhsu),
    (b"mulhu", RegisterOp::Mulhu),
    (b"div", RegisterOp::Div),
    (b"divu", RegisterOp::Divu),
    (b"rem", RegisterOp::Rem),
    (b"remu", RegisterOp::Remu),
];

const IMMEDIATE_OPS: [(&[u8], ImmediateOp); 6] = [
    (b"addi", ImmediateOp::Addi),
    (b"slti", ImmediateOp::Slti),
    (b"sltiu", ImmediateOp::Sltiu),
    (b"xori", ImmediateOp::Xori),
    (b"ori", ImmediateOp::Ori),
    (b"andi", ImmediateOp::Andi),
];

const SHIFT_OPS: [(&[u8], ShiftOp); 3] = [
    (b"slli", ShiftOp::Slli),
    (b"srli", ShiftOp::Srli),
    (b"srai", ShiftOp::Srai),
];

const LOAD_OPS: [(&[u8], LoadOp); 5] = [
    (b"lb", LoadOp::Lb),
    (b"lh", LoadOp::Lh),
    (b"lw", LoadOp::Lw),
    (b"lbu", LoadOp::Lbu),
    (b"lhu", LoadOp::Lhu),
];

const STORE_OPS: [(&[u8], StoreOp); 3] = [
    (b"sb", StoreOp::Sb),
    (b"sh", StoreOp::Sh),
    (b"sw", StoreOp::Sw),
];

const BRANCH_OPS: [(&[u8], BranchOp); 6] = [
    (b"beq", BranchOp::Beq),
    (b"bne", BranchOp::Bne),
    (b"blt", BranchOp::Blt),
    (b"bge", BranchOp::Bge),
    (b"bltu", BranchOp::Bltu),
    (b"bgeu", BranchOp::Bgeu),
];

const AMO_OPS: [(&[u8], AmoOp); 9] = [
    (b"amoadd", AmoOp::Amoadd),
    (b"amoswap", AmoOp::Amoswap),
    (b"amoxor", AmoOp::Amoxor),
    (b"amoor", AmoOp::Amoor),
    (b"amoand", AmoOp::Amoand),
    (b"amomin", AmoOp::Amomin),
    (b"amomax", AmoOp::Amomax),
    (b"amominu", AmoOp::Amominu),
    (b"amomaxu", AmoOp::Amomaxu),
];

const PLAIN_FORMS: [(&[u8], Form); 10] = [
    (b"lui", Form::Lui),
    (b"auipc", Form::Auipc),
    (b"jal", Form::Jal),
    (b"jalr", Form::Jalr),
    (b"fence", Form::Fence),
    (b"fence.i", Form::FenceI),
    (b"ecall", Form::Ecall),
    (b"ebreak", Form::Ebreak),
    (b".word", Form::Word),
    (b".zero", Form::Zero),
];

const ORDERS: [(&[u8], Order); 4] = [
    (
        b"w",
        Order {
            acquire: false,
            release: false,
        },
    ),
    (
        b"w.aq",
        Order {
            acquire: true,
            release: false,
        },
    ),
    (
        b"w.rl",
        Order {
            acquire: false,
            release: true,
        },
    ),
    (
        b"w.aqrl",
        Order {
            acquire: true,
            release: true,
        },
    ),
];

/// The form that a mnemonic names, if it is one.
#[tactic(auto, unfolding(crate::specs::Mnemonics::form_named))]
pub fn form_named(name: &[u8]) -> Option<Form>
    ensures { result ≡ names.form_named name.now }
{
    if let Some(op) = register_op(name) {
        return Some(Form::Register(op));
    }
    if let Some(op) = immediate_op(name) {
        return Some(Form::Immediate(op));
    }
    if let Some(op) = shift_op(name) {
        return Some(Form::Shift(op));
    }
    if let Some(op) = load_op(name) {
        return Some(Form::Load(op));
    }
    if let Some(op) = store_op(name) {
        return Some(Form::Store(op));
    }
    if let Some(op) = branch_op(name) {
        return Some(Form::Branch(op));
    }
    if let Some(form) = plain_form(name) {
        return Some(form);
    }
    atomic_form(name)
}

fn register_op(name: &[u8]) -> Option<RegisterOp>
    ensures { result ≡ find (λ op. bytes_eq name.now (names.register_name op)) registers }
{
    named(name, &REGISTER_OPS)
}

fn immediate_op(name: &[u8]) -> Option<ImmediateOp>
    ensures { result ≡ find (λ op. bytes_eq name.now (names.immediate_name op)) immediates }
{
    named(name, &IMMEDIATE_OPS)
}

fn shift_op(name: &[u8]) -> Option<ShiftOp>
    ensures { result ≡ find (λ op. bytes_eq name.now (names.shift_name op)) shifts }
{
    named(name, &SHIFT_OPS)
}

fn load_op(name: &[u8]) -> Option<LoadOp>
    ensures { result ≡ find (λ op. bytes_eq name.now (names.load_name op)) loads }
{
    named(name, &LOAD_OPS)
}

fn store_op(name: &[u8]) -> Option<StoreOp>
    ensures { result ≡ find (λ op. bytes_eq name.now (names.store_name op)) stores }
{
    named(name, &STORE_OPS)
}

fn branch_op(name: &[u8]) -> Option<BranchOp>
    ensures { result ≡ find (λ op. bytes_eq name.now (names.branch_name op)) branches }
{
    named(name, &BRANCH_OPS)
}

fn amo_op(name: &[u8]) -> Option<AmoOp>
    ensures { result ≡ find (λ op. bytes_eq name.now (names.amo_name op)) amos }
{
    named(name, &AMO_OPS)
}

fn plain_form(name: &[u8]) -> Option<Form>
    ensures { result ≡ names.plain_form name.now }
{
    named(name, &PLAIN_FORMS)
}

fn atomic_form(name: &[u8]) -> Option<Form>
    ensures { result ≡ names.atomic_form name.now }
{
    let (operation, order) = split_once(name, b'.')?;
    atomic_named(operation, order_named(order)?)
}

fn order_named(name: &[u8]) -> Option<Order>
    ensures { result ≡ names.order_named name.now }
{
    named(name, &ORDERS)
}

fn atomic_named(name: &[u8], order: Order) -> Option<Form>
    ensures { result ≡ names.atomic_named name.now order }
{
    if name == b"lr".as_slice() {
        Some(Form::LoadReserved(order))
    } else if name == b"sc".as_slice() {
        Some(Form::StoreConditional(order))
    } else {
        amo_op(name).map(|op| Form::Amo(op, order))
    }
}

// What the name names in the table, if it is there.
fn named<T: Copy>(name: &[u8], table: &[(&[u8], T)]) -> Option<T>
    ensures { result ≡ names.named name.now (names.entries table.now) }
{
    for (other, value) in table {
        if name == *other {
            return Some(*value);
        }
    }
    None
}
