ghost use Rattle.std.specs.Prelude.{◌≡◌};
ghost use Rattle.execution.specs.Actions.{action_of};
ghost use Rattle.execution.specs.Memory.{Loadable};

use crate::Action;
use crate::Action::{Computes, LoadsSigned, LoadsUnsigned, Stops, Stores};
use crate::Alu::{Add, And, Or, Sll, Slt, Sltu, Sra, Srl, Sub, Xor};
use crate::Cause::{Breakpoint, EnvironmentCall, Illegal};
use crate::Computation::{
    Branch, Fence, Immediate, Jump, JumpRegister, Register, Upper, UpperAddress,
};
use crate::Condition::{Eq, Ge, Geu, Lt, Ltu, Ne};

// from here on a number is no operation's
const PAST_LAST: u8 = isa::LAST + 1;

// What the operation does; a number that is none stops as an illegal word does. A match: a static would have the same rows, and
// that a load's size is one that is read holds arm by arm. Inner: the step and the calls use it.
pub fn action(operation: u8) -> Action
    ensures listed { result ≡ action_of operation }
    ensures loadable { Loadable result }
{
    match operation {
        1 => Computes(Upper), // LUI
        2 => Computes(UpperAddress), // AUIPC
        3 => Computes(Jump), // JAL
        4 => Computes(JumpRegister), // JALR
        5 => Computes(Branch(Eq)), // BEQ
        6 => Computes(Branch(Ne)), // BNE
        7 => Computes(Branch(Lt)), // BLT
        8 => Computes(Branch(Ge)), // BGE
        9 => Computes(Branch(Ltu)), // BLTU
        10 => Computes(Branch(Geu)), // BGEU
        11 => LoadsSigned(1), // LB
        12 => LoadsSigned(2), // LH
        13 => LoadsUnsigned(4), // LW
        14 => LoadsUnsigned(1), // LBU
        15 => LoadsUnsigned(2), // LHU
        16 => Stores(1), // SB
        17 => Stores(2), // SH
        18 => Stores(4), // SW
        19 => Computes(Immediate(Add)), // ADDI
        20 => Computes(Immediate(Slt)), // SLTI
        21 => Computes(Immediate(Sltu)), // SLTIU
        22 => Computes(Immediate(Xor)), // XORI
        23 => Computes(Immediate(Or)), // ORI
        24 => Computes(Immediate(And)), // ANDI
        25 => Computes(Immediate(Sll)), // SLLI
        26 => Computes(Immediate(Srl)), // SRLI
        27 => Computes(Immediate(Sra)), // SRAI
        28 => Computes(Register(Add)), // ADD
        29 => Computes(Register(Sub)), // SUB
        30 => Computes(Register(Sll)), // SLL
        31 => Computes(Register(Slt)), // SLT
        32 => Computes(Register(Sltu)), // SLTU
        33 => Computes(Register(Xor)), // XOR
        34 => Computes(Register(Srl)), // SRL
        35 => Computes(Register(Sra)), // SRA
        36 => Computes(Register(Or)), // OR
        37 => Computes(Register(And)), // AND
        38 => Stops(EnvironmentCall), // ECALL
        39 => Stops(Breakpoint), // EBREAK
        40 => Computes(Fence), // FENCE
        0 | PAST_LAST.. => Stops(Illegal), // no operation
    }
}
