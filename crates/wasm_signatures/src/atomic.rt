//! Written by tools/lists.py from tools/operators.tsv.
ghost use Rattle.std.specs.Prelude.{◌≡◌};
ghost use Rattle.wasm_signatures.specs.Atomic.{atomic_typing};
ghost use Rattle.wasm_signatures.specs.Types.{typing_of};

use crate::operand_type::OperandType;
use crate::signature::{Signature, Typing};
use wasm_imm::Proposal;
use wasm_instr_ops::AtomicOperator;

/// Returns the typing of an operator with the prefix byte 0xfe.
pub fn atomic_typing(op: &AtomicOperator) -> Typing<'static>
    ensures { typing_of result ≡ atomic_typing op.now }
{
    match op {
        AtomicOperator::MemoryAtomicNotify { .. }
        | AtomicOperator::I32AtomicRmwAdd { .. }
        | AtomicOperator::I32AtomicRmw8AddU { .. }
        | AtomicOperator::I32AtomicRmw16AddU { .. }
        | AtomicOperator::I32AtomicRmwSub { .. }
        | AtomicOperator::I32AtomicRmw8SubU { .. }
        | AtomicOperator::I32AtomicRmw16SubU { .. }
        | AtomicOperator::I32AtomicRmwAnd { .. }
        | AtomicOperator::I32AtomicRmw8AndU { .. }
        | AtomicOperator::I32AtomicRmw16AndU { .. }
        | AtomicOperator::I32AtomicRmwOr { .. }
        | AtomicOperator::I32AtomicRmw8OrU { .. }
        | AtomicOperator::I32AtomicRmw16OrU { .. }
        | AtomicOperator::I32AtomicRmwXor { .. }
        | AtomicOperator::I32AtomicRmw8XorU { .. }
        | AtomicOperator::I32AtomicRmw16XorU { .. }
        | AtomicOperator::I32AtomicRmwXchg { .. }
        | AtomicOperator::I32AtomicRmw8XchgU { .. }
        | AtomicOperator::I32AtomicRmw16XchgU { .. } => Typing::Fixed(Signature {
            takes: &[OperandType::Address, OperandType::I32],
            leaves: &[OperandType::I32],
        }),
        AtomicOperator::MemoryAtomicWait32 { .. } => Typing::Fixed(Signature {
            takes: &[OperandType::Address, OperandType::I32, OperandType::I64],
            leaves: &[OperandType::I32],
        }),
        AtomicOperator::MemoryAtomicWait64 { .. } => Typing::Fixed(Signature {
            takes: &[OperandType::Address, OperandType::I64, OperandType::I64],
            leaves: &[OperandType::I32],
        }),
        AtomicOperator::AtomicFence { .. } => Typing::Fixed(Signature {
            takes: &[],
            leaves: &[],
        }),
        AtomicOperator::I32AtomicLoad { .. }
        | AtomicOperator::I32AtomicLoad8U { .. }
        | AtomicOperator::I32AtomicLoad16U { .. } => Typing::Fixed(Signature {
            takes: &[OperandType::Address],
            leaves: &[OperandType::I32],
        }),
        AtomicOperator::I64AtomicLoad { .. }
        | AtomicOperator::I64AtomicLoad8U { .. }
        | AtomicOperator::I64AtomicLoad16U { .. }
        | AtomicOperator::I64AtomicLoad32U { .. } => Typing::Fixed(Signature {
            takes: &[OperandType::Address],
            leaves: &[OperandType::I64],
        }),
        AtomicOperator::I32AtomicStore { .. }
        | AtomicOperator::I32AtomicStore8 { .. }
        | AtomicOperator::I32AtomicStore16 { .. } => Typing::Fixed(Signature {
            takes: &[OperandType::Address, OperandType::I32],
            leaves: &[],
        }),
        AtomicOperator::I64AtomicStore { .. }
        | AtomicOperator::I64AtomicStore8 { .. }
        | AtomicOperator::I64AtomicStore16 { .. }
        | AtomicOperator::I64AtomicStore32 { .. } => Typing::Fixed(Signature {
            takes: &[OperandType::Address, OperandType::I64],
            leaves: &[],
        }),
        AtomicOperator::I64AtomicRmwAdd { .. }
        | AtomicOperator::I64AtomicRmw8AddU { .. }
        | AtomicOperator::I64AtomicRmw16AddU { .. }
        | AtomicOperator::I64AtomicRmw32AddU { .. }
        | AtomicOperator::I64AtomicRmwSub { .. }
        | AtomicOperator::I64AtomicRmw8SubU { .. }
        | AtomicOperator::I64AtomicRmw16SubU { .. }
        | AtomicOperator::I64AtomicRmw32SubU { .. }
        | AtomicOperator::I64AtomicRmwAnd { .. }
        | AtomicOperator::I64AtomicRmw8AndU { .. }
        | AtomicOperator::I64AtomicRmw16AndU { .. }
        | AtomicOperator::I64AtomicRmw32AndU { .. }
        | AtomicOperator::I64AtomicRmwOr { .. }
        | AtomicOperator::I64AtomicRmw8OrU { .. }
        | AtomicOperator::I64AtomicRmw16OrU { .. }
        | AtomicOperator::I64AtomicRmw32OrU { .. }
        | AtomicOperator::I64AtomicRmwXor { .. }
        | AtomicOperator::I64AtomicRmw8XorU { .. }
        | AtomicOperator::I64AtomicRmw16XorU { .. }
        | AtomicOperator::I64AtomicRmw32XorU { .. }
        | AtomicOperator::I64AtomicRmwXchg { .. }
        | AtomicOperator::I64AtomicRmw8XchgU { .. }
        | AtomicOperator::I64AtomicRmw16XchgU { .. }
        | AtomicOperator::I64AtomicRmw32XchgU { .. } => Typing::Fixed(Signature {
            takes: &[OperandType::Address, OperandType::I64],
            leaves: &[OperandType::I64],
        }),
        AtomicOperator::I32AtomicRmwCmpxchg { .. }
        | AtomicOperator::I32AtomicRmw8CmpxchgU { .. }
        | AtomicOperator::I32AtomicRmw16CmpxchgU { .. } => Typing::Fixed(Signature {
            takes: &[OperandType::Address, OperandType::I32, OperandType::I32],
            leaves: &[OperandType::I32],
        }),
        AtomicOperator::I64AtomicRmwCmpxchg { .. }
        | AtomicOperator::I64AtomicRmw8CmpxchgU { .. }
        | AtomicOperator::I64AtomicRmw16CmpxchgU { .. }
        | AtomicOperator::I64AtomicRmw32CmpxchgU { .. } => Typing::Fixed(Signature {
            takes: &[OperandType::Address, OperandType::I64, OperandType::I64],
            leaves: &[OperandType::I64],
        }),
        AtomicOperator::GlobalAtomicGet { .. }
        | AtomicOperator::GlobalAtomicSet { .. }
        | AtomicOperator::GlobalAtomicRmwAdd { .. }
        | AtomicOperator::GlobalAtomicRmwSub { .. }
        | AtomicOperator::GlobalAtomicRmwAnd { .. }
        | AtomicOperator::GlobalAtomicRmwOr { .. }
        | AtomicOperator::GlobalAtomicRmwXor { .. }
        | AtomicOperator::GlobalAtomicRmwXchg { .. }
        | AtomicOperator::GlobalAtomicRmwCmpxchg { .. }
        | AtomicOperator::TableAtomicGet { .. }
        | AtomicOperator::TableAtomicSet { .. }
        | AtomicOperator::TableAtomicRmwXchg { .. }
        | AtomicOperator::TableAtomicRmwCmpxchg { .. }
        | AtomicOperator::StructAtomicGet { .. }
        | AtomicOperator::StructAtomicGetS { .. }
        | AtomicOperator::StructAtomicGetU { .. }
        | AtomicOperator::StructAtomicSet { .. }
        | AtomicOperator::StructAtomicRmwAdd { .. }
        | AtomicOperator::StructAtomicRmwSub { .. }
        | AtomicOperator::StructAtomicRmwAnd { .. }
        | AtomicOperator::StructAtomicRmwOr { .. }
        | AtomicOperator::StructAtomicRmwXor { .. }
        | AtomicOperator::StructAtomicRmwXchg { .. }
        | AtomicOperator::StructAtomicRmwCmpxchg { .. }
        | AtomicOperator::ArrayAtomicGet { .. }
        | AtomicOperator::ArrayAtomicGetS { .. }
        | AtomicOperator::ArrayAtomicGetU { .. }
        | AtomicOperator::ArrayAtomicSet { .. }
        | AtomicOperator::ArrayAtomicRmwAdd { .. }
        | AtomicOperator::ArrayAtomicRmwSub { .. }
        | AtomicOperator::ArrayAtomicRmwAnd { .. }
        | AtomicOperator::ArrayAtomicRmwOr { .. }
        | AtomicOperator::ArrayAtomicRmwXor { .. }
        | AtomicOperator::ArrayAtomicRmwXchg { .. }
        | AtomicOperator::ArrayAtomicRmwCmpxchg { .. }
        | AtomicOperator::RefI31Shared => Typing::Unsupported(Proposal::SharedEverythingThreads),
        AtomicOperator::Pause => Typing::Unsupported(Proposal::AcquireReleaseAtomics),
    }
}
