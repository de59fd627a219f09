//! Written by tools/lists.py from tools/operators.tsv.
ghost use Rattle.std.specs.Prelude.{◌≡◌};
ghost use Rattle.wasm_signatures.specs.Misc.{misc_typing};
ghost use Rattle.wasm_signatures.specs.Types.{typing_of};

use crate::operand_type::OperandType;
use crate::rule::Rule;
use crate::signature::{Signature, Typing};
use wasm_imm::Proposal;
use wasm_instr_ops::MiscOperator;

/// Returns the typing of an operator with the prefix byte 0xfc.
pub fn misc_typing(op: &MiscOperator) -> Typing<'static>
    ensures { typing_of result ≡ misc_typing op.now }
{
    match op {
        MiscOperator::I32TruncSatF32S | MiscOperator::I32TruncSatF32U => Typing::Fixed(Signature {
            takes: &[OperandType::F32],
            leaves: &[OperandType::I32],
        }),
        MiscOperator::I32TruncSatF64S | MiscOperator::I32TruncSatF64U => Typing::Fixed(Signature {
            takes: &[OperandType::F64],
            leaves: &[OperandType::I32],
        }),
        MiscOperator::I64TruncSatF32S | MiscOperator::I64TruncSatF32U => Typing::Fixed(Signature {
            takes: &[OperandType::F32],
            leaves: &[OperandType::I64],
        }),
        MiscOperator::I64TruncSatF64S | MiscOperator::I64TruncSatF64U => Typing::Fixed(Signature {
            takes: &[OperandType::F64],
            leaves: &[OperandType::I64],
        }),
        MiscOperator::MemoryInit { .. }
        | MiscOperator::DataDrop { .. }
        | MiscOperator::MemoryCopy { .. } => Typing::ByRule(Rule::Memory),
        MiscOperator::MemoryFill { .. } => Typing::Fixed(Signature {
            takes: &[OperandType::Address, OperandType::I32, OperandType::Address],
            leaves: &[],
        }),
        MiscOperator::TableInit { .. }
        | MiscOperator::ElemDrop { .. }
        | MiscOperator::TableCopy { .. }
        | MiscOperator::TableFill { .. }
        | MiscOperator::TableGrow { .. }
        | MiscOperator::TableSize { .. } => Typing::ByRule(Rule::Table),
        MiscOperator::MemoryDiscard { .. } => Typing::Unsupported(Proposal::MemoryControl),
        MiscOperator::I64Add128 | MiscOperator::I64Sub128 => Typing::Fixed(Signature {
            takes: &[
                OperandType::I64,
                OperandType::I64,
                OperandType::I64,
                OperandType::I64,
            ],
            leaves: &[OperandType::I64, OperandType::I64],
        }),
        MiscOperator::I64MulWideS | MiscOperator::I64MulWideU => Typing::Fixed(Signature {
            takes: &[OperandType::I64, OperandType::I64],
            leaves: &[OperandType::I64, OperandType::I64],
        }),
    }
}
