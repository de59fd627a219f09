//! Written by tools/lists.py from tools/operators.tsv.
ghost use Rattle.std.specs.Prelude.{◌≡◌};
ghost use Rattle.wasm_signatures.specs.Own.{operator_typing};
ghost use Rattle.wasm_signatures.specs.Types.{typing_of};

use crate::atomic::atomic_typing;
use crate::gc::gc_typing;
use crate::misc::misc_typing;
use crate::numeric::numeric_signature;
use crate::operand_type::OperandType;
use crate::rule::Rule;
use crate::signature::{Signature, Typing};
use crate::simd::simd_signature;
use wasm_imm::Proposal;
use wasm_instr::Operator;

/// Returns the typing of any operator.
pub fn operator_typing(op: &Operator<'_>) -> Typing<'static>
    ensures { typing_of result ≡ operator_typing op.now }
{
    match op {
        Operator::Unreachable
        | Operator::Drop
        | Operator::Select
        | Operator::TypedSelect { .. }
        | Operator::TypedSelectMulti { .. } => Typing::ByRule(Rule::Parametric),
        Operator::Nop => Typing::Fixed(Signature {
            takes: &[],
            leaves: &[],
        }),
        Operator::Block { .. }
        | Operator::Loop { .. }
        | Operator::If { .. }
        | Operator::Else
        | Operator::End
        | Operator::TryTable { .. } => Typing::ByRule(Rule::Construct),
        Operator::Br { .. }
        | Operator::BrIf { .. }
        | Operator::BrTable { .. }
        | Operator::Return
        | Operator::BrOnNull { .. }
        | Operator::BrOnNonNull { .. } => Typing::ByRule(Rule::Branch),
        Operator::Call { .. }
        | Operator::CallIndirect { .. }
        | Operator::ReturnCall { .. }
        | Operator::ReturnCallIndirect { .. }
        | Operator::CallRef { .. }
        | Operator::ReturnCallRef { .. } => Typing::ByRule(Rule::Call),
        Operator::LocalGet { .. } | Operator::LocalSet { .. } | Operator::LocalTee { .. } =>
            Typing::ByRule(Rule::Local),
        Operator::GlobalGet { .. } | Operator::GlobalSet { .. } => Typing::ByRule(Rule::Global),
        Operator::I32Load { .. }
        | Operator::I32Load8S { .. }
        | Operator::I32Load8U { .. }
        | Operator::I32Load16S { .. }
        | Operator::I32Load16U { .. } => Typing::Fixed(Signature {
            takes: &[OperandType::Address],
            leaves: &[OperandType::I32],
        }),
        Operator::I64Load { .. }
        | Operator::I64Load8S { .. }
        | Operator::I64Load8U { .. }
        | Operator::I64Load16S { .. }
        | Operator::I64Load16U { .. }
        | Operator::I64Load32S { .. }
        | Operator::I64Load32U { .. } => Typing::Fixed(Signature {
            takes: &[OperandType::Address],
            leaves: &[OperandType::I64],
        }),
        Operator::F32Load { .. } => Typing::Fixed(Signature {
            takes: &[OperandType::Address],
            leaves: &[OperandType::F32],
        }),
        Operator::F64Load { .. } => Typing::Fixed(Signature {
            takes: &[OperandType::Address],
            leaves: &[OperandType::F64],
        }),
        Operator::I32Store { .. } | Operator::I32Store8 { .. } | Operator::I32Store16 { .. } =>
            Typing::Fixed(Signature {
                takes: &[OperandType::Address, OperandType::I32],
                leaves: &[],
            }),
        Operator::I64Store { .. }
        | Operator::I64Store8 { .. }
        | Operator::I64Store16 { .. }
        | Operator::I64Store32 { .. } => Typing::Fixed(Signature {
            takes: &[OperandType::Address, OperandType::I64],
            leaves: &[],
        }),
        Operator::F32Store { .. } => Typing::Fixed(Signature {
            takes: &[OperandType::Address, OperandType::F32],
            leaves: &[],
        }),
        Operator::F64Store { .. } => Typing::Fixed(Signature {
            takes: &[OperandType::Address, OperandType::F64],
            leaves: &[],
        }),
        Operator::MemorySize { .. } => Typing::Fixed(Signature {
            takes: &[],
            leaves: &[OperandType::Address],
        }),
        Operator::MemoryGrow { .. } => Typing::Fixed(Signature {
            takes: &[OperandType::Address],
            leaves: &[OperandType::Address],
        }),
        Operator::I32Const { .. } => Typing::Fixed(Signature {
            takes: &[],
            leaves: &[OperandType::I32],
        }),
        Operator::I64Const { .. } => Typing::Fixed(Signature {
            takes: &[],
            leaves: &[OperandType::I64],
        }),
        Operator::F32Const { .. } => Typing::Fixed(Signature {
            takes: &[],
            leaves: &[OperandType::F32],
        }),
        Operator::F64Const { .. } => Typing::Fixed(Signature {
            takes: &[],
            leaves: &[OperandType::F64],
        }),
        Operator::RefEq => Typing::Fixed(Signature {
            takes: &[OperandType::EqRef, OperandType::EqRef],
            leaves: &[OperandType::I32],
        }),
        Operator::RefNull { .. }
        | Operator::RefIsNull
        | Operator::RefFunc { .. }
        | Operator::RefAsNonNull => Typing::ByRule(Rule::Reference),
        Operator::TableGet { .. } | Operator::TableSet { .. } => Typing::ByRule(Rule::Table),
        Operator::Throw { .. } | Operator::ThrowRef => Typing::ByRule(Rule::Throw),
        Operator::Try { .. }
        | Operator::Catch { .. }
        | Operator::Rethrow { .. }
        | Operator::Delegate { .. }
        | Operator::CatchAll => Typing::Unsupported(Proposal::LegacyExceptions),
        Operator::ContNew { .. }
        | Operator::ContBind { .. }
        | Operator::Suspend { .. }
        | Operator::Resume { .. }
        | Operator::ResumeThrow { .. }
        | Operator::ResumeThrowRef { .. }
        | Operator::Switch { .. } => Typing::Unsupported(Proposal::StackSwitching),
        Operator::Numeric(op) => Typing::Fixed(numeric_signature(*op)),
        Operator::Gc(op) => gc_typing(op),
        Operator::Misc(op) => misc_typing(op),
        Operator::Simd(op) => Typing::Fixed(simd_signature(op)),
        Operator::Atomic(op) => atomic_typing(op),
    }
}
