//! Written by tools/lists.py from tools/operators.tsv.
ghost use Rattle.std.specs.Prelude.{◌≡◌};
ghost use Rattle.wasm_signatures.specs.Gc.{gc_typing};
ghost use Rattle.wasm_signatures.specs.Types.{typing_of};

use crate::operand_type::OperandType;
use crate::rule::Rule;
use crate::signature::{Signature, Typing};
use wasm_imm::Proposal;
use wasm_instr_ops::GcOperator;

/// Returns the typing of an operator with the prefix byte 0xfb.
pub fn gc_typing(op: &GcOperator) -> Typing<'static>
    ensures { typing_of result ≡ gc_typing op.now }
{
    match op {
        GcOperator::StructNew { .. }
        | GcOperator::StructNewDefault { .. }
        | GcOperator::StructGet { .. }
        | GcOperator::StructGetS { .. }
        | GcOperator::StructGetU { .. }
        | GcOperator::StructSet { .. } => Typing::ByRule(Rule::Structure),
        GcOperator::ArrayNew { .. }
        | GcOperator::ArrayNewDefault { .. }
        | GcOperator::ArrayNewFixed { .. }
        | GcOperator::ArrayNewData { .. }
        | GcOperator::ArrayNewElem { .. }
        | GcOperator::ArrayGet { .. }
        | GcOperator::ArrayGetS { .. }
        | GcOperator::ArrayGetU { .. }
        | GcOperator::ArraySet { .. }
        | GcOperator::ArrayFill { .. }
        | GcOperator::ArrayCopy { .. }
        | GcOperator::ArrayInitData { .. }
        | GcOperator::ArrayInitElem { .. } => Typing::ByRule(Rule::Array),
        GcOperator::ArrayLen => Typing::Fixed(Signature {
            takes: &[OperandType::ArrayRef],
            leaves: &[OperandType::I32],
        }),
        GcOperator::RefTestNonNull { .. }
        | GcOperator::RefTestNullable { .. }
        | GcOperator::RefCastNonNull { .. }
        | GcOperator::RefCastNullable { .. }
        | GcOperator::AnyConvertExtern
        | GcOperator::ExternConvertAny => Typing::ByRule(Rule::Reference),
        GcOperator::BrOnCast { .. } | GcOperator::BrOnCastFail { .. } => Typing::ByRule(
            Rule::Branch,
        ),
        GcOperator::RefI31 => Typing::Fixed(Signature {
            takes: &[OperandType::I32],
            leaves: &[OperandType::I31],
        }),
        GcOperator::I31GetS | GcOperator::I31GetU => Typing::Fixed(Signature {
            takes: &[OperandType::I31Ref],
            leaves: &[OperandType::I32],
        }),
        GcOperator::StructNewDesc { .. }
        | GcOperator::StructNewDefaultDesc { .. }
        | GcOperator::RefGetDesc { .. }
        | GcOperator::RefCastDescEqNonNull { .. }
        | GcOperator::RefCastDescEqNullable { .. }
        | GcOperator::BrOnCastDescEq { .. }
        | GcOperator::BrOnCastDescEqFail { .. } => Typing::Unsupported(Proposal::CustomDescriptors),
    }
}
