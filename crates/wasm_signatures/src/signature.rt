use crate::operand_type::OperandType;
use crate::rule::Rule;
use wasm_imm::Proposal;

/// The operands that an operator takes, and the results that it leaves. The last is on top of the
/// stack.
#[derive(Clone, Copy, Debug, PartialEq, Eq)]
pub struct Signature<'s> {
    pub takes: &'s [OperandType],
    pub leaves: &'s [OperandType],
}

/// How an operator is typed.
#[derive(Clone, Copy, Debug, PartialEq, Eq)]
pub enum Typing<'s> {
    /// The operator determines the types.
    Fixed(Signature<'s>),
    /// The module, the function or the stack determine the types, by this rule.
    ByRule(Rule),
    /// The operator belongs to this proposal, which has no typing rules here.
    Unsupported(Proposal),
}
