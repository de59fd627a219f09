use crate::proposal::Proposal;

/// The row of an operator in the table of all operators.
#[derive(Clone, Copy, Debug, PartialEq, Eq)]
pub struct OperatorInfo {
    pub proposal: Proposal,
    /// The name of the operator's variant.
    pub name: &'static str,
    pub prefix: Option<u8>,
    /// The opcode, or the subopcode after a prefix byte.
    pub code: u32,
}
