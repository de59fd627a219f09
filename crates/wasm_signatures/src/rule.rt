//! Written by tools/lists.py from tools/operators.tsv.

/// The rules of operators whose types depend on the module, the function or the stack.
#[derive(Clone, Copy, Debug, PartialEq, Eq)]
pub enum Rule {
    /// For `unreachable`, `drop` and `select`.
    Parametric,
    /// For operators that open, turn or close a construct.
    Construct,
    /// For branches and `return`.
    Branch,
    /// For calls and tail calls.
    Call,
    /// For `throw` and `throw_ref`.
    Throw,
    /// For accesses to a local.
    Local,
    /// For accesses to a global.
    Global,
    /// For operators with a table or an element segment.
    Table,
    /// For operators with a data segment or two memories.
    Memory,
    /// For operators with references of any heap type.
    Reference,
    /// For operators with structures.
    Structure,
    /// For operators with an array type.
    Array,
}
