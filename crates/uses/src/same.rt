ghost use Rattle.std.specs.Prelude.{◌≡◌, ◌↔◌, ◌⊎◌, ℕ, List, IsTrue};
ghost use Rattle.wasm_operators.specs.below.Number.{EncodesUnsigned};
ghost use Rattle.wasm_operators.specs.grammar.Tree.{Expression};
ghost use Rattle.wasm_operators.specs.imm.Lists.{EncodesMany};
ghost use Rattle.wasm_operators.specs.instr.declared.operator.Operator.{Operator};
ghost use Rattle.wasm_operators.specs.instr.Kinds.{IsTypedSelect};
ghost use Rattle.wasm_operators.specs.instr.Row.{prefix_of, opcode_of, name_of};
ghost use Rattle.uses.specs.Trees.{IsTreeOf};

use wasm_operators::{
    BlockType, BrTable, MemArg, Operator, ValType, control_laws, grammar_laws, immediate_laws,
    operator_laws, type_laws,
};

/// Returns whether two operators are the same. The law `equality` says that `==` is exact.
pub fn same_operator(a: &Operator<'_>, b: &Operator<'_>) -> bool
    ensures { IsTrue result ↔ (a.now ≡ b.now) }
{
    operator_laws::equality();
    if a == b {
        return true;
    }
    false
}

/// Returns whether two operators have the same opcode or subopcode.
fn have_same_code(a: &Operator<'_>, b: &Operator<'_>) -> bool
    ensures { IsTrue result → opcode_of a.now ≡ opcode_of b.now }
{
    let code = a.info().code;
    let other = b.info().code;
    if code == other {
        return true;
    }
    false
}

/// Returns whether two operators, both after the same prefix byte or none, have the same code. Then
/// they have the same name, or are a `select` with types (law `shared_opcodes`).
pub fn same_code(a: &Operator<'_>, b: &Operator<'_>) -> bool
    requires { prefix_of a.now ≡ prefix_of b.now }
    ensures { IsTrue result → (name_of a.now ≡ name_of b.now) ⊎ (IsTypedSelect a.now × IsTypedSelect b.now) }
{
    operator_laws::shared_opcodes();
    have_same_code(a, b)
}

/// Returns whether two expressions have the same operators. Then they have the same tree (law
/// `one_tree`).
pub fn same_tree(first: &[(Operator<'_>, u64)], second: &[(Operator<'_>, u64)]) -> bool
    ensures { IsTrue result → (tree other : Expression Operator) → IsTreeOf first.now tree → IsTreeOf second.now other
        → tree ≡ other }
{
    grammar_laws::one_tree::<Operator<'_>>();
    if first.len() != second.len() {
        return false;
    }
    for index in 0..first.len() {
        if !same_operator(&first[index].0, &second[index].0) {
            return false;
        }
    }
    true
}

pub fn same_type(a: ValType, b: ValType) -> bool
    ensures { IsTrue result ↔ (a ≡ b) }
{
    type_laws::equality();
    if a == b {
        return true;
    }
    false
}

pub fn same_block_type(a: BlockType, b: BlockType) -> bool
    ensures { IsTrue result ↔ (a ≡ b) }
{
    control_laws::equality();
    if a == b {
        return true;
    }
    false
}

/// Returns whether two branch tables are equal. Then they have the same targets (law
/// `equal_tables`).
pub fn same_branch_table(a: &BrTable<'_>, b: &BrTable<'_>) -> bool
    ensures exact { IsTrue result ↔ (a.now ≡ b.now) }
    ensures targets { IsTrue result → (targets others : List ℕ)
        → EncodesMany (EncodesUnsigned 32) a.now.count a.now.targets targets
        → EncodesMany (EncodesUnsigned 32) b.now.count b.now.targets others → targets ≡ others }
{
    control_laws::equality();
    control_laws::equal_tables();
    if a == b {
        return true;
    }
    false
}

pub fn same_memory_argument(a: &MemArg, b: &MemArg) -> bool
    ensures { IsTrue result ↔ (a.now ≡ b.now) }
{
    immediate_laws::equality();
    if a == b {
        return true;
    }
    false
}
