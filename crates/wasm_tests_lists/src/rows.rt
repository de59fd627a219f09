use crate::module::Module;
use crate::uniform::Uniform;
use std::io::{self, Print};
use wasm_imm::{BlockType, MemArg, MemArgTarget};
use wasm_instr::{ModuleArity, Operator};
use wasm_instr_ops::{AtomicOperator, GcOperator};
use wasm_instr_simd::SimdOperator;

/// Prints arities in edge cases: queries without a result, numbers out of range, and targets that
/// are arrays.
pub fn print_rows<R: Print>(rt: &R) -> io::Result<()> {
    print_elsewhere(rt)?;
    print_unanswered(rt)?;
    print_large(rt)?;
    print_small(rt)?;
    print_arrays(rt)
}

fn print<R: Print, M: ModuleArity>(
    rt: &R,
    what: &str,
    module: &M,
    op: &Operator<'_>,
) -> io::Result<()> {
    println!(rt; "{what}: {:?}", op.operator_arity(module))
}

fn print_elsewhere<R: Print>(rt: &R) -> io::Result<()> {
    let branch = Operator::BrIf { relative_depth: 1 };
    print(rt, "branch to an empty block", &Module, &branch)?;
    let branch = Operator::BrOnNonNull { relative_depth: 1 };
    print(rt, "branch that carries nothing", &Module, &branch)?;
    let call = Operator::Call { function_index: 1 };
    print(rt, "another function", &Module, &call)
}

fn print_unanswered<R: Print>(rt: &R) -> io::Result<()> {
    let mut module = Uniform::new();
    module.function = None;
    print(
        rt,
        "no function type",
        &module,
        &Operator::CallRef { type_index: 0 },
    )?;
    let mut module = Uniform::new();
    module.fields = None;
    let new = Operator::from(GcOperator::StructNew {
        struct_type_index: 0,
    });
    print(rt, "no structure type", &module, &new)?;
    let mut module = Uniform::new();
    module.continuation = None;
    print(rt, "no continuation type", &module, &switch())?;
    let mut module = Uniform::new();
    module.last = None;
    print(rt, "no type of the last parameter", &module, &switch())?;
    let mut module = Uniform::new();
    module.tag = None;
    print(rt, "no tag", &module, &Operator::Throw { tag_index: 0 })?;
    let mut module = Uniform::new();
    module.type_of_function = None;
    print(
        rt,
        "no function",
        &module,
        &Operator::Call { function_index: 0 },
    )?;
    let mut module = Uniform::new();
    module.height = 0;
    print(rt, "no frame", &module, &Operator::Return)?;
    let mut module = Uniform::new();
    module.label = None;
    print(rt, "no label", &module, &Operator::End)
}

fn switch() -> Operator<'static> {
    Operator::Switch {
        cont_type_index: 0,
        tag_index: 0,
    }
}

fn print_large<R: Print>(rt: &R) -> io::Result<()> {
    let mut module = Uniform::new();
    module.function = Some((4294967295, 1));
    let block = Operator::Block {
        blockty: BlockType::FuncType(0),
    };
    let condition = Operator::If {
        blockty: BlockType::FuncType(0),
    };
    print(rt, "large block", &module, &block)?;
    print(rt, "large if", &module, &condition)?;
    print(
        rt,
        "large call",
        &module,
        &Operator::CallRef { type_index: 0 },
    )?;
    print(
        rt,
        "large branch",
        &module,
        &Operator::Br { relative_depth: 0 },
    )?;
    print(
        rt,
        "large branch on null",
        &module,
        &Operator::BrOnNull { relative_depth: 0 },
    )
}

fn print_small<R: Print>(rt: &R) -> io::Result<()> {
    let bound = Operator::ContBind {
        argument_index: 3,
        result_index: 2,
    };
    println!(rt;
        "more parameters behind: {:?}",
        bound.operator_arity(&Module)
    )?;
    let branch = Operator::BrOnNonNull { relative_depth: 1 };
    println!(rt; "nothing carried: {:?}", branch.operator_arity(&Module))
}

fn print_arrays<R: Print>(rt: &R) -> io::Result<()> {
    let module = Uniform::new();
    let memarg = MemArg {
        align: 0,
        max_align: 0,
        offset: 0,
        target: MemArgTarget::Array(0),
        ordering: None,
    };
    print(
        rt,
        "load of an array",
        &module,
        &Operator::I32Load8S { memarg },
    )?;
    print(
        rt,
        "store to an array",
        &module,
        &Operator::I32Store8 { memarg },
    )?;
    let lane = Operator::from(SimdOperator::V128Load8Lane { memarg, lane: 0 });
    print(rt, "load of a lane", &module, &lane)?;
    let atomic = Operator::from(AtomicOperator::I32AtomicLoad8U { memarg });
    print(rt, "atomic load", &module, &atomic)
}
