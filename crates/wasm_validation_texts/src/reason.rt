use std::fmt;
use wasm_below::{AbstractHeapType, HeapType, ValType};
use wasm_check::{CompositeKind, Mismatch, ModuleContext};
use wasm_imm::{BlockType, MemArg, MemArgTarget, Proposal};
use wasm_instr_ops::{GcOperator, MiscOperator};
use wasm_operators::Operator;
use wasm_signatures::memory_argument;
use wasm_typing::{Heap, ValueType};

/// How many locals the function has, and how many labels are around an operator.
#[derive(Clone, Copy)]
pub struct Around {
    pub locals: u64,
    pub labels: u32,
}

/// Why an operator has no type, in wasmparser's words.
#[derive(Clone, Copy)]
pub enum Reason {
    /// The operand that it takes is not on top of the stack.
    Operand(Mismatch),
    /// The reference that it takes is not on top of the stack.
    Reference(Mismatch),
    /// An index, between these texts.
    Index(&'static str, u32, &'static str),
    Text(&'static str),
    /// The type of an element segment, and the element type of its table.
    Elements(ValueType, ValueType),
}

/// Returns the name of an abstract heap type, and the name of nullable references to it.
fn names(ty: AbstractHeapType) -> (&'static str, &'static str) {
    match ty {
        AbstractHeapType::Func => ("func", "funcref"),
        AbstractHeapType::Extern => ("extern", "externref"),
        AbstractHeapType::Any => ("any", "anyref"),
        AbstractHeapType::None => ("none", "nullref"),
        AbstractHeapType::NoExtern => ("noextern", "nullexternref"),
        AbstractHeapType::NoFunc => ("nofunc", "nullfuncref"),
        AbstractHeapType::Eq => ("eq", "eqref"),
        AbstractHeapType::Struct => ("struct", "structref"),
        AbstractHeapType::Array => ("array", "arrayref"),
        AbstractHeapType::I31 => ("i31", "i31ref"),
        AbstractHeapType::Exn => ("exn", "exnref"),
        AbstractHeapType::NoExn => ("noexn", "nullexnref"),
        AbstractHeapType::Cont => ("cont", "contref"),
        AbstractHeapType::NoCont => ("nocont", "nullcontref"),
    }
}

/// A value type as the text format writes it, with `$type` for a type index.
#[derive(Clone, Copy)]
struct Named(ValueType);

impl fmt::Display for Named {
    fn fmt<W: fmt::Write>(&self, f: &mut fmt::Formatter<W>) -> fmt::Result {
        match self.0 {
            ValueType::I32 => f.write_str("i32"),
            ValueType::I64 => f.write_str("i64"),
            ValueType::F32 => f.write_str("f32"),
            ValueType::F64 => f.write_str("f64"),
            ValueType::V128 => f.write_str("v128"),
            ValueType::Bottom => f.write_str("a type"),
            ValueType::Ref { nullable, heap } => match heap {
                Heap::Unknown => f.write_str("heap type"),
                Heap::Known(HeapType::Abstract { ty, .. }) => {
                    let (name, with_null) = names(ty);
                    if nullable {
                        f.write_str(with_null)
                    } else {
                        write!(f, "(ref {name})")
                    }
                }
                Heap::Known(HeapType::Concrete(_)) | Heap::Known(HeapType::Exact(_)) => {
                    f.write_str(if nullable {
                        "(ref null $type)"
                    } else {
                        "(ref $type)"
                    })
                }
            },
        }
    }
}

impl fmt::Display for Reason {
    fn fmt<W: fmt::Write>(&self, f: &mut fmt::Formatter<W>) -> fmt::Result {
        match self {
            Reason::Operand(mismatch) => {
                let expected = Named(mismatch.expected);
                match mismatch.found {
                    Some(found) => {
                        let found = Named(found);
                        write!(f, "type mismatch: expected {expected}, found {found}")
                    }
                    None => write!(f, "type mismatch: expected {expected} but nothing on stack"),
                }
            }
            Reason::Reference(mismatch) => {
                let expected = Named(mismatch.expected);
                match mismatch.found {
                    Some(ValueType::Ref { nullable, heap }) => {
                        let found = Named(ValueType::Ref { nullable, heap });
                        write!(
                            f,
                            "type mismatch: expected subtype of {expected}, found {found}"
                        )
                    }
                    Some(found) => {
                        let found = Named(found);
                        write!(f, "type mismatch: expected ref but found {found}")
                    }
                    None => f.write_str("type mismatch: expected a type but nothing on stack"),
                }
            }
            Reason::Index(before, index, after) => write!(f, "{before}{index}{after}"),
            Reason::Text(text) => f.write_str(text),
            Reason::Elements(found, expected) => {
                let found = Named(*found);
                let expected = Named(*expected);
                write!(
                    f,
                    "type mismatch: invalid element type `{found}` for table type `{expected}`"
                )
            }
        }
    }
}

/// A memory's index, alignment and offset.
fn of_access<M: ModuleContext>(context: &M, memarg: &MemArg, atomic: bool) -> Option<Reason> {
    let MemArgTarget::Memory(index) = memarg.target else {
        return None;
    };
    if atomic && memarg.align != memarg.max_align {
        return Some(Reason::Text("atomic instructions must always specify maximum alignment"));
    }
    if memarg.align > memarg.max_align {
        return Some(Reason::Text(
            "malformed memop alignment: alignment must not be larger than natural",
        ));
    }
    let Some(is_64) = context.memory64(index) else {
        return Some(Reason::Index("unknown memory ", index, ""));
    };
    if !is_64 && memarg.offset > u32::MAX as u64 {
        return Some(Reason::Text("offset out of range: must be <= 2**32"));
    }
    None
}

fn of_local(around: Around, index: u32) -> Reason {
    if (index as u64) < around.locals {
        Reason::Index("uninitialized local: ", index, "")
    } else {
        Reason::Index("unknown local ", index, ": local index out of bounds")
    }
}

fn of_global<M: ModuleContext>(context: &M, index: u32) -> Reason {
    match context.global_type(index) {
        Some(_) => Reason::Text("global is immutable: cannot modify it with `global.set`"),
        None => Reason::Text("unknown global: global index out of bounds"),
    }
}

fn of_function<M: ModuleContext>(context: &M, index: u32) -> Reason {
    match context.function_type(index) {
        Some(_) => Reason::Text("undeclared function reference"),
        None => Reason::Index("unknown function ", index, ": function index out of bounds"),
    }
}

fn of_table<M: ModuleContext>(context: &M, index: u32) -> Option<Reason> {
    match context.table_type(index) {
        Some(_) => None,
        None => Some(Reason::Index("unknown table ", index, ": table index out of bounds")),
    }
}

fn of_memory<M: ModuleContext>(context: &M, index: u32) -> Option<Reason> {
    match context.memory64(index) {
        Some(_) => None,
        None => Some(Reason::Index("unknown memory ", index, "")),
    }
}

fn of_segment<M: ModuleContext>(context: &M, index: u32) -> Option<Reason> {
    match context.element_type(index) {
        Some(_) => None,
        None => Some(Reason::Index(
            "unknown elem segment ",
            index,
            ": segment index out of bounds",
        )),
    }
}

fn of_data<M: ModuleContext>(context: &M, index: u32) -> Option<Reason> {
    if context.has_data(index) {
        None
    } else if context.has_data(0) {
        Some(Reason::Index("unknown data segment ", index, ""))
    } else {
        Some(Reason::Text("data count section required"))
    }
}

const UNKNOWN_TYPE: Reason = Reason::Text("unknown type: type index out of bounds");

/// The expected kind of the type at an index.
fn of_type<M: ModuleContext>(context: &M, index: u32, kind: CompositeKind) -> Option<Reason> {
    let before = match (context.composite_kind(index), kind) {
        (None, _) => return Some(UNKNOWN_TYPE),
        (Some(CompositeKind::Func), CompositeKind::Func)
        | (Some(CompositeKind::Struct), CompositeKind::Struct)
        | (Some(CompositeKind::Array), CompositeKind::Array) => return None,
        (Some(_), CompositeKind::Func) => "expected func type at index ",
        (Some(_), CompositeKind::Struct) => "expected struct type at index ",
        (Some(_), CompositeKind::Array) => "expected array type at index ",
    };
    Some(Reason::Index(before, index, ", found another"))
}

/// A field of a structure type that exists does not allow this access for the reason `denied`.
fn of_field<M: ModuleContext>(context: &M, index: u32, field: u32, denied: &'static str) -> Reason {
    let Some(structure) = context.struct_type(index) else {
        return match of_type(context, index, CompositeKind::Struct) {
            Some(reason) => reason,
            None => UNKNOWN_TYPE,
        };
    };
    match structure.fields.get(field as usize) {
        Some(_) => Reason::Text(denied),
        None => Reason::Text("unknown field: field index out of bounds"),
    }
}

fn of_gc<M: ModuleContext>(context: &M, op: GcOperator) -> Option<Reason> {
    match op {
        GcOperator::StructGet {
            struct_type_index,
            field_index,
        } => Some(of_field(
            context,
            struct_type_index,
            field_index,
            "can only use struct `get` with non-packed storage types",
        )),
        GcOperator::StructGetS {
            struct_type_index,
            field_index,
        } => Some(of_field(
            context,
            struct_type_index,
            field_index,
            "cannot use struct.get_s with non-packed storage types",
        )),
        GcOperator::StructGetU {
            struct_type_index,
            field_index,
        } => Some(of_field(
            context,
            struct_type_index,
            field_index,
            "cannot use struct.get_u with non-packed storage types",
        )),
        GcOperator::StructSet {
            struct_type_index,
            field_index,
        } => Some(of_field(
            context,
            struct_type_index,
            field_index,
            "invalid struct modification: struct field is immutable",
        )),
        GcOperator::StructNew { struct_type_index }
        | GcOperator::StructNewDefault { struct_type_index } => of_type(
            context,
            struct_type_index,
            CompositeKind::Struct,
        ),
        GcOperator::ArrayNew { array_type_index }
        | GcOperator::ArrayNewDefault { array_type_index }
        | GcOperator::ArrayNewFixed {
            array_type_index,
            ..
        }
        | GcOperator::ArrayGet { array_type_index } => of_type(
            context,
            array_type_index,
            CompositeKind::Array,
        ),
        GcOperator::ArrayGetS { array_type_index } => of_read(
            context,
            array_type_index,
            "cannot use array.get_s with non-packed storage types",
        ),
        GcOperator::ArrayGetU { array_type_index } => of_read(
            context,
            array_type_index,
            "cannot use array.get_u with non-packed storage types",
        ),
        GcOperator::ArraySet { array_type_index } | GcOperator::ArrayFill { array_type_index } =>
            of_written(context, array_type_index),
        GcOperator::ArrayCopy {
            array_type_index_dst,
            array_type_index_src,
        } => of_type(context, array_type_index_src, CompositeKind::Array).or(of_written(
            context,
            array_type_index_dst,
        )),
        GcOperator::ArrayNewData {
            array_type_index,
            array_data_index,
        } => of_type(context, array_type_index, CompositeKind::Array).or(of_data(
            context,
            array_data_index,
        )),
        GcOperator::ArrayInitData {
            array_type_index,
            array_data_index,
        } => of_written(context, array_type_index).or(of_data(context, array_data_index)),
        GcOperator::ArrayNewElem {
            array_type_index,
            array_elem_index,
        } => of_type(context, array_type_index, CompositeKind::Array).or(of_segment(
            context,
            array_elem_index,
        )),
        GcOperator::ArrayInitElem {
            array_type_index,
            array_elem_index,
        } => of_written(context, array_type_index).or(of_segment(context, array_elem_index)),
        _ => None,
    }
}

/// An array whose elements do not allow this access for the reason `denied`.
fn of_read<M: ModuleContext>(context: &M, index: u32, denied: &'static str) -> Option<Reason> {
    of_type(context, index, CompositeKind::Array).or(Some(Reason::Text(denied)))
}

/// An array whose elements are written.
fn of_written<M: ModuleContext>(context: &M, index: u32) -> Option<Reason> {
    match context.array_elements(index) {
        Some(elements) if !elements.mutable => Some(Reason::Text(
            "invalid array modification: array is immutable",
        )),
        Some(_) => None,
        None => of_type(context, index, CompositeKind::Array),
    }
}

fn of_misc<M: ModuleContext>(context: &M, op: MiscOperator) -> Option<Reason> {
    match op {
        MiscOperator::MemoryInit { data_index, mem } => {
            of_memory(context, mem).or(of_data(context, data_index))
        }
        MiscOperator::DataDrop { data_index } => of_data(context, data_index),
        MiscOperator::MemoryCopy { dst_mem, src_mem } => {
            of_memory(context, dst_mem).or(of_memory(context, src_mem))
        }
        MiscOperator::MemoryFill { mem } => of_memory(context, mem),
        MiscOperator::TableInit { elem_index, table } => {
            of_table(context, table).or(of_segment(context, elem_index))
        }
        MiscOperator::ElemDrop { elem_index } => of_segment(context, elem_index),
        MiscOperator::TableCopy {
            dst_table,
            src_table,
        } => of_table(context, dst_table).or(of_table(context, src_table)),
        MiscOperator::TableFill { table }
        | MiscOperator::TableGrow { table }
        | MiscOperator::TableSize { table } => of_table(context, table),
        _ => None,
    }
}

fn of_plain<M: ModuleContext>(context: &M, op: &Operator<'_>, around: Around) -> Option<Reason> {
    match op {
        Operator::End | Operator::Else => Some(Reason::Text(
            "type mismatch: values remaining on stack at end of block",
        )),
        Operator::LocalGet { local_index }
        | Operator::LocalSet { local_index }
        | Operator::LocalTee { local_index } => Some(of_local(around, *local_index)),
        Operator::GlobalGet { global_index } | Operator::GlobalSet { global_index } => {
            Some(of_global(context, *global_index))
        }
        Operator::Call { function_index }
        | Operator::ReturnCall { function_index }
        | Operator::RefFunc { function_index } => Some(of_function(context, *function_index)),
        Operator::TableGet { table } | Operator::TableSet { table } => of_table(context, *table),
        Operator::MemorySize { mem } | Operator::MemoryGrow { mem } => of_memory(context, *mem),
        Operator::CallIndirect {
            type_index,
            table_index,
        } => of_table(context, *table_index)
            .or(of_type(context, *type_index, CompositeKind::Func))
            .or(Some(Reason::Text(
                "type mismatch: indirect calls must go through a table with type <= funcref",
            ))),
        Operator::ReturnCallIndirect {
            type_index,
            table_index,
        } => of_table(context, *table_index).or(of_type(context, *type_index, CompositeKind::Func)),
        Operator::Drop => Some(Reason::Text("type mismatch: expected a type but nothing on stack")),
        Operator::RefNull { hty } => of_heap_type(*hty),
        Operator::CallRef { type_index } | Operator::ReturnCallRef { type_index } => {
            of_type(context, *type_index, CompositeKind::Func)
        }
        Operator::Throw { tag_index } => match context.tag_type(*tag_index) {
            Some(_) => None,
            None => Some(Reason::Index("unknown tag ", *tag_index, ": tag index out of bounds")),
        },
        Operator::Block { blockty } | Operator::Loop { blockty } | Operator::If { blockty } => {
            match blockty {
                BlockType::FuncType(index) => of_type(context, *index, CompositeKind::Func),
                _ => None,
            }
        }
        Operator::Select => Some(Reason::Text("type mismatch: select only takes integral types")),
        Operator::Gc(op) => of_gc(context, *op),
        Operator::Misc(op) => of_misc(context, *op),
        Operator::Simd(_) => Some(Reason::Text("SIMD index out of bounds")),
        _ => None,
    }
}

/// A heap type that is not valid.
fn of_heap_type(ty: HeapType) -> Option<Reason> {
    match ty {
        HeapType::Concrete(index) | HeapType::Exact(index) => Some(Reason::Index(
            "unknown type ",
            index,
            ": type index out of bounds",
        )),
        HeapType::Abstract { .. } => None,
    }
}

/// Returns whether an operator takes references to an abstract heap type or its subtypes.
fn takes_reference(op: &Operator<'_>) -> bool {
    matches!(
        op,
        Operator::RefEq
            | Operator::Gc(GcOperator::ArrayLen)
            | Operator::Gc(GcOperator::I31GetS)
            | Operator::Gc(GcOperator::I31GetU)
            | Operator::Gc(GcOperator::ExternConvertAny)
            | Operator::Gc(GcOperator::AnyConvertExtern)
    )
}

/// Returns the label that an operator names, if it is one.
fn label_of(op: &Operator<'_>) -> Option<u32> {
    match op {
        Operator::Br { relative_depth }
        | Operator::BrIf { relative_depth }
        | Operator::BrOnNull { relative_depth }
        | Operator::BrOnNonNull { relative_depth } => Some(*relative_depth),
        Operator::Gc(GcOperator::BrOnCast { relative_depth, .. })
        | Operator::Gc(GcOperator::BrOnCastFail { relative_depth, .. }) => Some(*relative_depth),
        _ => None,
    }
}

/// A proposal whose operators have no type.
fn of_proposal(proposal: Proposal) -> Option<Reason> {
    match proposal {
        Proposal::LegacyExceptions => Some(Reason::Text(
            "legacy exceptions support is not enabled",
        )),
        Proposal::StackSwitching => Some(Reason::Text("stack switching support is not enabled")),
        Proposal::SharedEverythingThreads => Some(Reason::Text(
            "shared-everything-threads support is not enabled",
        )),
        Proposal::CustomDescriptors => Some(Reason::Text(
            "custom descriptors support is not enabled",
        )),
        Proposal::MemoryControl => Some(Reason::Text("memory control support is not enabled")),
        _ => None,
    }
}

/// Returns why an operator has no type after operators that have one. `mismatch` is the operand that
/// it did not find, if that is why.
pub fn reason_of<M: ModuleContext>(
    context: &M,
    op: &Operator<'_>,
    around: Around,
    mismatch: Option<Mismatch>,
) -> Reason {
    if let Some(mismatch) = mismatch {
        if takes_reference(op) {
            return Reason::Reference(mismatch);
        }
        return Reason::Operand(mismatch);
    }
    if let Some(label) = label_of(op) {
        if label >= around.labels {
            return Reason::Text("unknown label: branch depth too large");
        }
    }
    if let Some(memarg) = memory_argument(op) {
        let atomic = matches!(op, Operator::Atomic(_));
        if let Some(reason) = of_access(context, &memarg, atomic) {
            return reason;
        }
    }
    match of_proposal(op.info().proposal).or(of_plain(context, op, around)) {
        Some(reason) => reason,
        None => Reason::Text("type mismatch"),
    }
}

/// Returns why a type of locals is not valid.
pub fn invalid_type(ty: ValType) -> Reason {
    match ty {
        ValType::Ref(ty) => match ty.heap_type() {
            HeapType::Concrete(index) | HeapType::Exact(index) => Reason::Index(
                "unknown type ",
                index,
                ": type index out of bounds",
            ),
            HeapType::Abstract { .. } => {
                Reason::Text(
                    "shared reference types require the shared-everything-threads proposal",
                )
            }
        },
        ValType::I32 | ValType::I64 | ValType::F32 | ValType::F64 | ValType::V128 => UNKNOWN_TYPE,
    }
}
