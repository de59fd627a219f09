//! The operators of WebAssembly expressions, bodies and constant expressions, read or visited from
//! borrowed bytes. Callers list only this crate.
//!
//! The contract of [`OperatorsReader::read_all`] is the main theorem. A new reader returns `Ok` if
//! and only if the bytes encode an expression, and then the walk of its one tree.
//!
//! Every call that allocates may fail with `OutOfMemory`. A call for one operator or item then
//! consumes nothing; a call that reads to the end keeps what it read before.
#![tactic(auto)]

mod begin;
pub mod body_laws;
mod code;
mod collector;
mod constant;
pub mod constant_laws;
mod declarations;
pub mod decoding_laws;
pub mod expression_laws;
mod iterators;
mod locals;
mod next;
mod operators;
mod passing;
pub mod position_laws;
mod read_operators;
pub mod reading_laws;
mod reserve;
pub mod run_laws;
mod section;
mod stack;

pub use code::FunctionBody;
pub use constant::ConstExpr;
pub use iterators::OperatorsIterator;
pub use iterators::OperatorsIteratorWithOffsets;
pub use locals::LocalsIterator;
pub use locals::LocalsReader;
pub use operators::OperatorsReader;
pub use read_operators::ReadOperators;
pub use read_operators::ReadSimdVisits;
pub use read_operators::ReadVisits;
pub use section::SectionLimited;
pub use section::SectionLimitedIntoIter;
pub use stack::ControlStack;
pub use stack::OperatorsReaderAllocations;
pub use wasm_below::AbstractHeapType;
pub use wasm_below::BinaryReader;
pub use wasm_below::BinaryReaderError;
pub use wasm_below::BinaryReaderIter;
pub use wasm_below::Error;
pub use wasm_below::ErrorKind;
pub use wasm_below::FrameName;
pub use wasm_below::FromReader;
pub use wasm_below::HeapType;
pub use wasm_below::InstructionName;
pub use wasm_below::LeadingByteName;
pub use wasm_below::Malformed;
pub use wasm_below::May;
pub use wasm_below::MemoryUse;
pub use wasm_below::Message;
pub use wasm_below::Never;
pub use wasm_below::NumberName;
pub use wasm_below::RefType;
pub use wasm_below::Result;
pub use wasm_below::SizeName;
pub use wasm_below::TakesMemory;
pub use wasm_below::TypeName;
pub use wasm_below::UsesMemory;
pub use wasm_below::ValType;
pub use wasm_below::WasmFeatures;
pub use wasm_below::byte_laws;
pub use wasm_below::type_laws;
pub use wasm_decode::laws as decoder_laws;
pub use wasm_grammar::FrameChange;
pub use wasm_grammar::FrameKind;
pub use wasm_grammar::laws as grammar_laws;
pub use wasm_imm::BlockType;
pub use wasm_imm::BrTable;
pub use wasm_imm::BrTableTargets;
pub use wasm_imm::Cast;
pub use wasm_imm::Catch;
pub use wasm_imm::Catches;
pub use wasm_imm::Handle;
pub use wasm_imm::Handles;
pub use wasm_imm::Ieee32;
pub use wasm_imm::Ieee64;
pub use wasm_imm::MemArg;
pub use wasm_imm::MemArgKind;
pub use wasm_imm::MemArgOrdering;
pub use wasm_imm::MemArgTarget;
pub use wasm_imm::Members;
pub use wasm_imm::OperatorInfo;
pub use wasm_imm::Ordering;
pub use wasm_imm::Proposal;
pub use wasm_imm::ReadImmediates;
pub use wasm_imm::ResumeTable;
pub use wasm_imm::Select;
pub use wasm_imm::SelectTypes;
pub use wasm_imm::TryTable;
pub use wasm_imm::V128;
pub use wasm_imm::constant_laws as number_laws;
pub use wasm_imm::control_laws;
pub use wasm_imm::immediate_laws;
pub use wasm_imm::memory_laws;
pub use wasm_instr::FrameStack;
pub use wasm_instr::ModuleArity;
pub use wasm_instr::Operator;
pub use wasm_instr::laws as operator_laws;
pub use wasm_instr_ops::AtomicOperator;
pub use wasm_instr_ops::GcOperator;
pub use wasm_instr_ops::MiscOperator;
pub use wasm_instr_ops::NumericOperator;
pub use wasm_instr_simd::SimdOperator;
pub use wasm_visit::CallAtomic;
pub use wasm_visit::CallGc;
pub use wasm_visit::CallMisc;
pub use wasm_visit::CallNumeric;
pub use wasm_visit::CallOneByte;
pub use wasm_visit::CallSimdHigh;
pub use wasm_visit::CallSimdLow;
pub use wasm_visit::GroupAtomic;
pub use wasm_visit::GroupGc;
pub use wasm_visit::GroupMisc;
pub use wasm_visit::GroupNumeric;
pub use wasm_visit::GroupOneByte;
pub use wasm_visit::GroupSimdHigh;
pub use wasm_visit::GroupSimdLow;
pub use wasm_visit::HoldOperator;
pub use wasm_visit::HoldTable;
pub use wasm_visit::IsEndOperatorVisitor;
pub use wasm_visit::OperatorFactory;
pub use wasm_visit::OperatorMaker;
pub use wasm_visit::VisitOperator;
pub use wasm_visit::dispatch;
pub use wasm_visit::visit_operator;
pub use wasm_visit::visit_operator_with_simd;
pub use wasm_visit::visit_owned;
pub use wasm_visit::visit_owned_simd;
pub use wasm_visit_groups::ByAny;
pub use wasm_visit_groups::OnceAtomic;
pub use wasm_visit_groups::OnceGc;
pub use wasm_visit_groups::OnceMisc;
pub use wasm_visit_groups::OnceNumeric;
pub use wasm_visit_groups::OnceOneByte;
pub use wasm_visit_groups::OnceSimdHigh;
pub use wasm_visit_groups::OnceSimdLow;
pub use wasm_visit_groups::OwnAtomic;
pub use wasm_visit_groups::OwnGc;
pub use wasm_visit_groups::OwnMisc;
pub use wasm_visit_groups::OwnNumeric;
pub use wasm_visit_groups::OwnOneByte;
pub use wasm_visit_groups::OwnSimdHigh;
pub use wasm_visit_groups::OwnSimdLow;
pub use wasm_visit_groups::Routes;
pub use wasm_visit_groups::VisitAtomic;
pub use wasm_visit_groups::VisitGc;
pub use wasm_visit_groups::VisitMisc;
pub use wasm_visit_groups::VisitNumeric;
pub use wasm_visit_groups::VisitOneByte;
pub use wasm_visit_groups::VisitSimdHigh;
pub use wasm_visit_groups::VisitSimdLow;
pub use wasm_visit_groups::Visitor;

/// The code section: function bodies (Binary Format, Modules, Code Section).
pub type CodeSectionReader<'a> = SectionLimited<'a, FunctionBody<'a>>;

/// The decoders of the groups, for a visitor that overrides visits.
pub mod decode {
    pub use wasm_decode_groups::{
        atomic, below_0x20, gc, has_no_immediates, misc, numeric, one_byte, simd_high,
        simd_high_without_immediates, simd_low, simd_low_without_immediates,
    };
}
