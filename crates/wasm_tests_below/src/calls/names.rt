use super::Call;
use super::immediates::Immediate;
use super::lists::List;
use super::numbers::Number;
use super::types::Type;
use super::views::View;
use wasm_imm::MemArgKind;

const CALLS: [(&str, Call); 51] = [
    ("read_u8", Call::Number(Number::U8)),
    ("read_u32", Call::Number(Number::U32)),
    ("read_u64", Call::Number(Number::U64)),
    ("read_var_u32", Call::Number(Number::VarU32)),
    ("read_var_u64", Call::Number(Number::VarU64)),
    ("read_var_i32", Call::Number(Number::VarI32)),
    ("read_var_s33", Call::Number(Number::VarS33)),
    ("read_var_i64", Call::Number(Number::VarI64)),
    ("read_f32", Call::Number(Number::F32)),
    ("read_f64", Call::Number(Number::F64)),
    ("read_bytes", Call::Number(Number::Bytes)),
    ("read_size", Call::Number(Number::Size)),
    ("range", Call::View(View::Range)),
    ("remaining_range", Call::View(View::RemainingRange)),
    ("remaining_buffer", Call::View(View::RemainingBuffer)),
    ("is_end_then_eof", Call::View(View::IsEndThenEof)),
    ("eof", Call::View(View::Eof)),
    ("peek", Call::View(View::Peek)),
    ("read_reader", Call::View(View::Reader)),
    ("ValType::read", Call::Type(Type::Value)),
    ("RefType::read", Call::Type(Type::Reference)),
    ("HeapType::read", Call::Type(Type::Heap)),
    ("BlockType::read", Call::Type(Type::Block)),
    ("read::<u32>", Call::Type(Type::NumberByType)),
    ("read::<ValType>", Call::Type(Type::ValueByType)),
    ("read::<RefType>", Call::Type(Type::ReferenceByType)),
    ("read::<HeapType>", Call::Type(Type::HeapByType)),
    (
        "MemArg::read:Plain",
        Call::Immediate(Immediate::MemArg(MemArgKind::Plain)),
    ),
    (
        "MemArg::read:Op",
        Call::Immediate(Immediate::MemArg(MemArgKind::Op)),
    ),
    (
        "MemArg::read:Rmw",
        Call::Immediate(Immediate::MemArg(MemArgKind::Rmw)),
    ),
    ("Catch::read", Call::Immediate(Immediate::Catch)),
    ("Handle::read", Call::Immediate(Immediate::Handle)),
    ("Cast::read", Call::Immediate(Immediate::Cast)),
    ("V128::read", Call::Immediate(Immediate::V128)),
    ("read_lane", Call::Immediate(Immediate::Lane)),
    ("read_lanes", Call::Immediate(Immediate::Lanes)),
    ("read_memory_index", Call::Immediate(Immediate::MemoryIndex)),
    ("read_table_index", Call::Immediate(Immediate::TableIndex)),
    ("Ordering::read", Call::Immediate(Immediate::Ordering)),
    ("Ordering::read_fence", Call::Immediate(Immediate::Fence)),
    ("BrTable::read", Call::List(List::BrTable)),
    ("Select::read", Call::List(List::Select)),
    ("TryTable::from_reader", Call::List(List::TryTable)),
    ("ResumeTable::from_reader", Call::List(List::ResumeTable)),
    ("read::<TryTable>", Call::List(List::TryTableByType)),
    ("read::<ResumeTable>", Call::List(List::ResumeTableByType)),
    ("read_iter", Call::List(List::Items)),
    ("drop_iter", Call::List(List::DroppedItems)),
    ("memory:TryTable", Call::List(List::TryTableAgain)),
    ("memory:ResumeTable", Call::List(List::ResumeTableAgain)),
    ("memory:Select", Call::List(List::SelectAgain)),
];

pub fn call_of(name: &str) -> Option<Call> {
    for (named, call) in CALLS {
        if named == name {
            return Some(call);
        }
    }
    None
}
