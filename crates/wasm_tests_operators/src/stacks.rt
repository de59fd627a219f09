use crate::prints::Prints;
use crate::reported::is_memory;
use std::alloc::Global;
use std::io::{self, Print};
use wasm_operators::{
    BinaryReader, ControlStack, FrameKind, FrameStack, OperatorsReader, OperatorsReaderAllocations,
    Result,
};

/// Three nested blocks that are not closed.
static OPEN: [u8; 6] = [0x02, 0x40, 0x03, 0x40, 0x02, 0x40];

/// Three nested frames, and the `end` of each.
static CLOSED: [u8; 10] = [0x02, 0x40, 0x03, 0x40, 0x04, 0x40, 0x0b, 0x0b, 0x0b, 0x0b];

pub fn print_stacks<R: Print>(rt: &R, alloc: Global) -> io::Result<()> {
    print_stack(rt, alloc)?;
    print_handed_on(rt, alloc)?;
    print_reserved(rt, alloc)?;
    print_rests(rt, alloc)
}

/// Pushes, pops and reserves frames. A failed allocation changes nothing, and the repeated call
/// succeeds. The first frame does not allocate.
fn print_stack<R: Print>(rt: &R, alloc: Global) -> io::Result<()> {
    let mut stack = ControlStack::new(alloc);
    let first = stack.push(FrameKind::Block);
    let second = push_with_memory(&mut stack, FrameKind::If);
    print!(rt; "a stack: {first:?}, {second:?}, last {:?}", stack.last())?;
    match clone_with_memory(&stack) {
        Ok(mut copy) => print!(rt; ", of a clone {:?} {:?}", copy.pop(), copy.pop())?,
        Err(e) => print!(rt; ", {e:?}")?,
    }
    print!(rt; ", pop {:?}, last {:?}", stack.pop(), stack.last())?;
    let mut room = stack.reserve(2);
    if let Err(e) = room
        && is_memory(e)
        && e.offset() == 0
    {
        room = stack.reserve(2);
    }
    print!(rt; ", reserve {room:?}")?;
    print!(rt; " {:?}", stack.push(FrameKind::Loop))?;
    print!(rt; " {:?}", stack.push(FrameKind::TryTable))?;
    stack.clear();
    println!(rt; ", is empty {}, pop {:?}", stack.is_empty(), stack.pop())
}

fn push_with_memory(stack: &mut ControlStack, kind: FrameKind) -> Result<()> {
    let before = stack.last();
    match stack.push(kind) {
        Err(e) if is_memory(e) && e.offset() == 0 && stack.last() == before => stack.push(kind),
        outcome => outcome,
    }
}

fn clone_with_memory(stack: &ControlStack) -> Result<ControlStack> {
    match stack.clone() {
        Err(e) if is_memory(e) && e.offset() == 0 => stack.clone(),
        outcome => outcome,
    }
}

/// Reuses the allocations of a reader with four open frames for a reader with one.
fn print_handed_on<R: Print>(rt: &R, alloc: Global) -> io::Result<()> {
    let mut operators = OperatorsReader::new(alloc, BinaryReader::new(&OPEN, 0));
    let mut out = Vec::new(alloc);
    for _ in 0..2 {
        let _ = operators.read_all(&mut out);
    }
    print!(rt;
        "handed on: {} read, in {:?}",
        out.len(),
        operators.current_frame()
    )?;
    let allocations = operators.into_allocations();
    let reader = BinaryReader::new(&CLOSED, 9);
    let mut operators = OperatorsReader::new_with_allocs(alloc, reader, allocations);
    println!(rt; ", then in {:?}", operators.current_frame())
}

fn print_reserved<R: Print>(rt: &R, alloc: Global) -> io::Result<()> {
    let mut allocations = OperatorsReaderAllocations::new(alloc);
    let mut room = allocations.reserve(4);
    if let Err(e) = room
        && is_memory(e)
        && e.offset() == 0
    {
        room = allocations.reserve(4);
    }
    print!(rt; "reserved: {room:?}")?;
    let reader = BinaryReader::new(&CLOSED, 0);
    let mut operators = OperatorsReader::new_with_allocs(alloc, reader, allocations);
    let mut prints = Prints::new();
    let outcome = operators.visit_all_simd(&mut prints);
    println!(rt; ", {} visits, {outcome:?}", prints.operators)
}

fn print_rests<R: Print>(rt: &R, alloc: Global) -> io::Result<()> {
    for rest in [&CLOSED[9..], &CLOSED[8..], &CLOSED[10..]] {
        let operators = OperatorsReader::new(alloc, BinaryReader::new(rest, 0));
        println!(rt;
            "a rest of {}: end then eof {}, eof {}",
            rest.len(),
            operators.is_end_then_eof(),
            operators.eof()
        )?;
    }
    Ok(())
}
