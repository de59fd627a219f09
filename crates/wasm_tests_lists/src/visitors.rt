//! The calls that several visitors receive: directly, through a reference, through a `Box`, and
//! through both. Also the factory's results, a large result, and visits of copies.
mod counter;
mod hand_over;
mod interp;
mod large;
mod printer;
mod reports;

use crate::visitors::counter::Counter;
use crate::visitors::hand_over::{hand_over, table};
use crate::visitors::interp::{Interp, Module};
use crate::visitors::large::Large;
use crate::visitors::printer::Printer;
use crate::visitors::reports::Reports;
use std::alloc::Global;
use std::io::{self, Print};
use wasm_below::ValType;
use wasm_imm::SelectTypes;
use wasm_instr::Operator;
use wasm_visit::{
    OperatorFactory, OperatorMaker, visit_operator, visit_operator_with_simd, visit_owned_simd,
};

pub fn print_visitors<R: Print>(rt: &R, alloc: Global) -> io::Result<()> {
    print_reports(rt, alloc)?;
    print_counter(rt, alloc)?;
    print_printer(rt, alloc)?;
    print_interp(rt, alloc)?;
    print_factory(rt)?;
    let Large { bytes } = visit_owned_simd(&mut OperatorMaker::new(), Operator::Nop);
    println!(rt;
        "large: {} bytes, {} and {}",
        bytes.len(),
        bytes[0],
        bytes[4095]
    )?;
    let (outcome, counter) = visit_list(alloc);
    println!(rt; "an operator with a list: {outcome}, {counter:?}")
}

fn print_reports<R: Print>(rt: &R, alloc: Global) -> io::Result<()> {
    println!(rt; "unit: {:?}", hand_over(&mut Reports, table()))?;
    let mut reports = Reports;
    let mut borrowed = &mut reports;
    println!(rt;
        "unit, by reference: {:?}",
        hand_over(&mut borrowed, table())
    )?;
    let mut boxed = Box::new(alloc, Reports)?;
    println!(rt; "unit, in a box: {:?}", hand_over(&mut boxed, table()))?;
    let mut borrowed = &mut boxed;
    println!(rt; "unit, both: {:?}", hand_over(&mut borrowed, table()))
}

fn print_counter<R: Print>(rt: &R, alloc: Global) -> io::Result<()> {
    let mut counter = Counter::new(alloc);
    hand_over(&mut counter, table());
    println!(rt; "fields: {counter:?}")?;
    let mut counter = Counter::new(alloc);
    let mut borrowed = &mut counter;
    hand_over(&mut borrowed, table());
    println!(rt; "fields, by reference: {counter:?}")?;
    let mut boxed = Box::new(alloc, Counter::new(alloc))?;
    hand_over(&mut boxed, table());
    println!(rt; "fields, in a box: {:?}", *boxed)?;
    let mut borrowed = &mut boxed;
    hand_over(&mut borrowed, table());
    println!(rt; "fields, both: {:?}", *boxed)
}

fn print_printer<R: Print>(rt: &R, alloc: Global) -> io::Result<()> {
    let mut out = String::new(alloc);
    let mut printer = Printer {
        out: &mut out,
        others: 0,
    };
    let outcomes = hand_over(&mut printer, table());
    println!(rt; "reference: {outcomes:?}, {} others", printer.others)?;
    let mut borrowed = &mut printer;
    let outcomes = hand_over(&mut borrowed, table());
    println!(rt;
        "reference, by reference: {outcomes:?}, {} others",
        printer.others
    )?;
    let mut boxed = Box::new(alloc, printer)?;
    let outcomes = hand_over(&mut boxed, table());
    println!(rt;
        "reference, in a box: {outcomes:?}, {} others",
        boxed.others
    )?;
    let mut borrowed = &mut boxed;
    let outcomes = hand_over(&mut borrowed, table());
    println!(rt; "reference, both: {outcomes:?}, {} others", boxed.others)?;
    drop(boxed);
    print!(rt; "{out}")
}

fn print_interp<R: Print>(rt: &R, alloc: Global) -> io::Result<()> {
    let module = Module {
        types: Vec::new(alloc),
        start: 1,
    };
    let mut interp = Interp {
        module: &module,
        known: Vec::new(alloc),
        unknown: 0,
    };
    let outcomes = hand_over(&mut interp, table());
    println!(rt; "parameter: {outcomes:?}, {:?}", interp.known)?;
    let mut borrowed = &mut interp;
    let outcomes = hand_over(&mut borrowed, table());
    println!(rt; "parameter, by reference: {outcomes:?}, {:?}", interp.known)?;
    let mut boxed = Box::new(alloc, interp)?;
    let outcomes = hand_over(&mut boxed, table());
    println!(rt; "parameter, in a box: {outcomes:?}, {:?}", boxed.known)?;
    let mut borrowed = &mut boxed;
    let outcomes = hand_over(&mut borrowed, table());
    println!(rt; "parameter, both: {outcomes:?}, {} unknown", boxed.unknown)
}

fn print_factory<R: Print>(rt: &R) -> io::Result<()> {
    let outcomes = hand_over(&mut OperatorFactory::new(), table());
    println!(rt; "factory: {outcomes:?}")
}

fn visit_list(alloc: Global) -> (&'static str, Counter) {
    let mut counter = Counter::new(alloc);
    let Ok(tys) = Vec::from_array(alloc, [ValType::I32, ValType::I64]) else {
        return ("not made", counter);
    };
    let op = Operator::TypedSelectMulti {
        tys: SelectTypes::from_vec(tys),
    };
    let plain = visit_operator(alloc, &mut counter, &op);
    match visit_operator_with_simd(alloc, &mut counter, &op) {
        Ok(()) if plain.is_ok() => ("visited twice", counter),
        Ok(()) => ("visited once", counter),
        Err(_) => ("refused", counter),
    }
}
