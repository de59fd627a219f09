use bitflags::Flags;
use std::alloc::Global;
use std::io::{self, Print};
use wasm_operators::{
    BinaryReader, ControlStack, Error, FunctionBody, Message, NumberName, Operator, SimdOperator,
    WasmFeatures,
};

/// A body with two locals of one type.
static BODY: [u8; 4] = [0x01, 0x02, 0x7f, 0x0b];

pub fn print_texts<R: Print>(rt: &R, alloc: Global) -> io::Result<()> {
    print_errors(rt)?;
    println!(rt; "a row: {:?}", Operator::Nop.info())?;
    let swizzle = Operator::Simd(SimdOperator::I8x16Swizzle);
    println!(rt; "a row behind a prefix: {:?}", swizzle.info())?;
    println!(rt; "no frame: {:?}", ControlStack::new(alloc))?;
    print_body(rt)
}

fn print_errors<R: Print>(rt: &R) -> io::Result<()> {
    let messages = [
        Message::EndOfData,
        Message::OutOfMemory,
        Message::IntegerTooLong(NumberName::VarU32),
        Message::InvalidOrdering { byte: 2, hex: true },
    ];
    for message in messages {
        let error = Error::new(message, 7);
        println!(rt; "an error: {error:?} of kind {:?}", error.kind())?;
    }
    Ok(())
}

fn print_body<R: Print>(rt: &R) -> io::Result<()> {
    let body = FunctionBody::new(BinaryReader::new_features(&BODY, 5, WasmFeatures::empty()));
    println!(rt; "a body: {body:?}")?;
    let Ok(locals) = body.get_locals_reader() else {
        return println!(rt; "no locals");
    };
    println!(rt; "its locals: {locals:?}")?;
    println!(rt; "one after another: {:?}", locals.into_iter())
}
