ghost use Rattle.std.specs.Prelude.{IfOk};
ghost use Rattle.wasm_operators.specs.Body.{EncodesBody};
ghost use Rattle.wasm_operators.specs.Locals.{IsPastLocals};
ghost use Rattle.uses.specs.Input.{input};

use std::alloc::Global;
use wasm_operators::{
    BinaryReader, Error, FunctionBody, Message, Operator, Result, ValType, WasmFeatures, body_laws,
};

#[derive(Drop)]
pub struct Body<'a> {
    pub locals: Vec<(u32, ValType)>,
    pub operators: Vec<(Operator<'a>, u64)>,
}

/// Reads the locals of a body, and returns a reader of the bytes after them (law
/// `steps_of_locals`).
pub fn read_locals<'a>(
    alloc: Global,
    body: &FunctionBody<'a>,
) -> Result<(Vec<(u32, ValType)>, BinaryReader<'a>)>
    ensures { IfOk result (λ read. IsPastLocals read.0.items body.now read.1) }
{
    body_laws::steps_of_locals();
    let mut items = body.get_locals_reader()?.into_iter();
    let mut locals = Vec::new(alloc);
    'declarations: while let Some(item) = items.next() {
        let declaration = item?;
        if locals.push(declaration).is_err() {
            return Err(Error::new(Message::OutOfMemory, 0));
        }
    }
    Ok((locals, items.into_binary_reader_for_operators()))
}

/// Reads the one body that the bytes encode.
///
/// By the law `steps_of_locals`, each step of the iterator adds a declaration; by the clause `tree`
/// of `read_all`, the rest is the expression. The law `past_locals` joins both.
pub fn read_body<'a>(alloc: Global, features: WasmFeatures, bytes: &'a [u8]) -> Result<Body<'a>>
    ensures { IfOk result (λ body. EncodesBody (input features bytes.now) body.locals.items body.operators.items) }
{
    body_laws::steps_of_locals();
    body_laws::past_locals();
    let body = FunctionBody::new(BinaryReader::new_features(bytes, 0, features));
    let mut items = body.get_locals_reader()?.into_iter();
    let mut locals = Vec::new(alloc);
    'declarations: while let Some(item) = items.next() {
        let declaration = item?;
        if locals.push(declaration).is_err() {
            return Err(Error::new(Message::OutOfMemory, 0));
        }
    }
    let mut operators = Vec::new(alloc);
    items.into_operators_reader(alloc).read_all(&mut operators)?;
    Ok(Body { locals, operators })
}
