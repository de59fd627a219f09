ghost use Rattle.std.specs.Prelude.{◌≡◌, ◌≢◌, [], OnOk, IfOk, IfErr};
ghost use Rattle.wasm_below.specs.declared.message.Message.{Message};
ghost use Rattle.wasm_below.specs.Source.{rest};
ghost use Rattle.wasm_operators.specs.Locals.{IsPastLocals};
ghost use Rattle.wasm_compaction.specs.Compaction.{CompactsFunction};
ghost use Rattle.wasm_compaction.specs.Faults.{RefusesBody, RefusesDeclarations};

use std::alloc::Global;
use wasm_encode::write_shortened_body;
use wasm_operators::{
    BinaryReader, Error, FunctionBody, Message, OperatorsReader, Result, ValType, body_laws,
};

/// Writes a body with the shortest encodings into an empty vector: at most as many bytes.
///
/// Fails like `LocalsReader::read`, then like `OperatorsReader::read_all`.
pub fn compact_body(alloc: Global, body: BinaryReader<'_>, out: &mut Vec<u8>) -> Result<()>
    requires { out.old.items ≡ [] }
    ensures compacts { OnOk result (CompactsFunction body.entry.features (rest body.entry) out.new.items) }
    ensures refuses { IfErr result (λ e. RefusesBody e body.entry) }
{
    body_laws::past_locals();
    body_laws::opened_bodies();
    let start = body.original_position();
    let features = body.features();
    let function = FunctionBody::new(body);
    let (declarations, reader) = match read_declarations(alloc, &function) {
        Ok(read) => read,
        Err(e) => return Err(e),
    };
    let mut operators = Vec::new(alloc);
    let mut ahead = OperatorsReader::new(alloc, reader);
    match ahead.read_all(&mut operators) {
        Ok(()) => {
            let locals = declarations.as_slice();
            match write_shortened_body(out, features, locals, operators.as_slice()) {
                Ok(()) => Ok(()),
                Err(_) => Err(Error::new(Message::OutOfMemory, start)),
            }
        }
        Err(e) => Err(e),
    }
}

/// Reads the declarations of a body's locals, and returns a reader of the bytes after them. Fails
/// like `LocalsReader::read`.
fn read_declarations<'a>(
    alloc: Global,
    body: &FunctionBody<'a>,
) -> Result<(Vec<(u32, ValType)>, BinaryReader<'a>)>
    ensures past { IfOk result (λ read. IsPastLocals read.0.items body.now read.1) }
    ensures refuses { IfErr result (λ e. e.message ≢ Message.OutOfMemory → RefusesDeclarations e body.now) }
{
    body_laws::steps_of_locals();
    let start = body.get_binary_reader().original_position();
    let mut items = match body.get_locals_reader() {
        Ok(locals) => locals.into_iter(),
        Err(e) => return Err(e),
    };
    let mut declarations = Vec::new(alloc);
    'declarations: while let Some(item) = items.next() {
        match item {
            Ok(declaration) => {
                if declarations.push(declaration).is_err() {
                    return Err(Error::new(Message::OutOfMemory, start));
                }
            }
            Err(e) => return Err(e),
        }
    }
    Ok((declarations, items.into_binary_reader_for_operators()))
}
