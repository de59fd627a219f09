ghost use Rattle.std.specs.Prelude.{◌≡◌, OnOk, IfOk, IfErr, List};
ghost use Rattle.wasm_below.specs.Source.{source_of};
ghost use Rattle.wasm_operators.specs.Expression.{Placed};
ghost use Rattle.wasm_operators.specs.Body.{EncodesBody};
ghost use Rattle.wasm_operators.specs.Locals.{Declaration};
ghost use Rattle.wasm_typing.specs.Types.{value_type};
ghost use Rattle.wasm_check_operators.specs.Forms.{is_valid};
ghost use Rattle.wasm_check.specs.Bodies.{HasDeclared, MayDeclare, ExplainsLocals, IsTypedBody, EncodesTypedBody, ExplainsBody};

use crate::check::check_operators;
use crate::error::{CheckError, decoding};
use std::alloc::Global;
use wasm_below::ValType;
use wasm_check_control::{FuncType, ModuleContext};
use wasm_check_locals::{BodyContext, DeclaredLocals};
use wasm_check_operators::is_valid;
use wasm_operators::{BinaryReader, FunctionBody, OperatorsReader, body_laws};
use wasm_typing::ValueType;

/// The greatest number of parameters and locals of a function. The standard permits such limits;
/// wasmparser and engines have this one.
pub const MAX_LOCALS: u32 = 50_000;

fn is_valid_local<M: ModuleContext>(module: &M, ty: &ValType) -> bool
    ensures { result ≡ is_valid (M.environment module.now).order (value_type ty.now) }
{
    is_valid(module, ValueType::new(*ty))
}

/// Reads the declarations of a body's locals. Returns the locals, and a reader of the bytes after
/// the declarations.
fn read_locals<'a, M: ModuleContext>(
    alloc: Global,
    module: &M,
    params: usize,
    body: &FunctionBody<'a>,
) -> Result<(DeclaredLocals, BinaryReader<'a>), CheckError>
    ensures read { IfOk result (λ read. HasDeclared (M.environment module.now).order params read.0 body.now read.1) }
    ensures whole { (declarations : List Declaration) (placed : Placed) → EncodesBody (source_of body.now) declarations placed → MayDeclare (M.environment module.now).order params declarations
        → IfErr result (λ e. e ≡ CheckError.Memory) }
    ensures error { IfErr result (λ e. ExplainsLocals (M.environment module.now).order params body.now e) }
{
    body_laws::declarations();
    body_laws::steps_of_locals();
    let mut reader = match body.get_locals_reader() {
        Ok(reader) => reader,
        Err(error) => return Err(decoding(error)),
    };
    if params > MAX_LOCALS as usize {
        let offset = body.get_binary_reader().original_position();
        return Err(CheckError::TooManyLocals { offset });
    }
    let mut left = MAX_LOCALS - params as u32;
    let mut locals = DeclaredLocals::new(alloc);
    for declaration in 0..reader.get_count() {
        let offset = reader.original_position();
        let (count, ty) = match reader.read() {
            Ok(read) => read,
            Err(error) => return Err(decoding(error)),
        };
        if !is_valid_local(module, &ty) {
            return Err(CheckError::InvalidLocal { offset, ty });
        }
        if count > left {
            return Err(CheckError::TooManyLocals { offset });
        }
        left -= count;
        if locals.add(count, ty).is_err() {
            return Err(CheckError::Memory);
        }
    }
    Ok((locals, reader.get_binary_reader()))
}

/// Checks that `body` has the bytes of a function's body and no more, and that its expression is
/// typed. The context is the module, with the parameters of `ty` followed by the declared locals. The
/// expression leaves the results of `ty`. Specification: Validation, Functions; Binary Format, Code
/// Section.
pub fn check_body<M: ModuleContext>(
    alloc: Global,
    module: &M,
    ty: FuncType<'_>,
    body: BinaryReader<'_>,
) -> Result<(), CheckError>
    // On `Ok`, the bytes encode a body, and the rules type the only tree of its expression.
    ensures typed { OnOk result (IsTypedBody (M.environment module.now) ty.entry.params.now ty.entry.results.now (source_of body.entry)) }
    // For a typed body, only allocation can fail.
    ensures whole { (declarations : List Declaration) (placed : Placed) → EncodesTypedBody (M.environment module.now) ty.entry.params.now ty.entry.results.now (source_of body.entry) declarations placed
        → IfErr result (λ e. e ≡ CheckError.Memory) }
    ensures error { IfErr result (λ e. ExplainsBody (M.environment module.now) ty.entry.params.now ty.entry.results.now body.entry e) }
{
    body_laws::past_locals();
    let body = FunctionBody::new(body);
    let (locals, reader) = match read_locals(alloc, module, ty.params.len(), &body) {
        Ok(read) => read,
        Err(error) => return Err(error),
    };
    let context = BodyContext {
        module,
        ty,
        locals: &locals,
    };
    check_operators(alloc, &context, false, OperatorsReader::new(alloc, reader))
}
