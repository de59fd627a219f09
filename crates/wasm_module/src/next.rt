ghost use Rattle.std.specs.Prelude.{◌≡◌, IfOk, IfErr, IfSome, IfNone};
ghost use Rattle.wasm_module.specs.Bodies.{TakesType, HasType, TakesBody, StopsBodies};

use crate::bodies::Bodies;
use crate::body_fault::NoBody;
use crate::body_sections::{CODE, FUNCTIONS, place_in};
use crate::function_laws::sections;
use wasm_below::{Error, Message};

/// A body of a module, as a C struct of 24 bytes without padding.
#[repr(C)]
#[derive(Clone, Copy, Debug, PartialEq, Eq)]
pub struct Body {
    /// The offset of the first byte in the module.
    pub offset: u64,
    /// The number of bytes.
    pub length: u64,
    /// The index of the function, at most 4294967295.
    pub index: u32,
    /// The index of the function's type.
    pub type_index: u32,
}

/// Returns the next type index, and the offset after it in the function section's contents; `None`
/// if there is no type index.
fn read_type(bytes: &[u8], bodies: &Bodies) -> Option<(u32, u64)>
    ensures some { IfSome result (λ found. TakesType bytes.now bodies.now.types found.1 found.0) }
    ensures none { IfNone result (HasType bytes.now bodies.now.types → ⊥) }
{
    sections();
    let (mut place, start) = match place_in(bytes, FUNCTIONS, bodies.types) {
        Some(found) => found,
        None => return None,
    };
    match place.read_var_u32() {
        Ok(ty) => Some((ty, (place.current_position() - start) as u64)),
        Err(_) => None,
    }
}

/// Returns why there is no body after all are read.
fn end_of_bodies(bytes: &[u8], bodies: &Bodies) -> NoBody
    requires { bodies.now.left ≡ 0 }
    ensures { StopsBodies result bytes.now bodies.now }
{
    if bodies.code == 0 {
        return NoBody::End;
    }
    match place_in(bytes, CODE, bodies.code) {
        Some((place, _)) => {
            if place.eof() {
                return NoBody::End;
            }
            let offset = place.original_position();
            NoBody::Refused(Error::new(Message::DataAfterSection, offset))
        }
        None => NoBody::NotBodies,
    }
}

/// Reads the next body of a module. `bodies` is then the place after it, or unchanged on failure.
pub fn next_body(bytes: &[u8], bodies: &mut Bodies) -> Result<Body, NoBody>
    ensures takes { IfOk result (λ body. TakesBody bytes.now bodies.old bodies.new body) }
    ensures stops { IfErr result (λ reason. StopsBodies reason bytes.now bodies.old) }
    ensures unchanged { IfErr result (λ reason. bodies.new ≡ bodies.old) }
{
    if bodies.left == 0 {
        return Err(end_of_bodies(bytes, bodies));
    }
    let Some((type_index, types)) = read_type(bytes, bodies) else {
        return Err(NoBody::NotBodies);
    };
    let Some((mut place, start)) = place_in(bytes, CODE, bodies.code) else {
        return Err(NoBody::NotBodies);
    };
    match place.read_reader() {
        Ok(part) => {
            let body = Body {
                offset: part.original_position(),
                length: part.bytes_remaining() as u64,
                index: bodies.imported.saturating_add(bodies.read),
                type_index,
            };
            *bodies = Bodies {
                code: (place.current_position() - start) as u64,
                types,
                imported: bodies.imported,
                read: bodies.read.saturating_add(1),
                left: bodies.left - 1,
                reserved: bodies.reserved,
            };
            Ok(body)
        }
        Err(e) => Err(NoBody::Refused(e)),
    }
}
