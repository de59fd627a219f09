ghost use Rattle.std.specs.Prelude.{IfOk, IfErr};
ghost use Rattle.wasm_module.specs.Bodies.{OpensBodies, FailsBodies};

use crate::body_fault::BodiesFault;
use crate::body_sections::{CODE, FUNCTIONS, read_count};
use crate::{Functions, ModuleFault, find_section};
use std::alloc::Global;
use wasm_below::WasmFeatures;

/// The place between two bodies of a module, as a C struct of 32 bytes without padding.
#[repr(C)]
#[derive(Clone, Copy, Debug, PartialEq, Eq)]
pub struct Bodies {
    /// The number of bytes of the code section's contents that were read.
    pub code: u64,
    /// The number of bytes of the function section's contents that were read.
    pub types: u64,
    /// The number of imported functions.
    pub imported: u32,
    /// The number of bodies that were read.
    pub read: u32,
    /// The number of bodies that are left.
    pub left: u32,
    /// 0. `next_body` does not change it.
    pub reserved: u32,
}

/// Returns the place before the first body of a module. Fails with any fault except `NoFunction`.
pub fn open_bodies(alloc: Global, bytes: &[u8]) -> Result<Bodies, BodiesFault>
    ensures opens { IfOk result (λ bodies. OpensBodies bytes.now bodies) }
    ensures fault { IfErr result (λ fault. FailsBodies fault bytes.now) }
{
    let features = WasmFeatures::all();
    let functions = match Functions::new(alloc, features, bytes) {
        Ok(functions) => functions,
        Err(fault) => return Err(BodiesFault::Functions(fault)),
    };
    let (functions_count, types) = match find_section(features, bytes, FUNCTIONS) {
        Ok(contents) => match read_count(contents) {
            Ok(found) => found,
            Err(e) => return Err(BodiesFault::Functions(ModuleFault::Refused(e))),
        },
        Err(fault) => return Err(BodiesFault::Functions(fault)),
    };
    let (bodies_count, code) = match find_section(features, bytes, CODE) {
        Ok(contents) => match read_count(contents) {
            Ok(found) => found,
            Err(e) => return Err(BodiesFault::Code(e)),
        },
        Err(fault) => return Err(BodiesFault::Functions(fault)),
    };
    if bodies_count != functions_count {
        return Err(BodiesFault::Counts);
    }
    Ok(Bodies {
        code,
        types,
        imported: functions.index(0),
        read: 0,
        left: bodies_count,
        reserved: 0,
    })
}
