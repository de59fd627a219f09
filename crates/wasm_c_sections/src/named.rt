//! Imports, exports and names as C structs, which say where the names are.
ghost use Rattle.wasm_c_sections.specs.Externals.{placed_import, placed_export};
ghost use Rattle.wasm_c_sections.specs.Names.{placed_naming};

use crate::external::{WasmExternal, kind_number, read_external};
use crate::range::{WasmRange, read_text};
use std::alloc::Global;
use wasm_below::{BinaryReader, Result};
use wasm_externals::ExternalKind;
use wasm_grammars::Read;

/// An import, as a C struct of 72 bytes.
#[repr(C)]
#[derive(Clone, Copy, Debug, PartialEq, Eq)]
pub struct WasmImport {
    pub module: WasmRange,
    pub name: WasmRange,
    pub ty: WasmExternal,
}

/// Fails like `Import::read_from`.
impl<'a> Read<'a> for WasmImport {
    ghost grammar = { placed_import };

    fn read_from(alloc: Global, reader: &mut BinaryReader<'a>) -> Result<WasmImport> {
        let mut ahead = reader.clone();
        let module = read_text(alloc, &mut ahead)?;
        let name = read_text(alloc, &mut ahead)?;
        let ty = read_external(alloc, &mut ahead)?;
        *reader = ahead;
        Ok(WasmImport { module, name, ty })
    }
}

/// An export, as a C struct of 24 bytes.
#[repr(C)]
#[derive(Clone, Copy, Debug, PartialEq, Eq)]
pub struct WasmExport {
    pub name: WasmRange,
    /// As in `WasmExternal`.
    pub kind: u32,
    /// The index of what is exported.
    pub index: u32,
}

/// Fails like `Export::read_from`.
impl<'a> Read<'a> for WasmExport {
    ghost grammar = { λ features. placed_export };

    fn read_from(alloc: Global, reader: &mut BinaryReader<'a>) -> Result<WasmExport> {
        let mut ahead = reader.clone();
        let name = read_text(alloc, &mut ahead)?;
        let kind = ExternalKind::read_from(alloc, &mut ahead)?;
        let index = ahead.read_var_u32()?;
        *reader = ahead;
        Ok(WasmExport {
            name,
            kind: kind_number(kind),
            index,
        })
    }
}

/// A name, and the index of what it names, as a C struct of 24 bytes.
#[repr(C)]
#[derive(Clone, Copy, Debug, PartialEq, Eq)]
pub struct WasmNaming {
    pub name: WasmRange,
    pub index: u32,
    /// 0.
    pub reserved: u32,
}

/// Fails like `Naming::read_from`.
impl<'a> Read<'a> for WasmNaming {
    ghost grammar = { λ features. placed_naming };

    fn read_from(alloc: Global, reader: &mut BinaryReader<'a>) -> Result<WasmNaming> {
        let mut ahead = reader.clone();
        let index = ahead.read_var_u32()?;
        let name = read_text(alloc, &mut ahead)?;
        *reader = ahead;
        Ok(WasmNaming {
            name,
            index,
            reserved: 0,
        })
    }
}
