//! Constant expressions as they are shown.
ghost use Rattle.std.specs.Prelude.{◌≡◌, IfOk, List, Option, ℕ, option_map, string_bytes};
ghost use Rattle.wasm_index_names.specs.Known.{ModuleNames};
ghost use Rattle.wasm_details.specs.Segments.{IsOffset, ListsElements, ListsData};
ghost use Rattle.wasm_details.specs.declared.constants.Usage.{Usage};

use crate::place::Place;
use std::alloc::{AllocError, Global};
use std::io::Write;
use wasm_below::BinaryReader;
use wasm_grammars::Read;
use wasm_index_names::Names;
use wasm_rows::Fault;

/// What a constant expression is for, on which its text depends.
#[derive(Clone, Copy)]
pub enum Usage {
    /// The value of a global, or of a table's elements.
    Value,
    /// The address of a segment.
    Offset,
    /// An element of a segment.
    Element,
}

/// A constant expression as text.
#[derive(Drop)]
pub struct ShownConstant {
    pub text: String,
    /// The number, if the expression is a constant of the type i32 or i64; unsigned.
    pub number: Option<u64>,
}

/// A constant expression that is shown as text.
pub trait ConstantDetails<'a>: Read<'a> {
    /// The text and the number of an expression.
    ghost shows: { ModuleNames → Usage → Self → List ℕ → Option ℕ → Type 0 };

    /// Returns the expression as text, which depends on its usage.
    fn show(&self, alloc: Global, names: &Names, usage: Usage) -> Result<ShownConstant, AllocError>
        ensures { IfOk result (λ s. shows names.now usage self.now (string_bytes s.text) s.number) };
}

/// A constant expression that is shown in segments.
pub trait SegmentDetails<'a>: ConstantDetails<'a> {
    /// Writes a section of element segments with expressions of this type. Returns the place after
    /// them.
    fn write_element_section<W: Write>(
        alloc: Global,
        writer: &mut W,
        line: &mut String,
        names: &Names,
        place: Place,
        contents: BinaryReader<'a>,
    ) -> Result<Place, Fault>
        ensures { ListsElements (record { grammar = Self.grammar; shows = Self.shows }) names.now contents.entry place result (W.contents writer.old) (W.contents writer.new) };

    /// Writes a section of data segments with expressions of this type. Returns the place after them.
    fn write_data_section<W: Write>(
        alloc: Global,
        writer: &mut W,
        line: &mut String,
        names: &Names,
        place: Place,
        contents: BinaryReader<'a>,
    ) -> Result<Place, Fault>
        ensures { ListsData (record { grammar = Self.grammar; shows = Self.shows }) names.now contents.entry place result (W.contents writer.old) (W.contents writer.new) };
}

/// Returns the offset of a segment as shown after the number of its items; empty without an offset.
pub fn show_offset<'a, C: ConstantDetails<'a>>(
    alloc: Global,
    names: &Names,
    offset: Option<&C>,
) -> Result<ShownConstant, AllocError>
    ensures { IfOk result (λ s. IsOffset C.shows names.now (option_map (λ c. c.now) offset.entry) (string_bytes s.text) s.number) }
{
    let mut text = String::new(alloc);
    let Some(offset) = offset else {
        return Ok(ShownConstant { text, number: None });
    };
    let shown = offset.show(alloc, names, Usage::Offset)?;
    text.push_str(" - init ")?;
    text.push_str(shown.text.as_str())?;
    Ok(ShownConstant {
        text,
        number: shown.number,
    })
}
