ghost use Rattle.wasm_constants.specs.Constants.{const_expr};
ghost use Rattle.wasm_constant_texts.specs.ConstantTexts.{ShowsConstant};

use crate::texts::{number_of, push_constant};
use std::alloc::{AllocError, Global};
use std::io::Write;
use std::marker::Model;
use wasm_below::{BinaryReader, Result as ReadResult};
use wasm_constants::Constant;
use wasm_details::{ConstantDetails, Place, SegmentDetails, ShownConstant, Usage, write_section};
use wasm_grammars::Read;
use wasm_index_names::Names;
use wasm_rows::Fault;
use wasm_segments::{Data, Element};

/// A constant expression that is shown as text.
#[derive(Drop)]
pub struct ListedConstant<'a> {
    constant: Constant<'a>,
}

impl<'a> Model for ListedConstant<'a> {
    ghost use Rattle.wasm_below.specs.Source.{Reader};

    ghost Value = { Reader };

    ghost view = { λ c. c.constant };
}

impl<'a> Read<'a> for ListedConstant<'a> {
    ghost grammar = { const_expr };

    fn read_from(alloc: Global, reader: &mut BinaryReader<'a>) -> ReadResult<ListedConstant<'a>> {
        match Constant::read_from(alloc, reader) {
            Ok(constant) => Ok(ListedConstant { constant }),
            Err(e) => Err(e),
        }
    }
}

impl<'a> ConstantDetails<'a> for ListedConstant<'a> {
    ghost shows = { ShowsConstant };

    fn show(
        &self,
        alloc: Global,
        names: &Names,
        usage: Usage,
    ) -> Result<ShownConstant, AllocError> {
        let mut operators = self.constant.expression().get_operators_reader(alloc);
        let mut placed = Vec::new(alloc);
        let Ok(()) = operators.read_all(&mut placed) else {
            return Err(AllocError);
        };
        let last = placed.len().saturating_sub(1);
        let shown = &placed.as_slice()[..last];
        let mut text = String::new(alloc);
        push_constant(alloc, &mut text, names, usage, shown)?;
        Ok(ShownConstant {
            text,
            number: number_of(shown),
        })
    }
}

impl<'a> SegmentDetails<'a> for ListedConstant<'a> {
    fn write_element_section<W: Write>(
        alloc: Global,
        writer: &mut W,
        line: &mut String,
        names: &Names,
        place: Place,
        contents: BinaryReader<'a>,
    ) -> Result<Place, Fault> {
        write_section::<W, Names, Element<'a, ListedConstant<'a>>>(
            alloc, writer, line, names, place, "Elem", contents,
        )
    }

    fn write_data_section<W: Write>(
        alloc: Global,
        writer: &mut W,
        line: &mut String,
        names: &Names,
        place: Place,
        contents: BinaryReader<'a>,
    ) -> Result<Place, Fault> {
        write_section::<W, Names, Data<'a, ListedConstant<'a>>>(
            alloc, writer, line, names, place, "Data", contents,
        )
    }
}
