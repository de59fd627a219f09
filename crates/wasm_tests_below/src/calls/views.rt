use super::{write_error, write_next, write_result};
use crate::failure::Written;
use wasm_below::BinaryReader;

#[derive(Clone, Copy)]
pub enum View {
    Range,
    RemainingRange,
    RemainingBuffer,
    IsEndThenEof,
    Eof,
    Peek,
    Reader,
}

impl View {
    pub fn write(self, text: &mut String, reader: &mut BinaryReader<'_>) -> Written {
        match self {
            View::Range => write!(text, "{:?}", reader.range())?,
            View::RemainingRange => write!(text, "{:?}", reader.remaining_range())?,
            View::RemainingBuffer => write!(text, "{:?}", reader.remaining_buffer())?,
            View::IsEndThenEof => write!(text, "{}", reader.is_end_then_eof())?,
            View::Eof => write!(text, "{}", reader.eof())?,
            View::Peek => write_result(text, reader.peek(), reader)?,
            View::Reader => write_part(text, reader)?,
        }
        Ok(())
    }
}

fn write_part(text: &mut String, reader: &mut BinaryReader<'_>) -> Written {
    match reader.read_reader() {
        Ok(part) => write!(text, "{:?} of {:?}", part.remaining_buffer(), part.range())?,
        Err(e) => write_error(text, e)?,
    }
    write_next(text, reader)
}
