use wasm_listing::features_of;
use wasm_operators::{BinaryReader, FrameKind, WasmFeatures};
use wasm_tests_texts::frame_named;

#[derive(Clone, Copy, Debug)]
pub struct Row<'r> {
    pub kind: &'r str,
    /// The argument of the row's kind: a frame, features, a number or a name.
    pub argument: &'r str,
    /// The offset of the first byte.
    pub offset: u32,
    /// The bytes in hexadecimal.
    pub digits: &'r str,
    pub expected: &'r str,
}

/// Returns the row of a line, if it has four cells and its kind takes the argument. The third cell
/// is the bytes in hexadecimal, after the offset of the first byte and a colon if that is not 0.
pub fn row_of<'r>(line: &'r str) -> Option<Row<'r>> {
    let mut cells = line.split('\t');
    let kind = cells.next()?;
    let argument = cells.next()?;
    let input = cells.next()?;
    let expected = cells.next()?;
    if cells.next().is_some() {
        return None;
    }
    let (offset, digits) = input.split_once(':').unwrap_or(("0", input));
    let row = Row {
        kind,
        argument,
        offset: offset.parse::<u32>().ok()?,
        digits,
        expected,
    };
    if !row.has_suitable_argument() {
        return None;
    }
    Some(row)
}

#[derive(Clone, Copy, Debug)]
pub struct Given<'g> {
    pub argument: &'g str,
    pub offset: u32,
    pub bytes: &'g [u8],
}

impl<'r> Row<'r> {
    /// Returns whether the argument is one that this kind of row takes. A misspelled word would
    /// be read as another number or set of features.
    fn has_suitable_argument(&self) -> bool {
        match self.kind {
            "features" | "scenario" => true,
            "memory_listing" | "memory_census" => features_of(Some(self.argument)).is_some(),
            "disassembly"
            | "failing_read"
            | "failing_write"
            | "locals"
            | "nops"
            | "long_nops"
            | "read_iter"
            | "rec_types"
            | "section" => self.argument.parse::<u32>().is_ok(),
            _ => self.argument == "-" || frame_named(self.argument).is_some(),
        }
    }
}

impl<'g> Given<'g> {
    pub fn reader(&self) -> BinaryReader<'g> {
        BinaryReader::new(self.bytes, u64::from(self.offset))
    }

    pub fn number(&self) -> u32 {
        self.argument.parse::<u32>().unwrap_or(0)
    }

    pub fn features(&self) -> WasmFeatures {
        features_of(Some(self.argument)).unwrap_or(WasmFeatures::all())
    }

    pub fn frame(&self) -> Option<FrameKind> {
        frame_named(self.argument)
    }
}
