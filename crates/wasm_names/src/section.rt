ghost use Rattle.std.specs.Prelude.{◌≡◌, false};
ghost use Rattle.wasm_below.specs.Source.{offset_of};
ghost use Rattle.wasm_names.specs.Subsections.{ReadsSubsection, StepsNames, names_to_come};

use crate::name::Name;
use std::alloc::Global;
use std::marker::Model;
use wasm_below::{BinaryReader, Result};
use wasm_sections::read_section;

/// Reads a subsection: its id, its size, and its contents like `Name::from_contents`.
///
/// Fails like `read_section`, or with the contents' error.
pub fn read_name<'a>(alloc: Global, reader: &mut BinaryReader<'a>) -> Result<Name<'a>>
    ensures { ReadsSubsection result reader.old reader.new }
{
    let mut ahead = reader.clone();
    let subsection = read_section(&mut ahead)?;
    let name = Name::from_contents(alloc, subsection.id(), subsection.contents())?;
    *reader = ahead;
    Ok(name)
}

/// An iterator over the subsections of a custom section `name`, which ends after an error.
#[derive(Drop)]
pub struct NameSectionReader<'a> {
    alloc: Global,
    reader: BinaryReader<'a>,
    refused: bool,
}

impl<'a> Model for NameSectionReader<'a> {
    ghost use Rattle.wasm_names.specs.Subsections.{NamesLeft};

    ghost Value = { NamesLeft };

    ghost view = { λ s. record { reader = s.reader; refused = s.refused } };
}

impl<'a> NameSectionReader<'a> {
    /// Creates an iterator over the contents after the section's name. `alloc` is passed to readers
    /// that take one; nothing allocates.
    pub fn new(alloc: Global, contents: BinaryReader<'a>) -> NameSectionReader<'a>
        ensures { result ≡ record { reader = contents.entry; refused = false } }
    {
        NameSectionReader {
            alloc,
            reader: contents,
            refused: false,
        }
    }

    /// Returns the offset of the next subsection.
    pub fn original_position(&self) -> u64
        ensures { result ≡ offset_of self.now.reader }
    {
        self.reader.original_position()
    }
}

impl<'a> Iterator for NameSectionReader<'a> {
    type Item = Result<Name<'a>>;

    ghost next_gives = { StepsNames };

    ghost remaining = { names_to_come };

    /// Reads the next subsection like `read_name`. Returns `None` at the end of the contents and
    /// after an error, which consumes nothing.
    fn next(&mut self) -> Option<Result<Name<'a>>> {
        if self.refused || self.reader.eof() {
            return None;
        }
        let item = read_name(self.alloc, &mut self.reader);
        self.refused = item.is_err();
        Some(item)
    }
}
