ghost use Rattle.std.specs.Prelude.{◌≡◌, List, [], IfSome, Some};
ghost use Rattle.std.specs.Iterator.{at_most, UpTo};
ghost use Rattle.std.specs.Iterator.SizeHint.{IsWithinCount};
ghost use Rattle.wasm_below.specs.Source.{Reader, offset_of};
ghost use Rattle.wasm_operators.specs.Locals.{Declaration, IsPastLocals, IsResultPastLocals, OpensLocals, ReadsDeclaration, StepsLocals, HasStepped, all_left};
ghost use Rattle.wasm_operators.specs.Reading.{IsFresh};
ghost use Rattle.wasm_operators.specs.MainTheorem.{ReadSoFar};

use crate::OperatorsReader;
use std::alloc::Global;
use std::marker::Model;
use wasm_below::{BinaryReader, Error, Message, Result, ValType};

/// A reader of the declarations of a body's locals, which it counts.
#[derive(Debug, Drop)]
pub struct LocalsReader<'a> {
    reader: BinaryReader<'a>,
    count: u32,
    total: u32,
}

impl<'a> Model for LocalsReader<'a> {
    ghost use Rattle.wasm_operators.specs.Locals.{Locals};

    ghost Value = { Locals };

    ghost view = { λ l. record { reader = l.reader; count = l.count; total = l.total } };
}

impl<'a> LocalsReader<'a> {
    /// Reads the count of the declarations. Fails as `read_var_u32` does.
    ///
    /// # Examples
    ///
    /// ```
    /// let mut items = LocalsReader::new(reader)?.into_iter();
    /// while let Some(item) = items.next() {
    ///     let (count, ty) = item?;
    /// }
    /// ```
    pub fn new(mut reader: BinaryReader<'a>) -> Result<LocalsReader<'a>>
        ensures { OpensLocals result reader.entry }
    {
        match reader.read_var_u32() {
            Ok(count) => Ok(LocalsReader {
                reader,
                count,
                total: 0,
            }),
            Err(e) => Err(e),
        }
    }

    pub fn get_count(&self) -> u32
        ensures { result ≡ self.now.count }
    {
        self.count
    }

    pub fn original_position(&self) -> u64
        ensures { result ≡ offset_of self.now.reader }
    {
        self.reader.original_position()
    }

    /// Reads the number and the type of the next locals, also after `get_count` declarations.
    /// Specification: Code Section.
    ///
    /// Fails as `read_var_u32` does; with `TooManyLocals` after the number if the total were more
    /// than 4294967295; then as `ValType::read` does.
    pub fn read(&mut self) -> Result<(u32, ValType)>
        ensures { ReadsDeclaration result self.old self.new }
    {
        let start = self.reader.current_position();
        let number = match self.reader.read_var_u32() {
            Ok(number) => number,
            Err(e) => return Err(e),
        };
        let Some(total) = self.total.checked_add(number) else {
            let position = self.reader.original_position();
            self.reader.rewind(start);
            return Err(Error::new(Message::TooManyLocals, position));
        };
        match ValType::read(&mut self.reader) {
            Ok(ty) => {
                self.total = total;
                Ok((number, ty))
            }
            Err(e) => {
                self.reader.rewind(start);
                Err(e)
            }
        }
    }

    pub fn get_binary_reader(self) -> BinaryReader<'a>
        ensures { result ≡ self.entry.reader }
    {
        self.reader
    }
}

impl<'a> IntoIterator for LocalsReader<'a> {
    type Item = Result<(u32, ValType)>;

    type IntoIter = LocalsIterator<'a>;

    ghost into_iter_gives = { λ locals items. items ≡ all_left locals };

    /// Converts the reader into an iterator over `get_count` declarations from the current
    /// position, even if some were read before.
    fn into_iter(self) -> LocalsIterator<'a> {
        let left = self.count;
        LocalsIterator { locals: self, left }
    }
}

/// An iterator over the declarations of a body's locals. Nothing follows an error.
#[derive(Debug, Drop)]
pub struct LocalsIterator<'a> {
    locals: LocalsReader<'a>,
    left: u32,
}

impl<'a> Model for LocalsIterator<'a> {
    ghost use Rattle.wasm_operators.specs.Locals.{LocalsLeft};

    ghost Value = { LocalsLeft };

    ghost view = { λ items. record { locals = items.locals; left = items.left } };
}

impl<'a> Iterator for LocalsIterator<'a> {
    type Item = Result<(u32, ValType)>;

    ghost next_gives = { λ old item new. StepsLocals item old new };

    ghost remaining = { λ items. at_most items.left };

    fn next(&mut self) -> Option<Result<(u32, ValType)>> {
        if self.left == 0 {
            return None;
        }
        match self.locals.read() {
            Ok(declaration) => {
                self.left -= 1;
                Some(Ok(declaration))
            }
            Err(e) => {
                self.left = 0;
                Some(Err(e))
            }
        }
    }

    fn size_hint(&self) -> (usize, Option<usize>)
        ensures exact { result ≡ record { 0 = 0; 1 = Some self.now.left } }
        ensures lower { IsWithinCount result.0 (at_most self.now.left) }
        ensures upper { IfSome result.1 (UpTo (at_most self.now.left)) }
    {
        (0, Some(self.left as usize))
    }
}

impl<'a> LocalsIterator<'a> {
    /// Returns a reader at the current position: after the locals, once no item is left, or at the
    /// item that failed.
    pub fn into_binary_reader_for_operators(self) -> BinaryReader<'a>
        requires { self.left ≡ 0 }
        ensures reader { result ≡ self.entry.locals.reader }
        ensures after { (body : Reader) (declarations : List Declaration) → HasStepped declarations body self.entry
            → IsPastLocals declarations body result }
        ensures outcome { (body : Reader) (declarations : List Declaration) → HasStepped declarations body self.entry
            → IsResultPastLocals result body }
    {
        self.locals.get_binary_reader()
    }

    /// Returns a new reader of the operators at the current position.
    pub fn into_operators_reader(self, alloc: Global) -> OperatorsReader<'a>
        ensures reader { result.reader ≡ self.entry.locals.reader }
        ensures fresh { IsFresh result }
        ensures read_so_far { ReadSoFar [] result }
        ensures room { result.room ≡ 0 }
        ensures after { (body : Reader) (declarations : List Declaration) → self.entry.left ≡ 0
            → HasStepped declarations body self.entry → IsPastLocals declarations body result.reader }
    {
        OperatorsReader::new(alloc, self.locals.get_binary_reader())
    }
}
