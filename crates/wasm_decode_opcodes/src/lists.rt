//! Types for immediates that may own a list. Only their reads allocate.
ghost use Rattle.std.specs.Prelude.{◌≤◌, List, [], ◌∷◌};
ghost use Rattle.wasm_below.specs.Source.{offset_of, end_of};
ghost use Rattle.wasm_imm.specs.Immediate.{Immediate, Kind, unsigned_32, select_types, try_clauses, resume_clauses, is_unsigned_32, is_select_types, is_try_clauses, is_resume_clauses};
ghost use Rattle.wasm_decode_opcodes.specs.Decoding.{ReadsKinds, GoesBack};
ghost use Rattle.wasm_decode_opcodes.specs.Refused.{KindsMayAllocate};

use std::alloc::Global;
use wasm_below::{BinaryReader, FromReader, Result};
use wasm_imm::{ResumeTable, Select, TryTable, refuse_from};

/// The immediates of an operator that may own a list, as a type.
pub trait Lists: Drop {
    ghost kinds: { List Kind };

    ghost listed: { Self → List Immediate };

    /// Reads the immediates of an operator that began at the position `start`. On an error the
    /// reader goes back there, since an allocation failure is reported there.
    fn read_list(alloc: Global, reader: &mut BinaryReader<'_>, start: usize) -> Result<Self>
        requires begun { start ≤ reader.old.position }
        requires within { offset_of reader.old ≤ end_of reader.old }
        ensures { ReadsKinds kinds listed (KindsMayAllocate kinds) GoesBack start result reader.old reader.new };
}

impl Lists for Select {
    ghost kinds = { is_select_types ∷ [] };

    ghost listed = { λ it. select_types it ∷ [] };

    #[inline(always)]
    fn read_list(alloc: Global, reader: &mut BinaryReader<'_>, start: usize) -> Result<Select> {
        match Select::read(alloc, reader) {
            Ok(read) => Ok(read),
            Err(e) => Err(refuse_from(reader, start, e)),
        }
    }
}

impl Lists for TryTable {
    ghost kinds = { is_try_clauses ∷ [] };

    ghost listed = { λ it. try_clauses it ∷ [] };

    #[inline(always)]
    fn read_list(alloc: Global, reader: &mut BinaryReader<'_>, start: usize) -> Result<TryTable> {
        match TryTable::from_reader(alloc, reader) {
            Ok(read) => Ok(read),
            Err(e) => Err(refuse_from(reader, start, e)),
        }
    }
}

impl Lists for ResumeTable {
    ghost kinds = { is_resume_clauses ∷ [] };

    ghost listed = { λ it. resume_clauses it ∷ [] };

    #[inline(always)]
    fn read_list(
        alloc: Global,
        reader: &mut BinaryReader<'_>,
        start: usize,
    ) -> Result<ResumeTable> {
        match ResumeTable::from_reader(alloc, reader) {
            Ok(read) => Ok(read),
            Err(e) => Err(refuse_from(reader, start, e)),
        }
    }
}

impl Lists for (u32, ResumeTable) {
    ghost kinds = { is_unsigned_32 ∷ is_resume_clauses ∷ [] };

    ghost listed = { λ it. unsigned_32 it.0 ∷ resume_clauses it.1 ∷ [] };

    #[inline(always)]
    fn read_list(
        alloc: Global,
        reader: &mut BinaryReader<'_>,
        start: usize,
    ) -> Result<(u32, ResumeTable)> {
        match reader.read_var_u32() {
            Ok(first) => match <ResumeTable as Lists>::read_list(alloc, reader, start) {
                Ok(second) => Ok((first, second)),
                Err(e) => Err(e),
            },
            Err(e) => {
                reader.rewind(start);
                Err(e)
            }
        }
    }
}

impl Lists for (u32, (u32, ResumeTable)) {
    ghost kinds = { is_unsigned_32 ∷ is_unsigned_32 ∷ is_resume_clauses ∷ [] };

    ghost listed = { λ it. unsigned_32 it.0 ∷ unsigned_32 it.1.0 ∷ resume_clauses it.1.1 ∷ [] };

    #[inline(always)]
    fn read_list(
        alloc: Global,
        reader: &mut BinaryReader<'_>,
        start: usize,
    ) -> Result<(u32, (u32, ResumeTable))> {
        match reader.read_var_u32() {
            Ok(first) => match <(u32, ResumeTable) as Lists>::read_list(alloc, reader, start) {
                Ok(second) => Ok((first, second)),
                Err(e) => Err(e),
            },
            Err(e) => {
                reader.rewind(start);
                Err(e)
            }
        }
    }
}
