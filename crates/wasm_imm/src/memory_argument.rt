ghost use Rattle.std.specs.Prelude.{◌≡◌, ◌/◌, ◌%◌, ◌<◌, ◌≤◌, ◌↔◌, IsTrue, IfSome, IfNone, IfErr};
ghost use Rattle.wasm_below.specs.Ahead.{ReadsAhead};
ghost use Rattle.wasm_below.specs.Source.{HasRead, Reads, at_position, offset_of};
ghost use Rattle.wasm_below.specs.Number.{EncodesUnsigned};
ghost use Rattle.wasm_imm.specs.MemoryArgument.{EncodesMemArg, EncodesOffset, IsOrderingByte};
ghost use Rattle.wasm_imm.specs.FlagsNumber.{Announces, NamesBoth, OrdersPlain, IsReserved, IsTarget, IsOrdering};
ghost use Rattle.wasm_imm.specs.MemoryArgumentFaults.{TargetFault, OrderingFault, OffsetFault, FlagsFault, MemArgFault};

use crate::ordering::Ordering;
use std::fmt::{self, Debug, Formatter};
use wasm_below::{BinaryReader, Error, Message, Result, WasmFeatures};

/// The memory argument of a load, a store or an atomic access. Specification: Memory Instructions.
///
/// Wide fields come first, so that the size is 24 bytes.
#[derive(Clone, Copy, PartialEq, Eq)]
pub struct MemArg {
    /// The static offset in bytes, added to the address.
    pub offset: u64,
    pub target: MemArgTarget,
    /// The alignment of the argument, as an exponent of two, at most 15.
    pub align: u8,
    /// The operator's natural alignment, as an exponent of two. It is not read from the bytes.
    pub max_align: u8,
    pub ordering: Option<MemArgOrdering>,
}

/// The fields in the order of the format.
impl Debug for MemArg {
    fn fmt<W: fmt::Write>(&self, f: &mut Formatter<W>) -> fmt::Result {
        f.debug_struct("MemArg")
            .field("align", &self.align)
            .field("max_align", &self.max_align)
            .field("offset", &self.offset)
            .field("target", &self.target)
            .field("ordering", &self.ordering)
            .finish()
    }
}

#[derive(Clone, Copy, Debug, PartialEq, Eq, Hash)]
pub enum MemArgTarget {
    Memory(u32),
    /// An array whose type has this index.
    Array(u32),
}

impl Default for MemArgTarget {
    fn default() -> MemArgTarget
        ensures { result ≡ MemArgTarget.Memory 0 }
    {
        MemArgTarget::Memory(0)
    }
}

#[derive(Clone, Copy, Debug, PartialEq, Eq, Hash)]
pub enum MemArgOrdering {
    Op(Ordering),
    Rmw(Ordering),
}

/// The kind of operator, which decides which orderings its memory argument may have.
#[derive(Clone, Copy, Debug, PartialEq, Eq)]
pub enum MemArgKind {
    /// Not atomic: no ordering.
    Plain,
    /// An atomic load or store.
    Op,
    /// An atomic read-modify-write.
    Rmw,
}

/// The bits of the flags number that announce an ordering, an array index and a memory index.
const ORDERING: u32 = 16;

const ARRAY_INDEX: u32 = 32;

const MEMORY_INDEX: u32 = 64;

impl MemArg {
    /// Reads the memory argument of an operator of this kind. `max_align` is the natural alignment,
    /// as an exponent of two. Specification: Memory Instructions.
    ///
    /// Fails with the first error that applies:
    ///
    /// - like `read_var_u32` at the flags number
    /// - `MemoryAndArray` at the flags number
    /// - like `read_var_u32` at the announced index
    /// - `OrderingOnPlain` at the flags number
    /// - `EndOfData` or `InvalidOrdering` at the ordering
    /// - `ReservedFlags` at the flags number
    /// - at the offset, like `read_var_u64` with memory64 and like `read_var_u32` without it
    #[inline(always)]
    pub fn read(reader: &mut BinaryReader<'_>, max_align: u8, kind: MemArgKind) -> Result<MemArg>
        ensures { Reads (EncodesMemArg reader.old.features kind max_align) (MemArgFault reader.old.features kind) result reader.old reader.new }
    {
        let start = reader.current_position();
        let flags = match reader.read_var_u32() {
            Ok(flags) => flags,
            Err(e) => return Err(e),
        };
        if flags >= ORDERING {
            return match read_announced(reader, start, flags, max_align, kind) {
                Ok(argument) => Ok(argument),
                Err(e) => Err(e),
            };
        }
        match read_offset(reader) {
            Ok(offset) => Ok(MemArg {
                align: flags as u8,
                max_align,
                offset,
                target: MemArgTarget::Memory(0),
                ordering: None,
            }),
            Err(e) => {
                reader.rewind(start);
                Err(e)
            }
        }
    }
}

#[inline(always)]
fn read_announced(
    reader: &mut BinaryReader<'_>,
    start: usize,
    flags: u32,
    max_align: u8,
    kind: MemArgKind,
) -> Result<MemArg>
    requires begun { start ≤ reader.old.position }
    requires flagged { HasRead (EncodesUnsigned 32) flags
        (at_position reader.old start) reader.old }
    ensures { Reads (EncodesMemArg reader.old.features kind max_align)
        (MemArgFault reader.old.features kind) result (at_position reader.old start) reader.new }
{
    let mut copy = reader.clone();
    match read_announced_out_of_line(&mut copy, start, flags, max_align, kind) {
        Ok(argument) => {
            reader.set_position(copy.current_position());
            Ok(argument)
        }
        Err(e) => {
            reader.rewind(start);
            Err(e)
        }
    }
}

/// Reads a memory argument after its flags number, without going back on an error. For a memory
/// index alone, `read_rest` is inlined here, so that the compiler drops the other checks.
fn read_announced_out_of_line(
    reader: &mut BinaryReader<'_>,
    start: usize,
    flags: u32,
    max_align: u8,
    kind: MemArgKind,
) -> Result<MemArg>
    requires begun { start ≤ reader.old.position }
    requires flagged { HasRead (EncodesUnsigned 32) flags
        (at_position reader.old start) reader.old }
    ensures { ReadsAhead (EncodesMemArg reader.old.features kind max_align)
        (MemArgFault reader.old.features kind) result (at_position reader.old start) reader.new }
{
    if names_memory_alone(reader.features(), flags) {
        return read_rest(reader, start, flags, max_align, kind);
    }
    read_other(reader, start, flags, max_align, kind)
}

#[inline(never)]
fn read_other(
    reader: &mut BinaryReader<'_>,
    start: usize,
    flags: u32,
    max_align: u8,
    kind: MemArgKind,
) -> Result<MemArg>
    requires begun { start ≤ reader.old.position }
    requires flagged { HasRead (EncodesUnsigned 32) flags
        (at_position reader.old start) reader.old }
    ensures { ReadsAhead (EncodesMemArg reader.old.features kind max_align)
        (MemArgFault reader.old.features kind) result (at_position reader.old start) reader.new }
{
    read_rest(reader, start, flags, max_align, kind)
}

#[inline(always)]
fn read_rest(
    reader: &mut BinaryReader<'_>,
    start: usize,
    flags: u32,
    max_align: u8,
    kind: MemArgKind,
) -> Result<MemArg>
    requires begun { start ≤ reader.old.position }
    requires flagged { HasRead (EncodesUnsigned 32) flags
        (at_position reader.old start) reader.old }
    ensures { ReadsAhead (EncodesMemArg reader.old.features kind max_align)
        (MemArgFault reader.old.features kind) result (at_position reader.old start) reader.new }
{
    let features = reader.features();
    if names_both(features, flags) {
        return Err(reader.refuse(start, Message::MemoryAndArray));
    }
    let target = read_target(reader, features, flags)?;
    if orders_plain(features, kind, flags) {
        return Err(reader.refuse(start, Message::OrderingOnPlain));
    }
    let ordering = read_ordering(reader, features, flags, kind)?;
    if is_reserved(features, flags) {
        return Err(reader.refuse(start, Message::ReservedFlags));
    }
    let offset = read_offset(reader)?;
    Ok(MemArg {
        align: (flags % ORDERING) as u8,
        max_align,
        offset,
        target,
        ordering,
    })
}

#[inline(always)]
fn announces(features: WasmFeatures, feature: WasmFeatures, flags: u32, bit: u32) -> bool
    requires { 0 < bit }
    ensures { IsTrue result ↔ Announces features feature flags bit }
{
    features.contains(feature) && flags / bit % 2 == 1
}

#[inline(always)]
fn names_memory_alone(features: WasmFeatures, flags: u32) -> bool {
    flags / ORDERING == MEMORY_INDEX / ORDERING && features.contains(WasmFeatures::MULTI_MEMORY)
}

#[inline(always)]
fn names_both(features: WasmFeatures, flags: u32) -> bool
    ensures { IsTrue result ↔ NamesBoth features flags }
{
    announces(
        features,
        WasmFeatures::MULTIBYTE_ARRAY_ACCESS,
        flags,
        ARRAY_INDEX,
    ) && flags / MEMORY_INDEX % 2 == 1
}

#[inline(always)]
fn orders_plain(features: WasmFeatures, kind: MemArgKind, flags: u32) -> bool
    ensures { IsTrue result ↔ OrdersPlain features kind flags }
{
    kind == MemArgKind::Plain
        && announces(
            features,
            WasmFeatures::ACQUIRE_RELEASE_ATOMICS,
            flags,
            ORDERING,
        )
}

#[inline(always)]
fn is_reserved(features: WasmFeatures, flags: u32) -> bool
    ensures { IsTrue result ↔ IsReserved features flags }
{
    flags >= 2 * MEMORY_INDEX
        || flags / MEMORY_INDEX % 2 == 1 && !features.contains(WasmFeatures::MULTI_MEMORY)
        || flags / ARRAY_INDEX % 2 == 1 && !features.contains(WasmFeatures::MULTIBYTE_ARRAY_ACCESS)
        || flags / ORDERING % 2 == 1 && !features.contains(WasmFeatures::ACQUIRE_RELEASE_ATOMICS)
}

#[inline(always)]
fn read_target(
    reader: &mut BinaryReader<'_>,
    features: WasmFeatures,
    flags: u32,
) -> Result<MemArgTarget>
    ensures { Reads (IsTarget features flags) (TargetFault features flags) result reader.old reader.new }
{
    if announces(features, WasmFeatures::MULTI_MEMORY, flags, MEMORY_INDEX) {
        return match reader.read_var_u32() {
            Ok(index) => Ok(MemArgTarget::Memory(index)),
            Err(e) => Err(e),
        };
    }
    if announces(
        features,
        WasmFeatures::MULTIBYTE_ARRAY_ACCESS,
        flags,
        ARRAY_INDEX,
    ) {
        return match reader.read_var_u32() {
            Ok(index) => Ok(MemArgTarget::Array(index)),
            Err(e) => Err(e),
        };
    }
    Ok(MemArgTarget::Memory(0))
}

#[inline(always)]
fn read_ordering(
    reader: &mut BinaryReader<'_>,
    features: WasmFeatures,
    flags: u32,
    kind: MemArgKind,
) -> Result<Option<MemArgOrdering>>
    requires { ¬ OrdersPlain features kind flags }
    ensures { Reads (IsOrdering features kind flags) (OrderingFault features kind flags) result reader.old reader.new }
{
    if !announces(
        features,
        WasmFeatures::ACQUIRE_RELEASE_ATOMICS,
        flags,
        ORDERING,
    ) {
        return Ok(None);
    }
    let start = reader.current_position();
    let byte = match reader.read_u8() {
        Ok(byte) => byte,
        Err(e) => return Err(e),
    };
    match ordering_of(kind, byte) {
        Some(ordering) => Ok(Some(ordering)),
        None => Err(reader.refuse(start, Message::InvalidOrdering { byte, hex: true })),
    }
}

fn ordering_of(kind: MemArgKind, byte: u8) -> Option<MemArgOrdering>
    ensures some { IfSome result (IsOrderingByte kind byte) }
    ensures none { IfNone result ((o : _) → ¬ IsOrderingByte kind byte o) }
{
    match (kind, byte) {
        (MemArgKind::Op, 0x00) => Some(MemArgOrdering::Op(Ordering::SeqCst)),
        (MemArgKind::Op, 0x01) => Some(MemArgOrdering::Op(Ordering::AcqRel)),
        (MemArgKind::Rmw, 0x00) => Some(MemArgOrdering::Rmw(Ordering::SeqCst)),
        (MemArgKind::Rmw, 0x11) => Some(MemArgOrdering::Rmw(Ordering::AcqRel)),
        _ => None,
    }
}

#[inline(always)]
fn read_offset(reader: &mut BinaryReader<'_>) -> Result<u64>
    ensures { Reads (EncodesOffset reader.old.features) (OffsetFault reader.old.features) result reader.old reader.new }
{
    if reader.features().contains(WasmFeatures::MEMORY64) {
        return reader.read_var_u64();
    }
    match reader.read_var_u32() {
        Ok(offset) => Ok(u64::from(offset)),
        Err(e) => Err(e),
    }
}
