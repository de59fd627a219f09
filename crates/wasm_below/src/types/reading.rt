ghost use Rattle.std.specs.Prelude.{◌≡◌, ◌≢◌, ◌≤◌, IsTrue, ◌↔◌, IfSome, IfNone};
ghost use Rattle.wasm_below.specs.declared.types.AbstractHeapType.{AbstractHeapType};
ghost use Rattle.wasm_below.specs.Source.{Reads, BeginsWith, rest};
ghost use Rattle.wasm_below.specs.TypeEncoding.{heap_type_byte, ref_byte, LeadsShort, LeadsRefType, LedBy, EncodesShort, EncodesConcrete, EncodesExact, EncodesHeapType, EncodesShortRef, EncodesLongRef, EncodesRefType, EncodesNumberType, EncodesValType, ShortFault, ByteFault, ExactFault, ConcreteFault, HeapTypeFault, RefTypeFault, ValTypeFault};

use super::{AbstractHeapType, HeapType, MAX_TYPE_INDEX, RefType, ValType};
use crate::{BinaryReader, Error, Message, Result, TypeName};

const SHARED: u8 = 0x65;

const EXACT: u8 = 0x62;

const REF_NULL: u8 = 0x63;

const REF: u8 = 0x64;

impl AbstractHeapType {
    /// Returns the byte that encodes the type if it is not shared. Specification: Binary Format,
    /// Heap Types.
    pub fn byte(self) -> u8
        ensures is { result ≡ heap_type_byte self }
        ensures low { 0x68 ≤ result }
        ensures high { result ≤ 0x75 }
    {
        match self {
            AbstractHeapType::Cont => 0x68,
            AbstractHeapType::Exn => 0x69,
            AbstractHeapType::Array => 0x6a,
            AbstractHeapType::Struct => 0x6b,
            AbstractHeapType::I31 => 0x6c,
            AbstractHeapType::Eq => 0x6d,
            AbstractHeapType::Any => 0x6e,
            AbstractHeapType::Extern => 0x6f,
            AbstractHeapType::Func => 0x70,
            AbstractHeapType::None => 0x71,
            AbstractHeapType::NoExtern => 0x72,
            AbstractHeapType::NoFunc => 0x73,
            AbstractHeapType::NoExn => 0x74,
            AbstractHeapType::NoCont => 0x75,
        }
    }

    fn from_byte(code: u8) -> Option<AbstractHeapType>
        ensures some { IfSome result (λ ty. heap_type_byte ty ≡ code) }
        ensures none { IfNone result ((ty : AbstractHeapType) → heap_type_byte ty ≢ code) }
    {
        match code {
            0x68 => Some(AbstractHeapType::Cont),
            0x69 => Some(AbstractHeapType::Exn),
            0x6a => Some(AbstractHeapType::Array),
            0x6b => Some(AbstractHeapType::Struct),
            0x6c => Some(AbstractHeapType::I31),
            0x6d => Some(AbstractHeapType::Eq),
            0x6e => Some(AbstractHeapType::Any),
            0x6f => Some(AbstractHeapType::Extern),
            0x70 => Some(AbstractHeapType::Func),
            0x71 => Some(AbstractHeapType::None),
            0x72 => Some(AbstractHeapType::NoExtern),
            0x73 => Some(AbstractHeapType::NoFunc),
            0x74 => Some(AbstractHeapType::NoExn),
            0x75 => Some(AbstractHeapType::NoCont),
            _ => None,
        }
    }
}

impl HeapType {
    /// Reads a heap type. Specification: Types, Heap Types.
    ///
    /// Fails with `InvalidType` at the start of the type if the byte after 0x65 is no abstract heap
    /// type, or the index is negative or above 1048575. Otherwise fails with `EndOfData`, like
    /// `read_var_u32` after 0x62, or like `read_var_s33`.
    #[inline(never)]
    pub fn read(reader: &mut BinaryReader<'_>) -> Result<HeapType>
        ensures { Reads EncodesHeapType HeapTypeFault result reader.old reader.new }
    {
        if let Ok(byte @ 0x00..=0x3f) = reader.peek() {
            reader.advance();
            return Ok(HeapType::Concrete(u32::from(byte)));
        }
        HeapType::read_other(reader)
    }

    /// Reads like `read`, which is faster for an index of one byte.
    #[inline(never)]
    fn read_other(reader: &mut BinaryReader<'_>) -> Result<HeapType>
        ensures { Reads EncodesHeapType HeapTypeFault result reader.old reader.new }
    {
        let byte = reader.peek()?;
        if leads_short(byte) {
            return HeapType::read_short(reader, TypeName::HeapType);
        }
        if byte == EXACT {
            return HeapType::read_exact(reader);
        }
        HeapType::read_concrete(reader)
    }

    fn read_short(reader: &mut BinaryReader<'_>, name: TypeName) -> Result<HeapType>
        ensures { Reads EncodesShort (ShortFault name) result reader.old reader.new }
    {
        let mut ahead = reader.clone();
        let byte = ahead.read_u8()?;
        if byte != SHARED {
            return match AbstractHeapType::from_byte(byte) {
                Some(ty) => {
                    *reader = ahead;
                    Ok(HeapType::Abstract { shared: false, ty })
                }
                None => Err(Error::new(Message::InvalidType(name), reader.original_position())),
            };
        }
        let code = ahead.read_u8()?;
        match AbstractHeapType::from_byte(code) {
            Some(ty) => {
                *reader = ahead;
                Ok(HeapType::Abstract { shared: true, ty })
            }
            None => Err(Error::new(Message::InvalidType(name), reader.original_position())),
        }
    }

    fn read_concrete(reader: &mut BinaryReader<'_>) -> Result<HeapType>
        ensures { Reads EncodesConcrete ConcreteFault result reader.old reader.new }
    {
        let start = reader.current_position();
        let index = reader.read_var_s33()?;
        if index < 0 || index > i64::from(MAX_TYPE_INDEX) {
            return Err(reader.refuse(start, Message::InvalidType(TypeName::HeapType)));
        }
        Ok(HeapType::Concrete(index as u32))
    }

    fn read_exact(reader: &mut BinaryReader<'_>) -> Result<HeapType>
        requires { BeginsWith 0x62 (rest reader.old) }
        ensures { Reads EncodesExact ExactFault result reader.old reader.new }
    {
        let mut ahead = reader.clone();
        ahead.advance();
        let index = ahead.read_var_u32()?;
        if index > MAX_TYPE_INDEX {
            return Err(Error::new(
                Message::InvalidType(TypeName::HeapType),
                reader.original_position(),
            ));
        }
        *reader = ahead;
        Ok(HeapType::Exact(index))
    }
}

impl RefType {
    /// Reads a reference type. Specification: Types, Reference Types.
    ///
    /// Fails with `InvalidType` at the start if the first byte starts no reference type, or is 0x65
    /// and the second is no abstract heap type. Otherwise fails with `EndOfData`, or like
    /// `HeapType::read` after 0x63 or 0x64.
    #[inline(never)]
    pub fn read(reader: &mut BinaryReader<'_>) -> Result<RefType>
        ensures { Reads EncodesRefType RefTypeFault result reader.old reader.new }
    {
        let byte = reader.peek()?;
        if byte == REF_NULL {
            return RefType::read_long(reader, true);
        }
        if byte == REF {
            return RefType::read_long(reader, false);
        }
        RefType::read_short(reader)
    }

    fn read_short(reader: &mut BinaryReader<'_>) -> Result<RefType>
        ensures { Reads EncodesShortRef (ShortFault TypeName.ReferenceType) result reader.old reader.new }
    {
        let heap_type = HeapType::read_short(reader, TypeName::ReferenceType)?;
        Ok(RefType::of(true, heap_type))
    }

    fn read_long(reader: &mut BinaryReader<'_>, nullable: bool) -> Result<RefType>
        requires { BeginsWith (ref_byte nullable) (rest reader.old) }
        ensures { Reads EncodesLongRef RefTypeFault result reader.old reader.new }
    {
        let mut ahead = reader.clone();
        ahead.advance();
        let heap_type = HeapType::read_other(&mut ahead)?;
        *reader = ahead;
        Ok(RefType::of(nullable, heap_type))
    }
}

impl ValType {
    /// Reads a value type. Specification: Types, Value Types.
    ///
    /// Fails with `InvalidType` at a first byte that starts none, otherwise like `RefType::read`.
    #[inline(always)]
    pub fn read(reader: &mut BinaryReader<'_>) -> Result<ValType>
        ensures { Reads EncodesValType ValTypeFault result reader.old reader.new }
    {
        let byte = reader.peek()?;
        if leads_ref_type(byte) {
            return ValType::read_reference(reader);
        }
        ValType::read_number(reader)
    }

    /// Reads a reference type by `RefType::read`, which is not inlined. Only here is that call's
    /// result stored in memory.
    #[inline(always)]
    fn read_reference(reader: &mut BinaryReader<'_>) -> Result<ValType>
        requires { LedBy LeadsRefType (rest reader.old) }
        ensures { Reads EncodesValType ValTypeFault result reader.old reader.new }
    {
        match RefType::read(reader) {
            Ok(ty) => Ok(ValType::Ref(ty)),
            Err(e) => Err(e),
        }
    }

    #[inline(always)]
    fn read_number(reader: &mut BinaryReader<'_>) -> Result<ValType>
        ensures { Reads EncodesNumberType (ByteFault TypeName.ValueType) result reader.old reader.new }
    {
        let start = reader.current_position();
        match reader.read_u8()? {
            0x7f => Ok(ValType::I32),
            0x7e => Ok(ValType::I64),
            0x7d => Ok(ValType::F32),
            0x7c => Ok(ValType::F64),
            0x7b => Ok(ValType::V128),
            _ => Err(reader.refuse(start, Message::InvalidType(TypeName::ValueType))),
        }
    }
}

#[inline(always)]
fn leads_short(byte: u8) -> bool
    ensures { IsTrue result ↔ LeadsShort byte }
{
    byte == SHARED || matches!(byte, 0x68..=0x75)
}

#[inline(always)]
fn leads_ref_type(byte: u8) -> bool
    ensures { IsTrue result ↔ LeadsRefType byte }
{
    byte == REF_NULL || byte == REF || leads_short(byte)
}
