//! The kinds of values that `wasm_read_value` reads.
ghost use Rattle.std.specs.Prelude.{◌≡◌, slice_get};
ghost use Rattle.wasm_c.specs.Values.{value_kinds};

#[derive(Drop)]
pub enum ValueKind {
    U8,
    /// Four bytes, little-endian.
    U32,
    /// Eight bytes, little-endian.
    U64,
    /// LEB128 of the type in the name, like the next four.
    VarU32,
    VarU64,
    VarI32,
    VarS33,
    VarI64,
    /// The count of a list, with a limit.
    Size,
    Bytes,
    /// A number of bytes, and the bytes.
    Sized,
    /// The locals of a body.
    Locals,
    /// A constant expression.
    Constant,
    ValueType,
    ReferenceType,
    HeapType,
    BlockType,
    /// A declaration of locals.
    Local,
    /// A clause of a `try_table`.
    Catch,
    /// A clause of a resume table.
    Clause,
}

impl ValueKind {
    /// Returns the kind with this number, counted from 0.
    pub fn numbered(number: u32) -> Option<ValueKind>
        ensures { result ≡ slice_get value_kinds number }
    {
        Some(match number {
            0 => ValueKind::U8,
            1 => ValueKind::U32,
            2 => ValueKind::U64,
            3 => ValueKind::VarU32,
            4 => ValueKind::VarU64,
            5 => ValueKind::VarI32,
            6 => ValueKind::VarS33,
            7 => ValueKind::VarI64,
            8 => ValueKind::Size,
            9 => ValueKind::Bytes,
            10 => ValueKind::Sized,
            11 => ValueKind::Locals,
            12 => ValueKind::Constant,
            13 => ValueKind::ValueType,
            14 => ValueKind::ReferenceType,
            15 => ValueKind::HeapType,
            16 => ValueKind::BlockType,
            17 => ValueKind::Local,
            18 => ValueKind::Catch,
            19 => ValueKind::Clause,
            _ => return None,
        })
    }
}
