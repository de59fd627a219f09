ghost use Rattle.std.specs.Prelude.{◌≡◌};
ghost use Rattle.wasm_view.specs.View.{bare};

/// An operator as a C struct of 64 bytes. `shape` determines which fields are used; the others are
/// 0.
#[repr(C)]
#[derive(Clone, Copy, Debug, PartialEq, Eq)]
pub struct WasmOperator {
    pub offset: u64,
    /// An integer, sign-extended; the bits of a float; or a static offset in bytes.
    pub wide: u64,
    /// The opcode; after a prefix byte the subopcode, plus 65536 times that byte.
    pub opcode: u32,
    /// An index, or the number of a list's members; so are the next two fields.
    pub first: u32,
    pub second: u32,
    pub third: u32,
    /// A type: its byte, and what is added to it.
    pub kind: u32,
    /// The target type of a cast.
    pub other_kind: u32,
    pub shape: u8,
    /// The alignment, as an exponent of two.
    pub align: u8,
    /// The natural alignment, as an exponent of two.
    pub max_align: u8,
    pub lane: u8,
    /// 0 for access to the memory `first`, 1 for access to an array of that type.
    pub target: u16,
    /// 0 for none, 1 for `seq_cst`, 2 for `acq_rel`; 3 and 4 for these of a read-modify-write.
    pub ordering: u16,
    /// A vector, the lowest byte first; or the lanes of a shuffle.
    pub bytes: [u8; 16],
}

impl WasmOperator {
    #[inline(always)]
    pub fn bare(offset: u64, opcode: u32, shape: u8) -> WasmOperator
        ensures { result ≡ bare offset opcode shape }
    {
        WasmOperator {
            offset,
            wide: 0,
            opcode,
            first: 0,
            second: 0,
            third: 0,
            kind: 0,
            other_kind: 0,
            shape,
            align: 0,
            max_align: 0,
            lane: 0,
            target: 0,
            ordering: 0,
            bytes: [0; 16],
        }
    }
}
