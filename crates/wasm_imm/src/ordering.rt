ghost use Rattle.std.specs.Prelude.{◌≤◌, IfErr};
ghost use Rattle.wasm_below.specs.Source.{Reads, offset_of, ReadsFrom};
ghost use Rattle.wasm_imm.specs.Orderings.{EncodesOrderingByte, EncodesFence, OrderingByteFault, FenceFault};

use wasm_below::{BinaryReader, Error, Message, Result, WasmFeatures};

/// The order in which threads see an atomic operation.
#[derive(Clone, Copy, Debug, PartialEq, Eq, Hash)]
pub enum Ordering {
    /// A load acquires, a store releases.
    AcqRel,
    /// A load acquires, a store releases, and all threads see all `SeqCst` operations in one order.
    SeqCst,
}

impl Ordering {
    /// Reads an ordering byte. Proposal shared-everything threads. Fails with `EndOfData`, or with
    /// `InvalidOrdering` at the byte.
    #[inline(never)]
    pub fn read(reader: &mut BinaryReader<'_>) -> Result<Ordering>
        ensures { Reads EncodesOrderingByte OrderingByteFault result reader.old reader.new }
    {
        let start = reader.current_position();
        match reader.read_u8() {
            Ok(0x00) => Ok(Ordering::SeqCst),
            Ok(0x01) => Ok(Ordering::AcqRel),
            Ok(byte) => Err(reader.refuse(start, Message::InvalidOrdering { byte, hex: false })),
            Err(e) => Err(e),
        }
    }

    /// Reads the byte of an `atomic.fence` that starts at the offset `start`. Proposal threads.
    ///
    /// With acquire-release atomics, reads like `read`. Without them, reads the byte 0, or fails
    /// with `EndOfData`, or with `NonzeroAfterFence` at `start`.
    #[inline(never)]
    pub fn read_fence(reader: &mut BinaryReader<'_>, start: u64) -> Result<Ordering>
        requires { start ≤ offset_of reader.old }
        ensures { ReadsFrom start (EncodesFence reader.old.features) (FenceFault reader.old.features start)
            result reader.old reader.new }
    {
        if reader
            .features()
            .contains(WasmFeatures::ACQUIRE_RELEASE_ATOMICS)
        {
            return Ordering::read(reader);
        }
        let mut ahead = reader.clone();
        match ahead.read_u8() {
            Ok(0x00) => {
                *reader = ahead;
                Ok(Ordering::SeqCst)
            }
            Ok(_) => Err(Error::new(Message::NonzeroAfterFence, start)),
            Err(e) => Err(e),
        }
    }
}
