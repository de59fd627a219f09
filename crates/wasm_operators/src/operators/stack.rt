ghost use Rattle.std.specs.Prelude.{◌≡◌, ◌<◌, length, IfOk, IfErr};
ghost use Rattle.wasm_imm.specs.OutOfMemory.{IsOutOfMemoryAt};

use super::OperatorsReader;
use wasm_below::Result;
use wasm_grammar::FrameKind;
use wasm_instr::FrameStack;

impl<'a> OperatorsReader<'a> {
    /// Clones the reader, with no capacity for more frames. Fails with `OutOfMemory` at offset 0,
    /// and only if more than one frame is open.
    pub fn clone(&self) -> Result<OperatorsReader<'a>>
        ensures reader { IfOk result (λ copy. copy.reader ≡ self.now.reader) }
        ensures frames { IfOk result (λ copy. copy.frames ≡ self.now.frames) }
        ensures room { IfOk result (λ copy. copy.room ≡ 0) }
        ensures refused { IfErr result (λ e. IsOutOfMemoryAt 0 e × (1 < length self.now.frames)) }
    {
        match self.control.clone() {
            Ok(control) => Ok(OperatorsReader {
                alloc: self.alloc,
                reader: self.reader.clone(),
                control,
            }),
            Err(e) => Err(e),
        }
    }
}

impl<'a> FrameStack for OperatorsReader<'a> {
    ghost use Rattle.wasm_grammar.specs.Frames.{innermost};

    ghost frame = { λ r. innermost r.frames };

    #[inline(always)]
    fn current_frame(&self) -> Option<FrameKind> {
        self.control.last()
    }
}
