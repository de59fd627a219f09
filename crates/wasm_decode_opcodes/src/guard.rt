//! The operators whose feature and frame are checked: `else`, and the legacy exception operators.
ghost use Rattle.std.specs.Prelude.{◌≡◌, ◌≤◌, ◌<◌, ◌+◌, ℕ, List, IsTrue, ◌↔◌, false, None, Err, IfOk, IfErr};
ghost use Rattle.wasm_below.specs.Features.{HasFeature, legacy_exceptions};
ghost use Rattle.wasm_below.specs.Source.{at_position};
ghost use Rattle.wasm_grammar.specs.Frames.{Allows};
ghost use Rattle.wasm_imm.specs.Immediate.{Kind};
ghost use Rattle.wasm_decode_opcodes.specs.Decoding.{IsAfterCode, DecodesOperatorAt};
ghost use Rattle.wasm_decode_opcodes.specs.Entries.{entry_at};
ghost use Rattle.wasm_decode_opcodes.specs.Entry.{guarded, guarded_role, guarded_instruction, needed_frame, NeedsLegacy};
ghost use Rattle.wasm_decode_opcodes.specs.OperatorFaults.{GuardFault, LacksFeature};

use wasm_below::{BinaryReader, Error, FrameName, InstructionName, Message, Result, WasmFeatures};
use wasm_grammar::FrameKind;

/// An operator whose feature and frame are checked before its immediates.
#[derive(Clone, Copy, Debug, PartialEq, Eq)]
pub enum Guard {
    /// `else`, allowed only in an `if`.
    Else,
    /// `try` of the legacy exceptions, allowed in any frame.
    Try,
    /// `catch`, allowed in a `try` or after another `catch`.
    Catch,
    /// `catch_all`, allowed in a `try` or after a `catch`.
    CatchAll,
    /// `delegate`, allowed only in a `try`. It needs no feature.
    Delegate,
}

impl Guard {
    /// Checks the feature and then the frame, without reading.
    ///
    /// Fails with `FeatureRequired` at the operator's start, or with `WrongFrame` at the offset
    /// after its opcode. On an error the reader goes back to the position `start`.
    #[inline(always)]
    pub fn check(self, reader: &mut BinaryReader<'_>, start: usize, frame: FrameKind) -> Result<()>
        requires { start ≤ reader.old.position }
        ensures stays { IfOk result (λ u. reader.new ≡ reader.old) }
        ensures feature { IfOk result (λ u. NeedsLegacy self → HasFeature legacy_exceptions reader.old.features) }
        ensures allows { IfOk result (λ u. Allows frame (guarded_role self)) }
        ensures back { IfErr result (λ e. reader.new ≡ at_position reader.old start) }
        ensures fault { IfErr result
            (λ e. GuardFault reader.old.features frame (reader.old.start + start) self (λ m r offset. ⊥)
            e.message reader.old e.offset) }
        ensures refuses { IfErr result
            (λ e. (code : ℕ) (ks : List Kind) → code < 256 → IsAfterCode start None code reader.old
            → entry_at None code ≡ guarded self ks
            → DecodesOperatorAt frame start (Err e) reader.old reader.new) }
    {
        if self.lacks_feature(reader) {
            return Err(reader.refuse(start, Message::FeatureRequired(self.instruction())));
        }
        if !self.allows(frame) {
            return Err(self.wrong_frame(reader, start));
        }
        Ok(())
    }

    /// Returns whether the operator needs a feature that is off.
    #[inline(always)]
    fn lacks_feature(self, reader: &BinaryReader<'_>) -> bool
        ensures lacks { IsTrue result → LacksFeature reader.now.features self }
        ensures has { result ≡ false → NeedsLegacy self → HasFeature legacy_exceptions reader.now.features }
    {
        match self {
            Guard::Else | Guard::Delegate => false,
            Guard::Try | Guard::Catch | Guard::CatchAll => !reader
                .features()
                .contains(WasmFeatures::LEGACY_EXCEPTIONS),
        }
    }

    /// Returns whether this frame allows the operator.
    #[inline(always)]
    fn allows(self, frame: FrameKind) -> bool
        ensures { IsTrue result ↔ Allows frame (guarded_role self) }
    {
        match self {
            Guard::Else => matches!(frame, FrameKind::If),
            Guard::Try => true,
            Guard::Catch | Guard::CatchAll => {
                matches!(frame, FrameKind::LegacyTry | FrameKind::LegacyCatch)
            }
            Guard::Delegate => matches!(frame, FrameKind::LegacyTry),
        }
    }

    /// Returns the error of a frame that does not allow the operator, at the offset after the
    /// opcode. The reader goes back to `start`.
    #[cold]
    #[inline(never)]
    fn wrong_frame(self, reader: &mut BinaryReader<'_>, start: usize) -> Error
        requires { start ≤ reader.old.position }
        ensures back { reader.new ≡ at_position reader.old start }
        ensures message { result.message ≡ Message.WrongFrame (guarded_instruction self) (needed_frame self) }
        ensures offset { result.offset ≡ reader.old.start + reader.old.position }
    {
        let message = Message::WrongFrame(self.instruction(), self.needed());
        let offset = reader.original_position();
        reader.rewind(start);
        Error::new(message, offset)
    }

    /// Returns the name of the operator in messages.
    fn instruction(self) -> InstructionName
        ensures { result ≡ guarded_instruction self }
    {
        match self {
            Guard::Else => InstructionName::Else,
            Guard::Try => InstructionName::Try,
            Guard::Catch => InstructionName::Catch,
            Guard::CatchAll => InstructionName::CatchAll,
            Guard::Delegate => InstructionName::Delegate,
        }
    }

    /// Returns the name of the frame that the operator needs, in messages.
    fn needed(self) -> FrameName
        ensures { result ≡ needed_frame self }
    {
        match self {
            Guard::Else => FrameName::If,
            _ => FrameName::LegacyTry,
        }
    }
}
