ghost use Rattle.std.specs.Prelude.{◌≡◌, ◌≢◌, ◌↔◌, ◌<◌, ◌⊎◌, ℕ, List, [], ◌∷◌, ◌++◌, length, Ok, Option, Some, IsTrue, IfOk, IfErr, IfSome, IfNone};
ghost use Rattle.wasm_operators.specs.below.declared.error.Error.{Error};
ghost use Rattle.wasm_operators.specs.below.Refusal.{IsReadFault};
ghost use Rattle.wasm_operators.specs.below.Source.{rest, BeginsWith};
ghost use Rattle.wasm_operators.specs.grammar.declared.frame_kind.FrameKind.{FrameKind};
ghost use Rattle.wasm_operators.specs.grammar.Frames.{innermost};
ghost use Rattle.wasm_operators.specs.instr.declared.operator.Operator.{Operator};
ghost use Rattle.wasm_operators.specs.instr.Encoding.{EncodesOperator};
ghost use Rattle.wasm_operators.specs.opcodes.Allowed.{EncodesAllowed};
ghost use Rattle.wasm_operators.specs.opcodes.declared.guard.Guard.{Guard};
ghost use Rattle.wasm_operators.specs.opcodes.OperatorFaults.{LacksFeature, OperatorFault};
ghost use Rattle.wasm_operators.specs.opcodes.Refused.{LeadsList};
ghost use Rattle.wasm_operators.specs.Expression.{Placed, EncodesExpression};
ghost use Rattle.wasm_operators.specs.Guarded.{BeginsGuarded, NextLacksFeature, NextIsMisplaced};
ghost use Rattle.wasm_operators.specs.Next.{ReadsNext};
ghost use Rattle.wasm_operators.specs.Reading.{SameReaderAndFrames};
ghost use Rattle.uses.specs.Complaints.{IsRefusal, IsComplaint};
ghost use Rattle.uses.specs.Input.{input};

use std::alloc::Global;
use wasm_operators::{
    BinaryReader, Error, FrameStack, IsEndOperatorVisitor, Message, Operator, OperatorsReader,
    OperatorsReaderAllocations, Result, WasmFeatures, decoder_laws, decoding_laws, grammar_laws,
    immediate_laws, operator_laws, reading_laws, run_laws,
};

#[derive(Clone, Copy, Debug, PartialEq, Eq)]
pub enum Complaint {
    /// The operator needs legacy exceptions, which are disabled.
    Feature,
    Frame,
    Other,
}

pub fn next_refusal(operators: &mut OperatorsReader<'_>) -> Option<Error>
    ensures { IsRefusal result operators.old operators.new }
{
    operators.read().err()
}

/// Returns the error of the next operator in an expression. The bytes of an operator never cause
/// E3, E8 to E11, E23 or E25 (law `refusal_messages`).
pub fn operator_refusal(operators: &mut OperatorsReader<'_>) -> Option<Error>
    ensures { IfSome result (λ e. e.message ≢ Message.OutOfMemory → IsReadFault e.message) }
{
    let Some(frame) = operators.current_frame() else {
        return None;
    };
    decoding_laws::refusal_messages(operators.get_binary_reader().features(), frame);
    next_refusal(operators)
}

/// Returns the error of the next operator in an expression for visitors without SIMD operators. Only
/// at the byte 0xfd, it differs from the error of `read` (law `simd_refusals`).
pub fn scalar_refusal(operators: &mut OperatorsReader<'_>) -> Option<Error>
    ensures there { BeginsWith 0xfd (rest operators.old.reader)
        → IfSome result (λ e. e.message ≢ Message.OutOfMemory → e.message ≡ Message.UnexpectedSimd) }
    ensures elsewhere { (frame : FrameKind) → innermost operators.old.frames ≡ Some frame
        → ¬ BeginsWith 0xfd (rest operators.old.reader) → IfSome result (λ e. e.message ≢ Message.OutOfMemory
        → OperatorFault operators.old.reader.features frame e.message operators.old.reader e.offset) }
{
    let Some(frame) = operators.current_frame() else {
        return None;
    };
    decoding_laws::simd_refusals(operators.get_binary_reader().features(), frame);
    match operators.visit_operator(&mut IsEndOperatorVisitor) {
        Ok(_) => None,
        Err(error) => Some(error),
    }
}

/// Returns why reading the next operator fails; `None` if it succeeds or allocation fails.
///
/// The laws `reads_lacking_feature` and `reads_in_wrong_frame` say when the first two complaints
/// are returned, and that such an operator is never read.
pub fn next_complaint(operators: &mut OperatorsReader<'_>) -> Option<Complaint>
    ensures why { IfSome result (λ why. IsComplaint operators.old why) }
    ensures feature { (g : Guard) → NextLacksFeature g operators.old → IfSome result (λ why. why ≡ Complaint.Feature) }
    ensures frame { (g : Guard) → NextIsMisplaced g operators.old → IfSome result (λ why. why ≡ Complaint.Frame) }
    ensures none { IfNone result ((refusal : Option Error) × IsRefusal refusal operators.old operators.new
        × IfSome refusal (λ e. e.message ≡ Message.OutOfMemory)) }
    ensures memory { IfNone result ((g : Guard) → NextLacksFeature g operators.old ⊎ NextIsMisplaced g operators.old
        → (e : Error) × IsRefusal (Some e) operators.old operators.new × (e.message ≡ Message.OutOfMemory)) }
{
    decoding_laws::reads_lacking_feature();
    decoding_laws::reads_in_wrong_frame();
    let Some(error) = next_refusal(operators) else {
        return None;
    };
    match error.message() {
        Message::OutOfMemory => None,
        Message::FeatureRequired(_) => Some(Complaint::Feature),
        Message::WrongFrame(_, _) => Some(Complaint::Frame),
        _ => Some(Complaint::Other),
    }
}

/// Returns like `next_complaint`, but `None` if no frame is open. The laws about one operator in a
/// frame, `features_required`, `wrong_frames` and `operator_refusals`, determine the error.
pub fn why_refused(operators: &mut OperatorsReader<'_>) -> Option<Complaint>
    ensures why { IfSome result (λ why. IsComplaint operators.old why) }
    ensures feature { (g : Guard) → BeginsGuarded g operators.old.reader → LacksFeature operators.old.reader.features g
        → IfSome result (λ why. why ≡ Complaint.Feature) }
    ensures none { IfNone result ((operators.old.frames ≡ []) ⊎ ((refusal : Option Error)
        × IsRefusal refusal operators.old operators.new × IfSome refusal (λ e. e.message ≡ Message.OutOfMemory))) }
{
    let Some(frame) = operators.current_frame() else {
        return None;
    };
    let features = operators.get_binary_reader().features();
    decoding_laws::features_required(features, frame);
    decoding_laws::wrong_frames(features, frame);
    decoder_laws::operator_refusals(features, Some(frame));
    let Some(error) = next_refusal(operators) else {
        return None;
    };
    match error.message() {
        Message::OutOfMemory => None,
        Message::FeatureRequired(_) => Some(Complaint::Feature),
        Message::WrongFrame(_, _) => Some(Complaint::Frame),
        _ => Some(Complaint::Other),
    }
}

/// Reads the next operator again if a read fails, and returns both errors, equal unless allocation
/// failed (laws `not_taken` and `refused_again`).
pub fn asked_twice(operators: &mut OperatorsReader<'_>) -> Option<(Error, Error)>
    ensures again { IfSome result (λ both. both.1.message ≢ Message.OutOfMemory
        → (both.0.message ≡ both.1.message) × (both.0.offset ≡ both.1.offset)) }
    ensures read_or_memory { IfNone result ((first : Option Error) × IsRefusal first operators.old operators.new
        × IfSome first (λ e. e.message ≡ Message.OutOfMemory)) }
{
    reading_laws::refused_again();
    reading_laws::not_taken();
    let Some(first) = next_refusal(operators) else {
        return None;
    };
    if let Message::OutOfMemory = first.message() {
        return None;
    }
    match next_refusal(operators) {
        Some(second) => Some((first, second)),
        None => unreachable!(),
    }
}

/// Reads the next operator from two readers in the same state. On `Ok`, results and effects agree
/// (law `same_result`).
pub fn read_in_step<'a>(
    first: &mut OperatorsReader<'a>,
    second: &mut OperatorsReader<'a>,
) -> Result<(Operator<'a>, Operator<'a>)>
    requires { SameReaderAndFrames first.old second.old }
    ensures read { IfOk result (λ both. ReadsNext (Ok both.0) first.old first.new) }
    ensures same { IfOk result (λ both. both.0 ≡ both.1) }
    ensures agree { IfOk result (λ both. SameReaderAndFrames first.new second.new) }
{
    reading_laws::same_result();
    let operator = first.read()?;
    let other = second.read()?;
    Ok((operator, other))
}

/// Reads the first operator of an expression, with capacity for its frame. So allocation can fail
/// only for an operator that may own a list (law `memory_asked`). After another error, no first
/// operator of an expression is encoded there.
pub fn first_operator<'a>(
    alloc: Global,
    reader: BinaryReader<'a>,
    allocs: OperatorsReaderAllocations,
) -> Result<Operator<'a>>
    requires { 0 < allocs }
    ensures reads { IfOk result (λ op. (text more : List ℕ) × (rest reader.entry ≡ text ++ more)
        × EncodesAllowed reader.entry.features FrameKind.Block text op) }
    ensures memory { IfErr result (λ e. e.message ≡ Message.OutOfMemory
        → (byte : ℕ) × LeadsList byte × BeginsWith byte (rest reader.entry)) }
    ensures none { IfErr result (λ e. e.message ≢ Message.OutOfMemory → (op : Operator) (text more : List ℕ)
        → rest reader.entry ≡ text ++ more → EncodesAllowed reader.entry.features FrameKind.Block text op → ⊥) }
{
    decoding_laws::memory_asked();
    OperatorsReader::new_with_allocs(alloc, reader, allocs).read()
}

/// Reads the next operator, and returns its length in bytes. No other operator is encoded there
/// (law `operators`).
pub fn operator_size(operators: &mut OperatorsReader<'_>) -> Result<usize>
    ensures { (op : Operator) (text more : List ℕ) → rest operators.old.reader ≡ text ++ more
        → EncodesOperator operators.old.reader.features text op → IfOk result (λ size. size ≡ length text) }
{
    let before = operators.get_binary_reader();
    operator_laws::operators(before.features());
    let _operator = operators.read()?;
    Ok(operators.get_binary_reader().current_position() - before.current_position())
}

pub fn is_whole(operators: &OperatorsReader<'_>) -> bool
    ensures { IsTrue result ↔ ((operators.now.frames ≡ []) × (rest operators.now.reader ≡ [])) }
{
    match operators.finish() {
        Ok(()) => true,
        Err(_) => false,
    }
}

/// Reads the first operator of an expression, and then the others. If the bytes encode an
/// expression, only allocation can fail.
///
/// By the laws `one_operator` and `single_reads`, all operators are one list, to which
/// `read_to_the_end` applies. By `place_after`, they follow each other, and by
/// `rules_accept_walks`, the frame of an expression allows the first.
pub fn first_and_rest<'a>(
    alloc: Global,
    features: WasmFeatures,
    bytes: &'a [u8],
) -> Result<(Operator<'a>, Vec<(Operator<'a>, u64)>)>
    ensures found { IfOk result (λ found. EncodesExpression (input features bytes.now) ((found.0, 0) ∷ found.1.items)) }
    ensures only { (whole : Placed) → EncodesExpression (input features bytes.now) whole
        → IfErr result (λ e. e.message ≡ Message.OutOfMemory) }
{
    grammar_laws::rules_accept_walks::<Operator<'_>>();
    immediate_laws::place_after();
    run_laws::one_operator();
    run_laws::single_reads();
    run_laws::read_to_the_end();
    let mut reader = OperatorsReader::new(alloc, BinaryReader::new_features(bytes, 0, features));
    let first = reader.read()?;
    let mut others = Vec::new(alloc);
    reader.read_all(&mut others)?;
    Ok((first, others))
}
