use bitflags::Flags;
use wasm_below::WasmFeatures;
use wasm_grammar::FrameKind;
use wasm_tests_texts::frame_named;

#[derive(Clone, Copy, Debug)]
pub struct Task {
    pub features: WasmFeatures,
    pub frame: Option<FrameKind>,
    pub before: usize,
}

/// Parses the features as a number, the frame, and the number of bytes before the operator.
pub fn task_of(features: &str, frame: &str, before: &str) -> Option<Task> {
    Some(Task {
        features: WasmFeatures::from_bits_retain(features.parse::<u32>().ok()?),
        frame: frame_of(frame)?,
        before: before.parse::<u32>().ok()? as usize,
    })
}

/// Returns `Some(None)` for the word `None` (no frame is open), the frame kind of another name, or
/// `None` for any other word.
fn frame_of(word: &str) -> Option<Option<FrameKind>> {
    match word {
        "None" => Some(None),
        _ => Some(Some(frame_named(word)?)),
    }
}
