use wasm_grammar::FrameKind;

/// Returns the kind of frame with this name.
pub fn frame_named(name: &str) -> Option<FrameKind> {
    Some(match name {
        "Block" => FrameKind::Block,
        "If" => FrameKind::If,
        "Else" => FrameKind::Else,
        "Loop" => FrameKind::Loop,
        "TryTable" => FrameKind::TryTable,
        "LegacyTry" => FrameKind::LegacyTry,
        "LegacyCatch" => FrameKind::LegacyCatch,
        "LegacyCatchAll" => FrameKind::LegacyCatchAll,
        _ => return None,
    })
}
