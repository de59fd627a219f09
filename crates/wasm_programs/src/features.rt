use std::alloc::{AllocError, Global};
use wasm_listing::features_of;
use wasm_operators::WasmFeatures;

/// Returns the features that a word names: `all`, `none`, or names in capital or small letters, with
/// commas or bars between them.
pub fn named_features(alloc: Global, word: &str) -> Result<Option<WasmFeatures>, AllocError> {
    let small = word.to_ascii_lowercase(alloc)?;
    if let Some(features) = features_of(Some(small.as_str())) {
        return Ok(Some(features));
    }
    let capital = word.to_ascii_uppercase(alloc)?;
    let joined = capital.as_str().replace(alloc, ',', "|")?;
    Ok(features_of(Some(joined.as_str())))
}
