ghost use Rattle.std.specs.Prelude.{◌≡◌, option_map};
ghost use Rattle.wasm_listing.specs.Words.{bits_of_word};

use bitflags::Flags;
use bitflags::parser::from_str_strict;
use wasm_operators::WasmFeatures;

/// Returns the features that a word names: all for `all` or no word, none for `none`, otherwise the
/// features separated by `|`. Returns `None` at an unknown name.
pub fn features_of(word: Option<&str>) -> Option<WasmFeatures>
    ensures { option_map (λ features. features.0) result ≡ bits_of_word (option_map (λ text. text.now) word.entry) }
{
    let Some(text) = word else {
        return Some(WasmFeatures::all());
    };
    if text == "all" {
        return Some(WasmFeatures::all());
    }
    if text == "none" {
        return Some(WasmFeatures::empty());
    }
    from_str_strict(text).ok()
}
