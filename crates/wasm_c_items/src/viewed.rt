ghost use Rattle.std.specs.Prelude.{◌≡◌, ℕ};
ghost use Rattle.wasm_c_items.specs.Views.{ReturnsView};

use std::alloc::Global;
use wasm_c::WasmRefusal;
use wasm_c_sections::{WasmItems, next_item};
use wasm_grammars::Read;

/// A type of items that calls return as C structs.
pub trait Viewed<'a>: Read<'a> {
    type View: Copy;

    /// The C struct of an item that ends at this offset; a list in it has these features.
    ghost view_of: { ℕ → ℕ → Self → Self.View };

    fn view(self, end: u64, features: u32) -> Self::View
        ensures { result ≡ view_of end features self };
}

/// Reads the next item, and writes its C struct.
pub fn place_view<'a, T: Viewed<'a>>(
    alloc: Global,
    bytes: &'a [u8],
    items: &mut WasmItems,
    view: &mut T::View,
) -> WasmRefusal
    ensures { ReturnsView T.grammar T.view_of result bytes.now items.old items.new view.old view.new }
{
    match next_item::<T>(alloc, bytes, items) {
        Ok((found, left)) => {
            *view = found.view(left.offset, left.features);
            *items = left;
            WasmRefusal::none(left.offset)
        }
        Err(refused) => refused,
    }
}
