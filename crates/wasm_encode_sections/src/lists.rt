ghost use Rattle.std.specs.Prelude.{◌<◌, [], length};
ghost use Rattle.wasm_grammars.specs.Grammar.{thing};
ghost use Rattle.wasm_grammars.specs.Parts.{counted, more};
ghost use Rattle.wasm_sections.specs.Items.{items};
ghost use Rattle.wasm_write_grammars.specs.Writing.{AppendsBy, MemberReason, ListReason};
ghost use Rattle.wasm_encode_sections.specs.ItemReasons.{ItemsReason};

use crate::write::Write;
use wasm_below::{Message, NumberName, SizeName, WasmFeatures};
use wasm_write_grammars::{append_size, append_u32};

/// Appends each member.
fn append_each<T: Write>(
    out: &mut Vec<u8>,
    features: WasmFeatures,
    members: &[T],
) -> Result<(), Message>
    ensures { AppendsBy (more (length members.now) (thing (T.grammar features)) []) (MemberReason (T.reason features))
        members.now result out.old.items out.new.items }
{
    for member in members {
        member.append_to(features, out)?;
    }
    Ok(())
}

/// Appends the number of members, and each member.
///
/// Fails with `SizeOutOfBounds` if there are more than `limit`, or like the first member that fails.
/// Then bytes may have been appended.
pub fn append_list<T: Write>(
    out: &mut Vec<u8>,
    features: WasmFeatures,
    limit: usize,
    desc: SizeName,
    members: &[T],
) -> Result<(), Message>
    requires { limit < 4294967296 }
    ensures { AppendsBy (counted limit desc (thing (T.grammar features))) (ListReason limit desc (T.reason features))
        members.now result out.old.items out.new.items }
{
    append_size(out, limit, desc, members.len())?;
    append_each(out, features, members)?;
    Ok(())
}

/// Appends the number of items, and each item, as the contents of a section.
///
/// Fails with `IntegerTooLarge` for 2^32 items or more, or like the first item that fails. Then bytes
/// may have been appended.
pub fn append_items<T: Write>(
    out: &mut Vec<u8>,
    features: WasmFeatures,
    members: &[T],
) -> Result<(), Message>
    ensures { AppendsBy (items (T.grammar features)) (ItemsReason (T.reason features)) members.now result out.old.items out.new.items }
{
    if members.len() > 0xffff_ffff {
        return Err(Message::IntegerTooLarge(NumberName::VarU32));
    }
    append_u32(out, members.len() as u32)?;
    append_each(out, features, members)?;
    Ok(())
}
