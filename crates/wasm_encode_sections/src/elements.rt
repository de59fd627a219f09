ghost use Rattle.std.specs.Prelude.{◌≡◌, ℕ, List, is_some};
ghost use Rattle.wasm_below.specs.declared.features.WasmFeatures.{WasmFeatures};
ghost use Rattle.wasm_grammars.specs.Grammar.{Encodes};
ghost use Rattle.wasm_segments.specs.declared.element.Element.{Element};
ghost use Rattle.wasm_segments.specs.Elements.{element, element_kind, kind_if, type_if};
ghost use Rattle.wasm_segments.specs.Flags.{has_flag, index_if};
ghost use Rattle.wasm_write_grammars.specs.Writing.{AppendsBy, NoReason};
ghost use Rattle.wasm_encode_sections.specs.ElementReasons.{OffsetReason, TypeReason, ListedReason, ElementReason};
ghost use Rattle.wasm_encode_sections.specs.declared.elements.ListedElement.{ListedElement};
ghost use Rattle.wasm_encode_sections.specs.ElementLists.{IsListed};
ghost use Rattle.wasm_encode_sections.specs.ListedElements.{listed_items, listed_element};
ghost use Rattle.wasm_encode_sections.specs.SegmentFlags.{is_inactive, has_second, is_expressions, element_flags, is_funcref};

use crate::flags::flag_byte;
use crate::lists::append_items;
use crate::write::Write;
use wasm_below::{AbstractHeapType, HeapType, Malformed, Message, RefType, WasmFeatures};
use wasm_imm::Members;
use wasm_segments::ElementKind;
use wasm_write_grammars::{append_byte, append_u32};

/// The elements of a segment as a list. Specification: Element Section.
#[derive(Drop)]
pub enum ListedItems<C> {
    /// Indices of functions.
    Functions(Members<u32>),
    /// Constant expressions of this type.
    Expressions(RefType, Members<C>),
}

/// An element segment whose elements are a list. Specification: Element Section.
#[derive(Drop)]
pub struct ListedElement<C> {
    pub kind: ElementKind<C>,
    pub items: ListedItems<C>,
}

fn is_inactive<C>(kind: &ElementKind<C>) -> bool
    ensures { result ≡ is_inactive kind.now }
{
    match kind {
        ElementKind::Passive | ElementKind::Declared => true,
        ElementKind::Active { .. } => false,
    }
}

/// Returns whether the segment is declarative, or active with a table's index.
fn has_second<C>(kind: &ElementKind<C>) -> bool
    ensures { result ≡ has_second kind.now }
{
    match kind {
        ElementKind::Passive => false,
        ElementKind::Declared => true,
        ElementKind::Active { table_index, .. } => table_index.is_some(),
    }
}

fn is_expressions<C>(items: &ListedItems<C>) -> bool
    ensures { result ≡ is_expressions items.now }
{
    match items {
        ListedItems::Functions(_) => false,
        ListedItems::Expressions(..) => true,
    }
}

/// Returns the number at the start of the segment.
fn element_flags<C>(element: &ListedElement<C>) -> u8
    ensures { result ≡ element_flags element.now }
{
    let kind = &element.kind;
    flag_byte(
        is_inactive(kind),
        has_second(kind),
        is_expressions(&element.items),
        false,
    )
}

/// Appends a table's index, if there is one. The flags say whether there is.
fn append_index(out: &mut Vec<u8>, present: bool, index: Option<u32>) -> Result<(), Message>
    requires { present ≡ is_some index }
    ensures { AppendsBy (index_if present) NoReason index result out.old.items out.new.items }
{
    match index {
        None => Ok(()),
        Some(number) => {
            append_u32(out, number)?;
            Ok(())
        }
    }
}

/// Appends the table's index and the offset of an active segment.
fn append_kind<C: Write>(
    out: &mut Vec<u8>,
    features: WasmFeatures,
    flags: u8,
    kind: &ElementKind<C>,
) -> Result<(), Message>
    requires { (has_flag flags 1 ≡ is_inactive kind.now) × (has_flag flags 2 ≡ has_second kind.now) }
    ensures { AppendsBy (element_kind (C.grammar features) flags) (OffsetReason (C.reason features)) kind.now result out.old.items out.new.items }
{
    match kind {
        ElementKind::Passive => Ok(()),
        ElementKind::Declared => Ok(()),
        ElementKind::Active {
            table_index,
            offset_expr,
        } => {
            append_index(out, table_index.is_some(), *table_index)?;
            offset_expr.append_to(features, out)?;
            Ok(())
        }
    }
}

/// Appends the byte 0 before function indices, unless it is not written.
fn append_function_kind(out: &mut Vec<u8>, flags: u8) -> Result<(), Message>
    ensures { AppendsBy (kind_if flags) NoReason 0 result out.old.items out.new.items }
{
    if flags % 4 == 0 {
        return Ok(());
    }
    append_byte(out, 0)
}

fn is_funcref(ty: RefType) -> bool
    ensures { result ≡ is_funcref ty }
{
    match ty.heap_type() {
        HeapType::Abstract {
            shared: false,
            ty: AbstractHeapType::Func,
        } => ty.is_nullable(),
        _ => false,
    }
}

/// Appends the type of expressions. If it is not written, it is `funcref`.
fn append_type(
    out: &mut Vec<u8>,
    features: WasmFeatures,
    flags: u8,
    ty: RefType,
) -> Result<(), Message>
    ensures { AppendsBy (type_if flags) (TypeReason flags) ty result out.old.items out.new.items }
{
    if flags % 4 == 0 {
        if is_funcref(ty) {
            return Ok(());
        }
        return Err(Message::Malformed(Malformed::ElementFlags));
    }
    ty.append_to(features, out)
}

/// Appends the type of the elements, and the elements.
fn append_listed<C: Write>(
    out: &mut Vec<u8>,
    features: WasmFeatures,
    flags: u8,
    items: &ListedItems<C>,
) -> Result<(), Message>
    requires { has_flag flags 4 ≡ is_expressions items.now }
    ensures { AppendsBy (listed_items (C.grammar features) flags) (ListedReason (C.reason features) flags) items.now result out.old.items out.new.items }
{
    match items {
        ListedItems::Functions(indices) => {
            append_function_kind(out, flags)?;
            append_items(out, features, indices.as_slice())?;
            Ok(())
        }
        ListedItems::Expressions(ty, values) => {
            append_type(out, features, flags, *ty)?;
            append_items(out, features, values.as_slice())?;
            Ok(())
        }
    }
}

impl<C: Write> Write for ListedElement<C> {
    ghost grammar = { λ features. listed_element (C.grammar features) };

    ghost reason = { λ features. ElementReason (C.reason features) };

    /// Fails with `ElementFlags` if the segment is active without a table's index, and its
    /// expressions have a type other than `funcref`.
    fn append_to(&self, features: WasmFeatures, out: &mut Vec<u8>) -> Result<(), Message> {
        let flags = element_flags(self);
        append_u32(out, flags as u32)?;
        append_kind(out, features, flags, &self.kind)?;
        append_listed(out, features, flags, &self.items)?;
        Ok(())
    }
}

/// States that what is written of a segment is read as an `Element` with its kind and its elements, and
/// that each encoding of an `Element` is one of a segment with these.
pub fn listed_elements<C: Write>()
    ensures read { (features : WasmFeatures) (at : ℕ) (text : List ℕ) (x : ListedElement C) → Encodes (listed_element (C.grammar features)) at text x →
        (e : Element C) × Encodes (element features (C.grammar features)) at text e × IsListed (C.grammar features) e x }
    ensures written { (features : WasmFeatures) (at : ℕ) (text : List ℕ) (e : Element C) → Encodes (element features (C.grammar features)) at text e →
        (x : ListedElement C) × Encodes (listed_element (C.grammar features)) at text x × IsListed (C.grammar features) e x }
{}
