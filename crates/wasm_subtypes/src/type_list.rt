//! Types of a module, and what they are to matching.
ghost use Rattle.std.specs.Prelude.{◌≡◌, ◌↔◌, ℕ, ◌+◌, ◌≤◌, ◌++◌, [], ◌∷◌, true, length, IsTrue, OnOk, IfOk, IfErr};
ghost use Rattle.std.specs.Option.{option_map};
ghost use Rattle.wasm_typing.specs.Matching.{IsOrder};
ghost use Rattle.std.specs.List.{slice_get};
ghost use Rattle.wasm_check_control.specs.Environment.{composite_kind};
ghost use Rattle.wasm_subtypes.specs.Descent.{Descends};
ghost use Rattle.wasm_subtypes.specs.Types.{identity, supertype, kind, kind_of, order_of, MayIdentify, Extends, IsFirstEqual, AllExtend, Added, placed};
ghost use Rattle.wasm_subtypes.specs.Errors.{Blames};

use crate::defined::{Defined, identity, supertype};
use crate::error::TypeError;
use std::alloc::Global;
use std::marker::Model;
use wasm_check_control::CompositeKind;
use wasm_types::{CompositeInnerType, SubType};

/// Types of a module, in the order of their indices.
#[derive(Drop)]
pub struct TypeList {
    items: Vec<Defined>,
}

impl Model for TypeList {
    ghost use Rattle.std.specs.Prelude.{List};
    ghost use Rattle.wasm_subtypes.specs.declared.defined.Defined.{Defined};
    ghost use Rattle.wasm_subtypes.specs.Types.{AreOrdered};

    ghost Value = { List Defined };

    ghost view = { λ t. t.items.items };

    ghost invariant = { λ t. AreOrdered t.items.items };
}

/// Returns the kind of a type; `None` for the type of a continuation.
fn kind(ty: &SubType) -> Option<CompositeKind>
    ensures { option_map composite_kind result ≡ kind_of ty.now }
{
    match ty.composite_type.inner {
        CompositeInnerType::Func(_) => Some(CompositeKind::Func),
        CompositeInnerType::Array(_) => Some(CompositeKind::Array),
        CompositeInnerType::Struct(_) => Some(CompositeKind::Struct),
        CompositeInnerType::Cont(_) => None,
    }
}

fn same_kind(a: Option<CompositeKind>, b: Option<CompositeKind>) -> bool
    ensures { IsTrue result ↔ (option_map composite_kind a ≡ option_map composite_kind b) }
{
    match a {
        None => b.is_none(),
        Some(CompositeKind::Func) => matches!(b, Some(CompositeKind::Func)),
        Some(CompositeKind::Struct) => matches!(b, Some(CompositeKind::Struct)),
        Some(CompositeKind::Array) => matches!(b, Some(CompositeKind::Array)),
    }
}

fn extends(types: &[Defined], ty: &SubType) -> bool
    ensures { IsTrue result ↔ Extends types.now ty.now ty.now.supertype_idx }
{
    let Some(index) = ty.supertype_idx else {
        return true;
    };
    match types.get(index as usize) {
        Some(defined) => !defined.ty.is_final && same_kind(kind(&defined.ty), kind(ty)),
        None => false,
    }
}

impl TypeList {
    pub fn new(alloc: Global) -> TypeList
        ensures { result ≡ [] }
    {
        TypeList {
            items: Vec::new(alloc),
        }
    }

    pub fn len(&self) -> usize
        ensures { result ≡ length self.now }
    {
        self.items.len()
    }

    pub fn get(&self, index: u32) -> Option<&Defined>
        ensures { option_map (λ r. r.now) result ≡ slice_get self.now index }
    {
        self.items.get(index as usize)
    }

    pub fn at(&self, index: usize) -> Option<&Defined>
        ensures { option_map (λ r. r.now) result ≡ slice_get self.now index }
    {
        self.items.get(index)
    }

    /// States that matching of the types is a preorder that keeps kinds. The body is empty.
    pub fn is_ordered(&self)
        ensures order { IsOrder (order_of self.now) }
        ensures decides { (i j : ℕ) → (order_of self.now).subtype i j ≡ true ↔ Descends (identity self.now) (supertype self.now) i j }
    {
        let _items = &self.items;
    }

    /// Returns whether the type at `index` matches the type at `of`. Specification: Matching,
    /// Defined Types.
    pub fn is_subtype(&self, index: u32, of: u32) -> bool
        ensures { result ≡ (order_of self.now).subtype index of }
    {
        let types = self.items.as_slice();
        let wanted = identity(types, of);
        let mut current = index;
        'up: while identity(types, current) != wanted {
            match supertype(types, current) {
                Some(above) => current = above,
                None => return false,
            }
        }
        true
    }

    /// Returns the kind of the type at an index; `None` for the type of a continuation.
    pub fn composite_kind(&self, index: u32) -> Option<CompositeKind>
        ensures { option_map composite_kind result ≡ (order_of self.now).kind index }
    {
        match self.items.get(index as usize) {
            Some(defined) => kind(&defined.ty),
            None => None,
        }
    }

    pub fn as_slice(&self) -> &[Defined]
        ensures { result.now ≡ self.now }
    {
        self.items.as_slice()
    }

    /// Adds a group whose first equal group starts at `start`. Fails with `OutOfMemory`, and with
    /// `Supertype`.
    pub fn append(self, group: Vec<SubType>, start: u32) -> Result<TypeList, TypeError>
        requires first { IsFirstEqual self group.items start }
        requires few { length self + length group.items ≤ 1000000 }
        ensures added { IfOk result (λ new. Added self group.items new) }
        ensures placed { IfOk result (λ new. new ≡ self ++ placed (length self) start group.items) }
        ensures blames { IfErr result (λ e. (s : ℕ) → IsFirstEqual self group.items s → Blames e (AllExtend self (length self) s group.items) (Unit {0})) }
    {
        let _items = &self.items;
        let first = self.len();
        let mut types = self;
        let mut identity = start;
        for ty in group {
            types.push(ty, first as u32, identity)?;
            identity += 1;
        }
        Ok(types)
    }

    fn push(&mut self, ty: SubType, first: u32, identity: u32) -> Result<(), TypeError>
        requires { MayIdentify self.old identity ty }
        ensures pushed { OnOk result (self.new ≡ self.old ++ record { ty = ty; first = first; identity = identity } ∷ []) }
        ensures fits { OnOk result (Extends self.old ty ty.supertype_idx) }
        ensures blames { IfErr result (λ e. Blames e (Extends self.old ty ty.supertype_idx) (Unit {0})) }
    {
        if !extends(self.items.as_slice(), &ty) {
            return Err(TypeError::Supertype);
        }
        let new = Defined {
            ty,
            first,
            identity,
        };
        if !push_defined(&mut self.items, new) {
            return Err(TypeError::OutOfMemory);
        }
        Ok(())
    }
}

/// Returns whether the type was added; if not, allocation failed.
fn push_defined(items: &mut Vec<Defined>, new: Defined) -> bool
    ensures added { IsTrue result → items.new.items ≡ items.old.items ++ new ∷ [] }
    ensures unchanged { (IsTrue result → ⊥) → items.new.items ≡ items.old.items }
{
    items.push(new).is_ok()
}
