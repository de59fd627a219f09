ghost use Rattle.std.specs.Prelude.{◌≡◌, ◌≢◌, ◌↔◌, ℕ, ◌+◌, ◌<◌, ◌≤◌, ◌++◌, [], None, true, length, IsTrue, IfOk, IfErr};
ghost use Rattle.std.specs.Option.{option_map};
ghost use Rattle.std.specs.List.{slice_get};
ghost use Rattle.wasm_types.specs.Types.{types_of};
ghost use Rattle.wasm_typing.specs.Matching.{IsOrder};
ghost use Rattle.wasm_check_control.specs.Environment.{composite_kind};
ghost use Rattle.wasm_subtypes.specs.Descent.{Descends};
ghost use Rattle.wasm_subtypes.specs.Types.{identity, supertype, order_of, IsFirstEqual, AllExtend, Added, placed};
ghost use Rattle.wasm_subtypes.specs.Composites.{AreValid};
ghost use Rattle.wasm_subtypes.specs.Keys.{use_number, group_numbers, start_of, AreIndexed, Puts};
ghost use Rattle.wasm_subtypes.specs.declared.error.TypeError.TheVariants as type_error;
ghost use Rattle.wasm_subtypes.specs.Errors.{Blames};

use crate::defined::Defined;
use crate::error::TypeError;
use crate::keys::group_key;
use crate::type_list::TypeList;
use crate::validity::are_valid;
use std::alloc::Global;
use std::collections::BTreeMap;
use std::marker::Model;
use wasm_check_control::CompositeKind;
use wasm_types::{RecGroup, SubType};

/// The greatest number of types of a module.
const MAX_TYPES: usize = 1000000;

/// The types of a module, in the order of their indices.
#[derive(Drop)]
pub struct Types {
    list: TypeList,
    // Where each group starts that equals none before it, by its numbers.
    starts: BTreeMap<Vec<u64>, u32>,
}

impl Model for Types {
    ghost use Rattle.std.specs.Prelude.{List};
    ghost use Rattle.wasm_subtypes.specs.declared.defined.Defined.{Defined};
    ghost use Rattle.wasm_subtypes.specs.Keys.{AreIndexed};

    ghost Value = { List Defined };

    ghost view = { λ t. t.list };

    ghost invariant = { λ t. AreIndexed t.list t.starts.entries };
}

fn list_of(alloc: Global, group: RecGroup) -> Result<Vec<SubType>, TypeError>
    ensures types { IfOk result (λ list. list.items ≡ types_of group) }
    ensures memory { IfErr result (λ e. e ≡ type_error.OutOfMemory) }
{
    match group {
        RecGroup::Implicit(ty) => {
            let mut list = Vec::new(alloc);
            if list.push(ty).is_err() {
                return Err(TypeError::OutOfMemory);
            }
            Ok(list)
        }
        RecGroup::Explicit(types) => Ok(types.into_vec()),
    }
}

fn start(starts: &BTreeMap<Vec<u64>, u32>, key: &[u64]) -> Option<u32>
    ensures { result ≡ start_of key.now starts.now.entries }
{
    match starts.get(key) {
        Some(start) => Some(*start),
        None => None,
    }
}

fn keep(starts: &mut BTreeMap<Vec<u64>, u32>, key: Vec<u64>, start: u32) -> bool
    ensures { IsTrue result → Puts starts.old.entries starts.new.entries key.items start }
{
    starts.insert(key, start).is_ok()
}

/// Adds a group that is equal to the group that starts at `start`.
fn add_again(
    list: TypeList,
    starts: BTreeMap<Vec<u64>, u32>,
    group: Vec<SubType>,
    start: u32,
) -> Result<Types, TypeError>
    requires indexed { AreIndexed list starts.entries }
    requires first { IsFirstEqual list group.items start }
    requires before { start < length list }
    requires few { length list + length group.items ≤ 1000000 }
    ensures added { IfOk result (λ new. Added list group.items new) }
    ensures blames { IfErr result (λ e. (s : ℕ) → IsFirstEqual list group.items s → Blames e (AllExtend list (length list) s group.items) (Unit {0})) }
{
    match list.append(group, start) {
        Ok(list) => Ok(Types { list, starts }),
        Err(e) => Err(e),
    }
}

/// Adds a group that equals none before it, and keeps its key.
fn add_first(
    list: TypeList,
    starts: BTreeMap<Vec<u64>, u32>,
    group: Vec<SubType>,
    key: Vec<u64>,
) -> Result<Types, TypeError>
    requires indexed { AreIndexed list starts.entries }
    requires first { IsFirstEqual list group.items (length list) }
    requires some { group.items ≢ [] }
    requires key { key.items ≡ group_numbers (use_number list (length list)) group.items }
    requires none { start_of key.items starts.entries ≡ None }
    requires few { length list + length group.items ≤ 1000000 }
    ensures added { IfOk result (λ new. Added list group.items new) }
    ensures blames { IfErr result (λ e. (s : ℕ) → IsFirstEqual list group.items s → Blames e (AllExtend list (length list) s group.items) (Unit {0})) }
{
    let first = list.len() as u32;
    let mut starts = starts;
    match list.append(group, first) {
        Ok(list) => {
            if !keep(&mut starts, key, first) {
                return Err(TypeError::OutOfMemory);
            }
            Ok(Types { list, starts })
        }
        Err(e) => Err(e),
    }
}

impl Types {
    /// Creates the types of a module that has none.
    pub fn new(alloc: Global) -> Types
        ensures { result ≡ [] }
    {
        Types {
            list: TypeList::new(alloc),
            starts: BTreeMap::new(alloc),
        }
    }

    pub fn len(&self) -> usize
        ensures { result ≡ length self.now }
    {
        self.list.len()
    }

    /// Returns the type at an index.
    pub fn get(&self, index: u32) -> Option<&Defined>
        ensures { option_map (λ r. r.now) result ≡ slice_get self.now index }
    {
        self.list.get(index)
    }

    pub(crate) fn list(&self) -> &TypeList
        ensures { result.now ≡ self.now }
    {
        &self.list
    }

    /// States that matching of the types is a preorder that keeps kinds. The body is empty.
    pub fn is_ordered(&self)
        ensures order { IsOrder (order_of self.now) }
        ensures decides { (i j : ℕ) → (order_of self.now).subtype i j ≡ true ↔ Descends (identity self.now) (supertype self.now) i j }
    {
        self.list.is_ordered()
    }

    /// Returns whether the type at `index` matches the type at `of`. Specification: Matching,
    /// Defined Types.
    pub fn is_subtype(&self, index: u32, of: u32) -> bool
        ensures { result ≡ (order_of self.now).subtype index of }
    {
        self.list.is_subtype(index, of)
    }

    /// Returns the kind of the type at an index; `None` for the type of a continuation.
    pub fn composite_kind(&self, index: u32) -> Option<CompositeKind>
        ensures { option_map composite_kind result ≡ (order_of self.now).kind index }
    {
        self.list.composite_kind(index)
    }

    /// Adds a group of a type section. Specification: Validation, Types, Recursive Types.
    ///
    /// Fails with `TooManyTypes`; with `Supertype` at the first type of the group with such a
    /// supertype; with `Invalid`.
    pub fn add(self, alloc: Global, group: RecGroup) -> Result<Types, TypeError>
        ensures added { IfOk result (λ new. Added self (types_of group) new) }
        ensures valid { IfOk result (λ new. AreValid new (length self)) }
        ensures blames { IfErr result (λ e. (start : ℕ) → IsFirstEqual self (types_of group) start →
            Blames e (AllExtend self (length self) start (types_of group)) (AreValid (self ++ placed (length self) start (types_of group)) (length self))) }
    {
        let first = self.len();
        let types = match self.place(alloc, group) {
            Ok(types) => types,
            Err(e) => return Err(e),
        };
        if !are_valid(types.list(), first) {
            return Err(TypeError::Invalid);
        }
        Ok(types)
    }

    // The same without the test whether the types are valid.
    fn place(self, alloc: Global, group: RecGroup) -> Result<Types, TypeError>
        ensures added { IfOk result (λ new. Added self (types_of group) new) }
        ensures blames { IfErr result (λ e. (start : ℕ) → IsFirstEqual self (types_of group) start → Blames e (AllExtend self (length self) start (types_of group)) (Unit {0})) }
    {
        let group = list_of(alloc, group)?;
        if group.is_empty() {
            return Ok(self);
        }
        let Types { list, starts } = self;
        let first = list.len();
        if first > MAX_TYPES || group.len() > MAX_TYPES - first {
            return Err(TypeError::TooManyTypes);
        }
        let Ok(key) = group_key(alloc, list.as_slice(), group.as_slice()) else {
            return Err(TypeError::OutOfMemory);
        };
        match start(&starts, key.as_slice()) {
            Some(found) => add_again(list, starts, group, found),
            None => add_first(list, starts, group, key),
        }
    }
}
