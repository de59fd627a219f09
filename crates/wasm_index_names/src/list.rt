ghost use Rattle.std.specs.Prelude.{◌≡◌, ◌++◌, ◌<◌, ◌≤◌, [], List, OnOk, map, set, length, replicate, string_bytes};
ghost use Rattle.wasm_escapes.specs.Escapes.{escaped};
ghost use Rattle.wasm_index_names.specs.Lists.{name_at, padded, placed, with_name, with_import, after_index};

use std::alloc::{AllocError, Global};
use std::marker::Model;
use wasm_escapes::write_escaped;

/// Names by index, as they are shown; some may be empty.
#[derive(Drop)]
pub struct NameList {
    names: Vec<String>,
    limit: usize,
    next: u32,
}

impl Model for NameList {
    ghost use Rattle.std.specs.Prelude.{map, string_bytes};
    ghost use Rattle.wasm_index_names.specs.Lists.{NamesByIndex};

    ghost Value = { NamesByIndex };

    ghost view = { λ l. record { names = map string_bytes l.names.items; limit = l.limit; next = l.next } };
}

/// Returns the name with this index, or an empty one.
pub fn name_at(names: &[String], index: u32) -> &str
    ensures { result.now ≡ name_at (map string_bytes names.now) index }
{
    match names.get(index as usize) {
        Some(name) => name.as_str(),
        None => "",
    }
}

#[tactic(auto, using(crate::proofs::Padded::name_next, crate::proofs::Padded::missing_names))]
/// Appends empty names up to this number of names.
fn pad(alloc: Global, names: &mut Vec<String>, number: usize) -> Result<(), AllocError>
    ensures { OnOk result (map string_bytes names.new.items ≡ padded [] number (map string_bytes names.old.items)) }
{
    let missing = number.saturating_sub(names.len());
    for _name in 0..missing {
        names.push(String::new(alloc))?;
    }
    Ok(())
}

#[tactic(auto, using(crate::proofs::Padded::names_long, crate::proofs::Padded::name_set))]
/// Sets the name with this index, if the index is below `limit`.
fn place(
    alloc: Global,
    names: &mut Vec<String>,
    limit: usize,
    index: u32,
    name: String,
) -> Result<(), AllocError>
    ensures { OnOk result (map string_bytes names.new.items ≡ placed [] limit (map string_bytes names.old.items) index (string_bytes name)) }
{
    let at = index as usize;
    if at >= limit {
        return Ok(());
    }
    pad(alloc, names, at + 1)?;
    names[at] = name;
    Ok(())
}

impl NameList {
    /// Creates a list without names, which keeps names of indices below `limit`.
    pub fn new(alloc: Global, limit: usize) -> NameList
        ensures { result ≡ record { names = []; limit = limit; next = 0 } }
    {
        NameList {
            names: Vec::new(alloc),
            limit,
            next: 0,
        }
    }

    /// Returns the name with this index, or an empty one.
    pub fn get(&self, index: u32) -> &str
        ensures { result.now ≡ name_at self.now.names index }
    {
        name_at(self.names.as_slice(), index)
    }

    /// Sets the name with this index.
    pub fn set(&mut self, alloc: Global, index: u32, name: &[u8]) -> Result<(), AllocError>
        ensures { OnOk result (self.new ≡ with_name self.old index (escaped name.now)) }
    {
        let mut shown = String::new(alloc);
        write_escaped(alloc, &mut shown, name)?;
        place(alloc, &mut self.names, self.limit, index, shown)
    }

    /// Sets the name of the next thing that is imported.
    pub fn import(&mut self, alloc: Global, name: &[u8]) -> Result<(), AllocError>
        ensures { OnOk result (self.new ≡ with_import self.old (escaped name.now)) }
    {
        let index = self.next;
        self.set(alloc, index, name)?;
        self.next = index.saturating_add(1);
        Ok(())
    }
}
