ghost use Rattle.std.specs.Prelude.{◌≡◌, ◌↔◌, ◌+◌, ◌≤◌, ℕ, List, map, length, IsTrue, IfSome, Ok};
ghost use Rattle.std.specs.Iterator.{YieldsFirst, at_most, UpTo};
ghost use Rattle.std.specs.Iterator.SizeHint.{IsWithinCount};
ghost use Rattle.wasm_below.specs.Ahead.{ReadsAhead};
ghost use Rattle.wasm_below.specs.Fault.{ManyFault};
ghost use Rattle.wasm_below.specs.Source.{Reads, U32Fault};
ghost use Rattle.wasm_below.specs.Number.{EncodesUnsigned};
ghost use Rattle.wasm_imm.specs.Lists.{EncodesMany};
ghost use Rattle.wasm_imm.specs.BranchTableFaults.{BranchTableFault};
ghost use Rattle.wasm_imm.specs.BranchTables.{AreTargets, EncodesBranchTable, EncodesTargets, HasTargets, max_targets};

use std::alloc::AllocError;
use std::marker::Model;
use wasm_below::{BinaryReader, Error, Result, SizeName};

const MAX_TARGETS: usize = 7654321;

/// The targets of `br_table`, and the default target.
///
/// The targets stay encoded in the borrowed bytes. `==` compares these bytes, the count and the
/// default target.
#[derive(Debug, Drop)]
pub struct BrTable<'a> {
    count: u32,
    default: u32,
    targets: &'a [u8],
}

impl<'a> Model for BrTable<'a> {
    ghost use Rattle.std.specs.Prelude.{◌≤◌};
    ghost use Rattle.wasm_imm.specs.BranchTables.{BranchTable, AreTargets, max_targets};

    ghost Value = { BranchTable };

    ghost view = { λ t. record { count = t.count; targets = t.targets.now; default = t.default } };

    ghost invariant = { λ t. AreTargets t.count t.targets.now × (t.count ≤ max_targets) };
}

impl<'a> BrTable<'a> {
    /// Reads a branch table. Specification: Control Instructions.
    ///
    /// Fails like `read_size` with the limit 7654321, or like `read_var_u32` at a target.
    pub fn read(reader: &mut BinaryReader<'a>) -> Result<BrTable<'a>>
        ensures { Reads EncodesBranchTable BranchTableFault result reader.old reader.new }
    {
        let mut ahead = reader.clone();
        let count = ahead.read_size(MAX_TARGETS, SizeName::BrTable)?;
        let bytes = ahead.remaining_buffer();
        let size = read_targets(&mut ahead, count)?;
        let default = ahead.read_var_u32()?;
        *reader = ahead;
        Ok(BrTable {
            count: count as u32,
            default,
            targets: &bytes[..size],
        })
    }

    pub fn len(&self) -> u32
        ensures { result ≡ self.now.count }
    {
        self.count
    }

    pub fn is_empty(&self) -> bool
        ensures { IsTrue result ↔ (self.now.count ≡ 0) }
    {
        self.count == 0
    }

    pub fn default(&self) -> u32
        ensures { result ≡ self.now.default }
    {
        self.default
    }

    /// Returns the bytes of the targets, without the default target.
    pub fn target_bytes(&self) -> &[u8]
        ensures bytes { result.now ≡ self.now.targets }
        ensures targets { AreTargets self.now.count self.now.targets }
        ensures limit { self.now.count ≤ max_targets }
    {
        self.targets
    }

    /// Returns an iterator over the targets, without the default target.
    pub fn targets(&self) -> BrTableTargets<'_>
        ensures { EncodesMany (EncodesUnsigned 32) self.now.count self.now.targets result }
    {
        BrTableTargets {
            reader: BinaryReader::new(self.targets, 0),
            remaining: self.count,
        }
    }
}

#[inline(always)]
fn read_targets(reader: &mut BinaryReader<'_>, count: usize) -> Result<usize>
    ensures { ReadsAhead (EncodesTargets count) (ManyFault (EncodesUnsigned 32) U32Fault count) result reader.old reader.new }
{
    let start = reader.current_position();
    let passed = pass_targets(reader.remaining_buffer(), count);
    reader.read_bytes(passed.position)?;
    for _target in passed.targets..count {
        reader.read_var_u32()?;
    }
    Ok(reader.current_position() - start)
}

/// How many targets were skipped, and the position after them.
#[derive(Clone, Copy)]
struct Passed {
    targets: usize,
    position: usize,
}

/// Skips at most `count` targets: four at a time while each has one byte, then one at a time while
/// five bytes, the greatest size, are left. So it need not check for the end at each byte.
///
/// The caller reads the other targets. This function is not inlined, to keep the caller small; its
/// result is two words.
#[inline(never)]
fn pass_targets(bytes: &[u8], count: usize) -> Passed
    ensures most { result.targets ≤ count }
    ensures passed { HasTargets result.targets bytes.now 0 result.position }
{
    let short = pass_short_targets(bytes, count);
    let mut targets = short;
    let mut position = short;
    while targets < count && bytes.len() - position >= 5 {
        let Some(size) = target_size(bytes, position) else {
            break;
        };
        targets += 1;
        position += size;
    }
    Passed { targets, position }
}

#[inline(always)]
fn pass_short_targets(bytes: &[u8], count: usize) -> usize
    ensures most { result ≤ count }
    ensures passed { HasTargets result bytes.now 0 result }
{
    let mut position = 0;
    while count - position >= 4 && bytes.len() - position >= 4 && are_four_short(bytes, position) {
        position += 4;
    }
    position
}

#[inline(always)]
fn are_four_short(bytes: &[u8], position: usize) -> bool
    requires { position + 4 ≤ length bytes.now }
    ensures { IsTrue result → HasTargets 4 bytes.now position (position + 4) }
{
    let mut bits = 0u8;
    for at in position..position + 4 {
        bits |= bytes[at];
    }
    bits < 128
}

#[inline(always)]
fn target_size(bytes: &[u8], position: usize) -> Option<usize>
    requires { position + 5 ≤ length bytes.now }
    ensures target { IfSome result (λ size. HasTargets 1 bytes.now position (position + size)) }
    ensures most { IfSome result (λ size. size ≤ 5) }
{
    if bytes[position] < 128 {
        return Some(1);
    }
    if bytes[position + 1] < 128 {
        return Some(2);
    }
    if bytes[position + 2] < 128 {
        return Some(3);
    }
    if bytes[position + 3] < 128 {
        return Some(4);
    }
    if bytes[position + 4] >= 16 {
        return None;
    }
    Some(5)
}

impl<'a> Clone for BrTable<'a> {
    ghost use Rattle.std.specs.Prelude.{◌≡◌, ⊤};

    ghost is_clone = { λ source copy. copy ≡ source };

    ghost is_infallible = { λ _. ⊤ };

    fn clone(&self) -> std::result::Result<BrTable<'a>, AllocError> {
        Ok(BrTable {
            count: self.count,
            default: self.default,
            targets: self.targets,
        })
    }
}

impl<'a> PartialEq for BrTable<'a> {
    ghost use Rattle.wasm_imm.specs.BranchTableEquality.{same_table, same_table_partial};

    ghost eq = { same_table };

    ghost laws = { same_table_partial };

    fn eq(&self, other: &BrTable<'a>) -> bool {
        self.count == other.count && self.default == other.default && self.targets == other.targets
    }
}

impl<'a> Eq for BrTable<'a> {
    ghost use Rattle.wasm_imm.specs.BranchTableEquality.{same_table_equiv};

    ghost laws = { same_table_equiv };
}

/// An iterator over the targets of a branch table. Each item is `Ok`.
#[derive(Debug, Drop)]
pub struct BrTableTargets<'a> {
    reader: BinaryReader<'a>,
    remaining: u32,
}

impl<'a> Model for BrTableTargets<'a> {
    ghost use Rattle.std.specs.Prelude.{ℕ, List};
    ghost use Rattle.wasm_below.specs.Source.{rest};
    ghost use Rattle.wasm_imm.specs.BranchTables.{AreTargets, numbers_of};

    ghost Value = { List ℕ };

    ghost view = { λ t. numbers_of (rest t.reader) };

    ghost invariant = { λ t. AreTargets t.remaining (rest t.reader) };
}

impl<'a> Iterator for BrTableTargets<'a> {
    type Item = Result<u32>;

    ghost next_gives = { YieldsFirst (λ targets. map Ok targets) };

    ghost remaining = { λ targets. at_most (length targets) };

    fn next(&mut self) -> Option<Result<u32>> {
        if self.remaining == 0 {
            return None;
        }
        self.remaining -= 1;
        Some(self.reader.read_var_u32())
    }

    fn size_hint(&self) -> (usize, Option<usize>)
        ensures lower { IsWithinCount result.0 (at_most (length self.now)) }
        ensures upper { IfSome result.1 (UpTo (at_most (length self.now))) }
        ensures exact { result ≡ record { 0 = length self.now; 1 = Some (length self.now) } }
    {
        let remaining = self.remaining as usize;
        (remaining, Some(remaining))
    }
}
