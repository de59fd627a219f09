//! Laws: no encoding is a proper prefix of another, each has one value, and a fault determines the
//! message and the offset of its error.
ghost use Rattle.std.specs.Prelude.{ℕ};
ghost use Rattle.std.specs.Int.{w32, w64};
ghost use Rattle.wasm_below.specs.Sequence.{PrefixCode};
ghost use Rattle.wasm_below.specs.Number.{EncodesUnsigned, EncodesSigned, EncodesFixed, EncodesSize};
ghost use Rattle.wasm_below.specs.Source.{NumberFault, S33Fault, CountFault};
ghost use Rattle.wasm_below.specs.Refusal.{NamesNumber};
ghost use Rattle.wasm_below.specs.Fault.{DeterminesRefusal};
ghost use Rattle.wasm_below.specs.FromReader.{ReaderFault};
ghost use Rattle.wasm_below.specs.declared.message.NumberName.{NumberName};
ghost use Rattle.wasm_below.specs.declared.message.SizeName.{SizeName};

pub fn unsigned_numbers()
    ensures { (width : ℕ) → PrefixCode (EncodesUnsigned width) }
{}

pub fn signed_numbers()
    ensures { (width : ℕ) → PrefixCode (EncodesSigned width) }
{}

pub fn counts()
    ensures { (limit : ℕ) → PrefixCode (EncodesSize limit) }
{}

pub fn fixed_numbers()
    ensures four { PrefixCode (EncodesFixed w32) }
    ensures eight { PrefixCode (EncodesFixed w64) }
{}

pub fn number_refusals()
    ensures any { (width : ℕ) → (name : NumberName)
        → DeterminesRefusal (λ m r offset. NumberFault m width r offset × NamesNumber name m) }
    ensures index { DeterminesRefusal S33Fault }
    ensures count { (name : SizeName) → (limit : ℕ) → DeterminesRefusal (CountFault name limit) }
{}

pub fn part_refusals()
    ensures { DeterminesRefusal ReaderFault }
{}
