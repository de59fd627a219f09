//! Laws: encodings are prefix codes, and faults determine their errors.
ghost use Rattle.wasm_below.specs.Fault.{DeterminesRefusal};
ghost use Rattle.wasm_below.specs.Sequence.{PrefixCode};
ghost use Rattle.wasm_module.specs.Exports.{EncodesExport, ExportFault};
ghost use Rattle.wasm_module.specs.Imports.{EncodesImport, ImportFault};
ghost use Rattle.wasm_module.specs.Module.{PreambleFault, SectionFault};
ghost use Rattle.wasm_module.specs.Names.{EncodesName, NameFault, EncodesNameAssociation, NameAssociationFault};
ghost use Rattle.wasm_module.specs.Types.{EncodesSubType, SubTypeFault, EncodesRecTypeLength, RecTypeLengthFault};

use wasm_below::byte_laws::{fixed_numbers, number_refusals, part_refusals, unsigned_numbers};
use wasm_below::type_laws::{reference_types, type_refusals, value_types};

pub fn refusals()
    ensures preamble { DeterminesRefusal PreambleFault }
    ensures section { DeterminesRefusal SectionFault }
{
    fixed_numbers();
    part_refusals();
}

pub fn names()
    ensures one { PrefixCode EncodesName }
    ensures refusal { DeterminesRefusal NameFault }
    ensures associated { PrefixCode EncodesNameAssociation }
    ensures associated_refusal { DeterminesRefusal NameAssociationFault }
{
    unsigned_numbers();
    number_refusals();
}

pub fn exports()
    ensures one { PrefixCode EncodesExport }
    ensures refusal { DeterminesRefusal ExportFault }
{
    unsigned_numbers();
    number_refusals();
}

pub fn imports()
    ensures one { PrefixCode EncodesImport }
    ensures refusal { DeterminesRefusal ImportFault }
{
    unsigned_numbers();
    reference_types();
    value_types();
    number_refusals();
    type_refusals();
}

pub fn types()
    ensures one { PrefixCode EncodesSubType }
    ensures refusal { DeterminesRefusal SubTypeFault }
    ensures rec_type { PrefixCode EncodesRecTypeLength }
    ensures rec_type_refusal { DeterminesRefusal RecTypeLengthFault }
{
    unsigned_numbers();
    value_types();
    number_refusals();
    type_refusals();
}
