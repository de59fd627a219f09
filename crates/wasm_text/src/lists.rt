ghost use Rattle.std.specs.Prelude.{◌≡◌, ◌++◌, OnOk, string_bytes, flat_map};
ghost use Rattle.wasm_text.specs.Values.{catch_text, handle_text, value_type_text, branch_table_text};

use crate::types::write_value_type;
use crate::values::{Written, write_number};
use wasm_below::ValType;
use wasm_imm::{BrTable, Catch, Handle, control_laws};

pub fn write_branch_table(out: &mut String, table: &BrTable<'_>) -> Written
    ensures { OnOk result (string_bytes out.new ≡ string_bytes out.old ++ branch_table_text table.now) }
{
    control_laws::target_numbers();
    control_laws::returned_targets();
    for target in table.targets() {
        if let Ok(label) = target {
            write_number(out, label)?;
        }
    }
    write_number(out, table.default())
}

pub fn write_types(out: &mut String, types: &[ValType]) -> Written
    ensures { OnOk result (string_bytes out.new ≡ string_bytes out.old ++ flat_map value_type_text types.now) }
{
    for ty in types {
        write_value_type(out, *ty)?;
    }
    Ok(())
}

fn write_catch(out: &mut String, catch: Catch) -> Written
    ensures { OnOk result (string_bytes out.new ≡ string_bytes out.old ++ catch_text catch) }
{
    match catch {
        Catch::One { tag, label } => write!(out, " (catch {tag} {label})"),
        Catch::OneRef { tag, label } => write!(out, " (catch_ref {tag} {label})"),
        Catch::All { label } => write!(out, " (catch_all {label})"),
        Catch::AllRef { label } => write!(out, " (catch_all_ref {label})"),
    }
}

pub fn write_catches(out: &mut String, catches: &[Catch]) -> Written
    ensures { OnOk result (string_bytes out.new ≡ string_bytes out.old ++ flat_map catch_text catches.now) }
{
    for catch in catches {
        write_catch(out, *catch)?;
    }
    Ok(())
}

fn write_handle(out: &mut String, handle: Handle) -> Written
    ensures { OnOk result (string_bytes out.new ≡ string_bytes out.old ++ handle_text handle) }
{
    match handle {
        Handle::OnLabel { tag, label } => write!(out, " (on {tag} {label})"),
        Handle::OnSwitch { tag } => write!(out, " (on {tag} switch)"),
    }
}

pub fn write_handles(out: &mut String, handles: &[Handle]) -> Written
    ensures { OnOk result (string_bytes out.new ≡ string_bytes out.old ++ flat_map handle_text handles.now) }
{
    for handle in handles {
        write_handle(out, *handle)?;
    }
    Ok(())
}
