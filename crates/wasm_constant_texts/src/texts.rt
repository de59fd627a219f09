//! The texts of operators in constant expressions.
ghost use Rattle.std.specs.Prelude.{◌≡◌, ◌++◌, OnOk, string_bytes, flat_map};
ghost use Rattle.std.specs.List.{after_first};
ghost use Rattle.wasm_index_names.specs.Lists.{name_at};
ghost use Rattle.wasm_text.specs.Lines.{shown_name};
ghost use Rattle.wasm_constant_texts.specs.ConstantTexts.{operand_text, named_operator, next_operator, operators_text, typed_null, abstract_null, null_text, value_text, offset_text, element_text, single_text, constant_text, number_of};

use std::alloc::Global;
use wasm_below::{AbstractHeapType, HeapType};
use wasm_details::Usage;
use wasm_index_names::Names;
use wasm_instr::Operator;
use wasm_text::{Written, write_operator};

/// Appends what follows the first space of an operator's text.
fn push_operand(alloc: Global, out: &mut String, op: &Operator<'_>) -> Written
    ensures { OnOk result (string_bytes out.new ≡ string_bytes out.old ++ operand_text op.now) }
{
    let mut text = String::new(alloc);
    write_operator(&mut text, op)?;
    match text.as_str().split_once(' ') {
        Some((_name, operand)) => out.push_str(operand),
        None => Ok(()),
    }
}

/// Appends a text, and what follows the first space of an operator's text.
fn push_operand_after(alloc: Global, out: &mut String, before: &str, op: &Operator<'_>) -> Written
    ensures { OnOk result (string_bytes out.new ≡ string_bytes out.old ++ (before.now ++ operand_text op.now)) }
{
    out.push_str(before)?;
    push_operand(alloc, out, op)
}

/// Appends a name in angle brackets, unless it is empty.
fn push_name(out: &mut String, name: &str) -> Written
    ensures { OnOk result (string_bytes out.new ≡ string_bytes out.old ++ shown_name name.now) }
{
    if name.is_empty() {
        return Ok(());
    }
    out.push_str(" <")?;
    out.push_str(name)?;
    out.push_str(">")
}

/// Appends an operator, and the name of the global or function that it refers to.
fn push_operator(out: &mut String, names: &Names, op: &Operator<'_>) -> Written
    ensures { OnOk result (string_bytes out.new ≡ string_bytes out.old ++ named_operator names.now op.now) }
{
    write_operator(out, op)?;
    match op {
        Operator::GlobalGet { global_index } => push_name(out, names.global(*global_index)),
        Operator::RefFunc { function_index } => push_name(out, names.function(*function_index)),
        _ => Ok(()),
    }
}

/// Appends an operator after a comma.
fn push_next(out: &mut String, names: &Names, op: &Operator<'_>) -> Written
    ensures { OnOk result (string_bytes out.new ≡ string_bytes out.old ++ next_operator names.now op.now) }
{
    out.push_str(", ")?;
    push_operator(out, names, op)
}

/// Appends operators, each after a comma.
fn push_more(out: &mut String, names: &Names, more: &[(Operator<'_>, u64)]) -> Written
    ensures { OnOk result (string_bytes out.new ≡ string_bytes out.old ++ flat_map (λ p. next_operator names.now p.0) more.now) }
{
    for placed in more {
        push_next(out, names, &placed.0)?;
    }
    Ok(())
}

/// Appends operators in parentheses.
fn push_operators(
    out: &mut String,
    names: &Names,
    first: &Operator<'_>,
    more: &[(Operator<'_>, u64)],
) -> Written
    ensures { OnOk result (string_bytes out.new ≡ string_bytes out.old ++ operators_text names.now first.now more.now) }
{
    out.push_str("(")?;
    push_operator(out, names, first)?;
    push_more(out, names, more)?;
    out.push_str(")")
}

/// Appends a null reference with its heap type.
fn push_typed_null(alloc: Global, out: &mut String, op: &Operator<'_>) -> Written
    ensures { OnOk result (string_bytes out.new ≡ string_bytes out.old ++ typed_null op.now) }
{
    push_operand_after(alloc, out, "ref.null (ref null ", op)?;
    out.push_str(")")
}

/// Appends a null reference of an abstract type that is not shared.
fn push_abstract_null(
    alloc: Global,
    out: &mut String,
    ty: AbstractHeapType,
    op: &Operator<'_>,
) -> Written
    ensures { OnOk result (string_bytes out.new ≡ string_bytes out.old ++ abstract_null ty op.now) }
{
    match ty {
        AbstractHeapType::Func => out.push_str("ref.null funcref"),
        AbstractHeapType::Extern => out.push_str("ref.null externref"),
        _ => push_typed_null(alloc, out, op),
    }
}

/// Appends a null reference with its type.
fn push_null(alloc: Global, out: &mut String, hty: HeapType, op: &Operator<'_>) -> Written
    ensures { OnOk result (string_bytes out.new ≡ string_bytes out.old ++ null_text hty op.now) }
{
    match hty {
        HeapType::Abstract { shared, ty } => {
            if shared {
                return push_typed_null(alloc, out, op);
            }
            push_abstract_null(alloc, out, ty, op)
        }
        _ => push_typed_null(alloc, out, op),
    }
}

/// Appends an operator that is a value.
fn push_value(alloc: Global, out: &mut String, names: &Names, op: &Operator<'_>) -> Written
    ensures { OnOk result (string_bytes out.new ≡ string_bytes out.old ++ value_text names.now op.now) }
{
    match op {
        Operator::I32Const { value: _ } => push_operand_after(alloc, out, "i32=", op),
        Operator::I64Const { value: _ } => push_operand_after(alloc, out, "i64=", op),
        Operator::F32Const { value: _ } => push_operand_after(alloc, out, "f32=", op),
        Operator::F64Const { value: _ } => push_operand_after(alloc, out, "f64=", op),
        Operator::GlobalGet { global_index } => {
            write!(out, "global={global_index}")?;
            push_name(out, names.global(*global_index))
        }
        Operator::RefFunc { function_index } => {
            write!(out, "ref.func:{function_index}")?;
            push_name(out, names.function(*function_index))
        }
        Operator::RefNull { hty } => push_null(alloc, out, *hty, op),
        _ => push_operators(out, names, op, &[]),
    }
}

/// Appends an operator that is the offset of a segment: numbers are unsigned.
fn push_offset(alloc: Global, out: &mut String, names: &Names, op: &Operator<'_>) -> Written
    ensures { OnOk result (string_bytes out.new ≡ string_bytes out.old ++ offset_text names.now op.now) }
{
    match op {
        Operator::I32Const { value } => {
            let number = value.cast_unsigned();
            write!(out, "i32={number}")
        }
        Operator::I64Const { value } => {
            let number = value.cast_unsigned();
            write!(out, "i64={number}")
        }
        _ => push_value(alloc, out, names, op),
    }
}

/// Appends an operator that is an element of a segment.
fn push_element(alloc: Global, out: &mut String, names: &Names, op: &Operator<'_>) -> Written
    ensures { OnOk result (string_bytes out.new ≡ string_bytes out.old ++ element_text names.now op.now) }
{
    match op {
        Operator::RefFunc { function_index } => {
            write!(out, "func[{function_index}]")?;
            push_name(out, names.function(*function_index))
        }
        _ => push_value(alloc, out, names, op),
    }
}

/// Appends an expression of one operator.
fn push_single(
    alloc: Global,
    out: &mut String,
    names: &Names,
    usage: Usage,
    op: &Operator<'_>,
) -> Written
    ensures { OnOk result (string_bytes out.new ≡ string_bytes out.old ++ single_text names.now usage op.now) }
{
    match usage {
        Usage::Value => push_value(alloc, out, names, op),
        Usage::Offset => push_offset(alloc, out, names, op),
        Usage::Element => push_element(alloc, out, names, op),
    }
}

/// Appends an expression of these operators and `end`.
pub fn push_constant(
    alloc: Global,
    out: &mut String,
    names: &Names,
    usage: Usage,
    placed: &[(Operator<'_>, u64)],
) -> Written
    ensures { OnOk result (string_bytes out.new ≡ string_bytes out.old ++ constant_text names.now usage placed.now) }
{
    match placed {
        [] => out.push_str("<EMPTY>"),
        [only] => push_single(alloc, out, names, usage, &only.0),
        [first, more @ ..] => push_operators(out, names, &first.0, more),
    }
}

/// Returns the number of an expression that is a constant of the type i32 or i64; unsigned.
pub fn number_of(placed: &[(Operator<'_>, u64)]) -> Option<u64>
    ensures { result ≡ number_of placed.now }
{
    match placed {
        [only] => match &only.0 {
            Operator::I32Const { value } => Some(u64::from(value.cast_unsigned())),
            Operator::I64Const { value } => Some(value.cast_unsigned()),
            _ => None,
        },
        _ => None,
    }
}
