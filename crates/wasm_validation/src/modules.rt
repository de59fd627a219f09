ghost use Rattle.std.specs.Prelude.{◌≡◌, OnOk, IfOk, IfErr};
ghost use Rattle.wasm_module_context.specs.Payloads.{AddsPayload};
ghost use Rattle.wasm_payloads.specs.declared.payload.Payload.TheVariants as payload;
ghost use Rattle.wasm_validation.specs.Faults.{FailsToAdd, IsExhausted, IsFirstFault, Refuses, StopsLater};
ghost use Rattle.wasm_validation.specs.Valid.{first, IsValid, IsValidFrom, IsValidModule};

use crate::fault::{Fault, FaultyBody};
use std::alloc::Global;
use std::marker::Model;
use wasm_below::BinaryReader;
use wasm_check::{ModuleContext, check_body};
use wasm_context::Context;
use wasm_module_context::add_payload;
use wasm_payloads::{Parser, Payload, parse_all};
use wasm_subtypes::Types;

/// Validates the payloads of a module, one after the other: the context that the payloads so far give,
/// and the index of the function whose body is next.
#[derive(Drop)]
pub struct Validator {
    context: Context,
    next: u64,
}

impl Model for Validator {
    ghost use Rattle.wasm_validation.specs.Valid.{Stage};

    ghost Value = { Stage };

    ghost view = { λ s. record { context = s.context; next = s.next } };
}

impl Validator {
    /// Creates a validator for the first payload of a module.
    pub fn new(alloc: Global) -> Validator
        ensures { result ≡ first }
    {
        Validator {
            context: Context::new(alloc, Types::new(alloc)),
            next: 0,
        }
    }

    /// Validates the next payload that `Parser` gives. Returns the validator for the one after it.
    pub fn payload<'a>(self, alloc: Global, payload: Payload<'a>) -> Result<Validator, Fault<'a>>
        // On `Ok`, the payload is valid in the context of those before it.
        ensures valid { IfOk result (λ new. IsValid payload.entry self new) }
        // On an error, allocation failed, or the payload is not valid for the reason that the error names.
        ensures error { IfErr result (λ f. Refuses payload.entry self f) }
    {
        check_payload(alloc, self, payload)
    }
}

fn check_entry<'a>(
    alloc: Global,
    stage: Validator,
    body: BinaryReader<'a>,
) -> Result<Validator, Fault<'a>>
    ensures checked { IfOk result (λ new. IsValid (payload.CodeSectionEntry body.entry) stage new) }
    ensures refused { IfErr result (λ f. Refuses (payload.CodeSectionEntry body.entry) stage f) }
{
    let Validator { context, next } = stage;
    let Ok(function) = u32::try_from(next) else {
        return Err(Fault::NoFunction(body.original_position()));
    };
    let checked = match context.function_type(function) {
        Some(ty) => check_body(alloc, &context, ty, body.clone()),
        None => return Err(Fault::NoFunction(body.original_position())),
    };
    match checked {
        Ok(()) => Ok(Validator {
            context,
            next: next + 1,
        }),
        Err(error) => Err(Fault::Body(FaultyBody {
            context,
            function,
            body,
            error,
        })),
    }
}

fn add<'a>(
    alloc: Global,
    context: Context,
    next: u64,
    payload: Payload<'a>,
) -> Result<Validator, Fault<'a>>
    ensures added { IfOk result (λ new. AddsPayload payload.entry context new.context) }
    ensures next { IfOk result (λ new. new.next ≡ next) }
    ensures refused { IfErr result (λ f. FailsToAdd payload.entry context f) }
{
    match add_payload(alloc, context, payload) {
        Ok(context) => Ok(Validator { context, next }),
        Err(e) => Err(Fault::Section(e)),
    }
}

fn check_payload<'a>(
    alloc: Global,
    stage: Validator,
    payload: Payload<'a>,
) -> Result<Validator, Fault<'a>>
    ensures checked { IfOk result (λ new. IsValid payload.entry stage new) }
    ensures refused { IfErr result (λ f. Refuses payload.entry stage f) }
{
    match payload {
        Payload::CodeSectionEntry(body) => match check_entry(alloc, stage, body) {
            Ok(next) => Ok(next),
            Err(fault) => Err(fault),
        },
        Payload::FunctionSection(items) => {
            let imported = stage.context.function_count() as u64;
            match add(
                alloc,
                stage.context,
                imported,
                Payload::FunctionSection(items),
            ) {
                Ok(next) => Ok(next),
                Err(fault) => Err(fault),
            }
        }
        Payload::UnknownSection { id, contents } => {
            Err(Fault::UnknownSection(id, contents.original_position()))
        }
        other => match add(alloc, stage.context, stage.next, other) {
            Ok(next) => Ok(next),
            Err(fault) => Err(fault),
        },
    }
}

/// Checks the payloads from a stage on.
fn check_payloads<'a>(alloc: Global, parser: Parser<'a>, stage: Validator) -> Result<(), Fault<'a>>
    ensures checked { OnOk result (IsValidFrom parser.entry stage) }
    ensures refused { IfErr result (λ f. StopsLater parser.entry stage f) }
{
    let mut payloads = parser;
    let mut stage = stage;
    'payloads: while let Some(item) = payloads.next() {
        match item {
            Ok(payload) => match check_payload(alloc, stage, payload) {
                Ok(next) => stage = next,
                Err(fault) => return Err(fault),
            },
            Err(e) => return Err(Fault::Parse(e)),
        }
    }
    Ok(())
}

/// Validates the module that the reader's bytes are. Reads it once, payload by payload.
/// Specification: Validation, Modules.
///
/// Fails with the error of the first payload that cannot be read or is not valid.
pub fn validate_module<'a>(alloc: Global, reader: BinaryReader<'a>) -> Result<(), Fault<'a>>
    // On `Ok`, the bytes encode a module that is valid.
    ensures valid { OnOk result (IsValidModule reader.entry) }
    // On an error, they encode none, unless allocation failed or there are too many types.
    ensures whole { IfErr result (λ f. (IsExhausted f → ⊥) → IsValidModule reader.entry → ⊥) }
    // The error of the first payload that can't be read or is not valid is returned.
    ensures error { IfErr result (λ f. IsFirstFault reader.entry f) }
{
    check_payloads(alloc, parse_all(alloc, reader), Validator::new(alloc))
}
