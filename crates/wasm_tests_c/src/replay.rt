use crate::encodings::write_encoding;
use crate::lists::{write_catches, write_clauses, write_targets, write_types};
use crate::modules::{self, write_functions};
use crate::outcomes::{write_end, write_lines, write_outcome, write_text};
use crate::reading::{Found, Source, by_batches, step_by_step, whole};
use crate::row::{
    Body, Code, Encoding, List, Module, Text, Validation, Value, body_of, code_of, encoding_of,
    list_of, module_of, text_of, validation_of, value_of,
};
use crate::sections::write_section;
use crate::tally::Tally;
use crate::validations::write_verdict;
use crate::values::{write_constant, write_locals, write_value};
use std::alloc::Global;
use std::io::{self, Print};
use wasm_tests_texts::read_hex;

/// The cases so far, by call.
#[derive(Drop)]
pub struct Replay {
    alloc: Global,
    read_body: Tally,
    name: Tally,
    text: Tally,
    next: Tally,
    batches: Tally,
    plain: Tally,
    constant: Tally,
    locals: Tally,
    open: Tally,
    targets: Tally,
    types: Tally,
    catches: Tally,
    clauses: Tally,
    operator_text: Tally,
    value: Tally,
    module: Tally,
    encoding: Tally,
    code: Tally,
    validation: Tally,
    unread: Tally,
}

impl Replay {
    pub fn new(alloc: Global) -> Replay {
        Replay {
            alloc,
            read_body: Tally::new("wasm_read_body"),
            name: Tally::new("wasm_operator_name"),
            text: Tally::new("wasm_refusal_text"),
            next: Tally::new("wasm_open_body, wasm_next, wasm_finish"),
            batches: Tally::new("wasm_open_body, wasm_read, wasm_finish"),
            plain: Tally::new("wasm_open_body, wasm_next_plain, wasm_finish"),
            constant: Tally::new("wasm_read_value of constant expressions"),
            locals: Tally::new("wasm_read_value of locals"),
            open: Tally::new("wasm_open, wasm_read, wasm_finish"),
            targets: Tally::new("wasm_br_table_targets"),
            types: Tally::new("wasm_select_types"),
            catches: Tally::new("wasm_try_table_catches"),
            clauses: Tally::new("wasm_resume_handlers"),
            operator_text: Tally::new("wasm_operator_text, wasm_operator_text_name"),
            value: Tally::new("wasm_read_value"),
            module: Tally::new("wasm_open_bodies, wasm_next_body, wasm_function_name"),
            encoding: Tally::new("wasm_encode_operator"),
            code: Tally::new("wasm_encode_locals, wasm_encode_body, wasm_encode_section"),
            validation: Tally::new("wasm_validate_module"),
            unread: Tally::new("lines of another sort"),
        }
    }

    pub fn line<R: Print>(&mut self, rt: &R, line: &str) -> io::Result<()> {
        if let Some(body) = body_of(line) {
            self.body(rt, &body)
        } else if let Some(list) = list_of(line) {
            self.list(rt, &list)
        } else if let Some(text) = text_of(line) {
            self.text(rt, &text)
        } else if let Some(value) = value_of(line) {
            self.value(rt, &value)
        } else if let Some(module) = module_of(line) {
            self.module(rt, &module)
        } else if let Some(encoding) = encoding_of(line) {
            self.encoding(rt, &encoding)
        } else if let Some(code) = code_of(line) {
            self.code(rt, &code)
        } else if let Some(validation) = validation_of(line) {
            self.validation(rt, &validation)
        } else {
            self.unread.compare(rt, line, "a line of a known sort")
        }
    }

    /// Compares an operator's text, and its name: the text up to its first space.
    fn text<R: Print>(&mut self, rt: &R, text: &Text<'_>) -> io::Result<()> {
        let alloc = self.alloc;
        let mut bytes = Vec::new(alloc);
        read_hex(&mut bytes, text.bytes)?;
        let mut found = String::new(alloc);
        modules::write_text(alloc, &mut found, bytes.as_slice(), false)?;
        found.push_str(" is ")?;
        modules::write_text(alloc, &mut found, bytes.as_slice(), true)?;
        let mut words = text.text.split(' ');
        let name = words.next().unwrap_or("");
        let expected = format!(in alloc; "{} is {name}", text.text)?;
        self.operator_text
            .compare(rt, found.as_str(), expected.as_str())
    }

    fn value<R: Print>(&mut self, rt: &R, value: &Value<'_>) -> io::Result<()> {
        let alloc = self.alloc;
        let mut bytes = Vec::new(alloc);
        read_hex(&mut bytes, value.bytes)?;
        let mut found = String::new(alloc);
        write_value(
            alloc,
            &mut found,
            bytes.as_slice(),
            value.kind,
            value.argument,
        )?;
        self.value.compare(rt, found.as_str(), value.outcome)
    }

    fn module<R: Print>(&mut self, rt: &R, module: &Module<'_>) -> io::Result<()> {
        let alloc = self.alloc;
        let mut bytes = Vec::new(alloc);
        read_hex(&mut bytes, module.bytes)?;
        let mut found = String::new(alloc);
        write_functions(alloc, &mut found, bytes.as_slice(), module.is_whole)?;
        self.module.compare(rt, found.as_str(), module.functions)
    }

    /// Compares the shortest encoding, and the errors for too little space and for another shape.
    fn encoding<R: Print>(&mut self, rt: &R, encoding: &Encoding<'_>) -> io::Result<()> {
        let alloc = self.alloc;
        let mut bytes = Vec::new(alloc);
        read_hex(&mut bytes, encoding.bytes)?;
        let mut found = String::new(alloc);
        write_encoding(alloc, &mut found, bytes.as_slice(), encoding.at)?;
        let expected = format!(in alloc; "{} 102 true 112", encoding.shortest)?;
        self.encoding.compare(rt, found.as_str(), expected.as_str())
    }

    /// Compares a code section, and the errors for too little space and for no value type.
    fn code<R: Print>(&mut self, rt: &R, code: &Code<'_>) -> io::Result<()> {
        let alloc = self.alloc;
        let mut operators = Vec::new(alloc);
        read_hex(&mut operators, code.operators)?;
        let mut found = String::new(alloc);
        write_section(alloc, &mut found, code.locals, operators.as_slice())?;
        let expected = format!(in alloc; "{} 102 true 102 true 112 112", code.section)?;
        self.code.compare(rt, found.as_str(), expected.as_str())
    }

    /// Compares the verdict, with a part of the message, and the error for unknown features.
    fn validation<R: Print>(&mut self, rt: &R, validation: &Validation<'_>) -> io::Result<()> {
        let alloc = self.alloc;
        let mut bytes = Vec::new(alloc);
        read_hex(&mut bytes, validation.bytes)?;
        let mut found = String::new(alloc);
        write_verdict(alloc, &mut found, bytes.as_slice())?;
        let expected = format!(in alloc; "{} true true", validation.verdict)?;
        self.validation
            .compare(rt, found.as_str(), expected.as_str())
    }

    /// Compares the calls that read a body. Without locals, the bytes after the first are an
    /// expression.
    fn body<R: Print>(&mut self, rt: &R, body: &Body<'_>) -> io::Result<()> {
        let alloc = self.alloc;
        let mut bytes = Vec::new(alloc);
        read_hex(&mut bytes, body.bytes)?;
        let source = Source {
            bytes: bytes.as_slice(),
            offset: 0,
            features: body.features,
            is_body: true,
        };
        self.whole(rt, body, &source)?;
        self.other_ways(rt, body, &source)?;
        let found = step_by_step(alloc, &source, false)?;
        compare(alloc, rt, &mut self.next, &found, body)?;
        let found = by_batches(alloc, &source)?;
        compare(alloc, rt, &mut self.batches, &found, body)?;
        let Some((first, expression)) = bytes.as_slice().split_first() else {
            return Ok(());
        };
        if *first != 0 {
            return Ok(());
        }
        let source = Source {
            bytes: expression,
            offset: 1,
            features: body.features,
            is_body: false,
        };
        let found = by_batches(alloc, &source)?;
        compare(alloc, rt, &mut self.open, &found, body)
    }

    /// Compares reading a body by `wasm_next_plain`, as a constant expression and as locals.
    fn other_ways<R: Print>(
        &mut self,
        rt: &R,
        body: &Body<'_>,
        source: &Source<'_>,
    ) -> io::Result<()> {
        let alloc = self.alloc;
        let mut text = String::new(alloc);
        write_outcome(&mut text, &step_by_step(alloc, source, true)?)?;
        self.plain.compare(rt, text.as_str(), body.plain)?;
        text.clear();
        write_constant(alloc, &mut text, source.bytes, body.features)?;
        self.constant.compare(rt, text.as_str(), body.constant)?;
        text.clear();
        write_locals(alloc, &mut text, source.bytes, body.features)?;
        self.locals.compare(rt, text.as_str(), body.locals)
    }

    /// Compares the call that reads a body at once, the operators' names and the error's text; then
    /// that call with an array for half of the operators.
    fn whole<R: Print>(&mut self, rt: &R, body: &Body<'_>, source: &Source<'_>) -> io::Result<()> {
        let alloc = self.alloc;
        let found = whole(alloc, source, source.bytes.len())?;
        let mut text = String::new(alloc);
        write_end(&mut text, &found)?;
        self.read_body.compare(rt, text.as_str(), body.end)?;
        text.clear();
        write_lines(alloc, &mut text, found.operators.as_slice())?;
        self.name.compare(rt, text.as_str(), body.lines)?;
        text.clear();
        write_text(&mut text, &found.end)?;
        self.text.compare(rt, text.as_str(), body.text)?;
        text.clear();
        let found = whole(alloc, source, found.count / 2)?;
        write_end(&mut text, &found)?;
        self.read_body.compare(rt, text.as_str(), body.end)
    }

    fn list<R: Print>(&mut self, rt: &R, list: &List<'_>) -> io::Result<()> {
        let alloc = self.alloc;
        let mut bytes = Vec::new(alloc);
        read_hex(&mut bytes, list.bytes)?;
        let mut text = String::new(alloc);
        match list.name {
            "BrTable" => {
                write_targets(alloc, &mut text, bytes.as_slice(), list.at)?;
                self.targets.compare(rt, text.as_str(), list.members)
            }
            "TypedSelect" | "TypedSelectMulti" => {
                write_types(alloc, &mut text, bytes.as_slice(), list.at)?;
                self.types.compare(rt, text.as_str(), list.members)
            }
            "TryTable" => {
                write_catches(alloc, &mut text, bytes.as_slice(), list.at)?;
                self.catches.compare(rt, text.as_str(), list.members)
            }
            _ => {
                write_clauses(alloc, &mut text, bytes.as_slice(), list.at)?;
                self.clauses.compare(rt, text.as_str(), list.members)
            }
        }
    }

    pub fn print<R: Print>(&self, rt: &R) -> io::Result<()> {
        self.read_body.print(rt)?;
        self.name.print(rt)?;
        self.text.print(rt)?;
        self.next.print(rt)?;
        self.batches.print(rt)?;
        self.plain.print(rt)?;
        self.constant.print(rt)?;
        self.locals.print(rt)?;
        self.open.print(rt)?;
        self.targets.print(rt)?;
        self.types.print(rt)?;
        self.catches.print(rt)?;
        self.clauses.print(rt)?;
        self.module.print(rt)?;
        self.operator_text.print(rt)?;
        self.value.print(rt)?;
        self.encoding.print(rt)?;
        self.code.print(rt)?;
        self.validation.print(rt)?;
        self.unread.print(rt)
    }
}

fn compare<R: Print>(
    alloc: Global,
    rt: &R,
    tally: &mut Tally,
    found: &Found,
    body: &Body<'_>,
) -> io::Result<()> {
    let mut text = String::new(alloc);
    write_end(&mut text, found)?;
    text.push_str(" ")?;
    write_lines(alloc, &mut text, found.operators.as_slice())?;
    let expected = format!(in alloc; "{} {}", body.end, body.lines)?;
    tally.compare(rt, text.as_str(), expected.as_str())
}
