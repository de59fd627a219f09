//! The lines of the input: cells with tabs between them. Bytes are in hexadecimal.

#[derive(Clone, Copy)]
pub struct Body<'r> {
    pub features: u32,
    pub bytes: &'r str,
    /// The error's number or 0, its offset or the end's, and the number of operators.
    pub end: &'r str,
    pub lines: &'r str,
    pub text: &'r str,
    /// How reading by `wasm_next_plain`, without SIMD operators, ends.
    pub plain: &'r str,
    /// How reading the bytes as a constant expression ends, and as locals.
    pub constant: &'r str,
    pub locals: &'r str,
}

pub fn body_of<'r>(line: &'r str) -> Option<Body<'r>> {
    let mut cells = line.split('\t');
    let "body" = cells.next()? else {
        return None;
    };
    Some(Body {
        features: cells.next()?.parse::<u32>().ok()?,
        bytes: cells.next()?,
        end: cells.next()?,
        lines: cells.next()?,
        text: cells.next()?,
        plain: cells.next()?,
        constant: cells.next()?,
        locals: cells.next()?,
    })
}

/// A function body with an operator that has a list.
#[derive(Clone, Copy)]
pub struct List<'r> {
    pub name: &'r str,
    pub bytes: &'r str,
    pub at: u64,
    /// How many members there are, and the members.
    pub members: &'r str,
}

pub fn list_of<'r>(line: &'r str) -> Option<List<'r>> {
    let mut cells = line.split('\t');
    let "list" = cells.next()? else {
        return None;
    };
    Some(List {
        name: cells.next()?,
        bytes: cells.next()?,
        at: cells.next()?.parse::<u64>().ok()?,
        members: cells.next()?,
    })
}

/// A function body with an operator at an offset.
#[derive(Clone, Copy)]
pub struct Encoding<'r> {
    pub bytes: &'r str,
    pub at: u64,
    /// The operator's shortest encoding.
    pub shortest: &'r str,
}

pub fn encoding_of<'r>(line: &'r str) -> Option<Encoding<'r>> {
    let mut cells = line.split('\t');
    let "encode" = cells.next()? else {
        return None;
    };
    Some(Encoding {
        bytes: cells.next()?,
        at: cells.next()?.parse::<u64>().ok()?,
        shortest: cells.next()?,
    })
}

/// A code section with one body.
#[derive(Clone, Copy)]
pub struct Code<'r> {
    /// The numbers of each declaration of locals, which a semicolon follows.
    pub locals: &'r str,
    pub operators: &'r str,
    pub section: &'r str,
}

pub fn code_of<'r>(line: &'r str) -> Option<Code<'r>> {
    let mut cells = line.split('\t');
    let "code" = cells.next()? else {
        return None;
    };
    Some(Code {
        locals: cells.next()?,
        operators: cells.next()?,
        section: cells.next()?,
    })
}

#[derive(Clone, Copy)]
pub struct Text<'r> {
    pub bytes: &'r str,
    pub text: &'r str,
}

pub fn text_of<'r>(line: &'r str) -> Option<Text<'r>> {
    let mut cells = line.split('\t');
    let "text" = cells.next()? else {
        return None;
    };
    Some(Text {
        bytes: cells.next()?,
        text: cells.next()?,
    })
}

#[derive(Clone, Copy)]
pub struct Value<'r> {
    pub kind: u32,
    pub argument: u64,
    pub bytes: &'r str,
    /// The value's numbers and the position after it, or the error's number and offset.
    pub outcome: &'r str,
}

pub fn value_of<'r>(line: &'r str) -> Option<Value<'r>> {
    let mut cells = line.split('\t');
    let "value" = cells.next()? else {
        return None;
    };
    Some(Value {
        kind: cells.next()?.parse::<u32>().ok()?,
        argument: cells.next()?.parse::<u64>().ok()?,
        bytes: cells.next()?,
        outcome: cells.next()?,
    })
}

#[derive(Clone, Copy)]
pub struct Module<'r> {
    /// Whether the lengths and the types of the functions are known.
    pub is_whole: bool,
    pub bytes: &'r str,
    pub functions: &'r str,
}

pub fn module_of<'r>(line: &'r str) -> Option<Module<'r>> {
    let mut cells = line.split('\t');
    let is_whole = match cells.next()? {
        "module" => false,
        "function" => true,
        _ => return None,
    };
    Some(Module {
        is_whole,
        bytes: cells.next()?,
        functions: cells.next()?,
    })
}

/// A module, valid or not.
#[derive(Clone, Copy)]
pub struct Validation<'r> {
    pub bytes: &'r str,
    /// `ok`, or the offset of the error, the function that it is in or `-`, and the message.
    pub verdict: &'r str,
}

pub fn validation_of<'r>(line: &'r str) -> Option<Validation<'r>> {
    let mut cells = line.split('\t');
    let "validate" = cells.next()? else {
        return None;
    };
    Some(Validation {
        bytes: cells.next()?,
        verdict: cells.next()?,
    })
}
