//! Constant expressions as parts of segments, globals and tables. Specification: Binary Format,
//! Expressions.
//!
//! A read that returns `Err` leaves the reader unchanged. Reading a constant expression may allocate.
#![tactic(auto)]

mod constant;

pub use constant::Constant;

pub type Element<'a> = wasm_segments::Element<'a, Constant<'a>>;

pub type ElementKind<'a> = wasm_segments::ElementKind<Constant<'a>>;

pub type ElementItems<'a> = wasm_segments::ElementItems<'a, Constant<'a>>;

pub type Data<'a> = wasm_segments::Data<'a, Constant<'a>>;

pub type DataKind<'a> = wasm_segments::DataKind<Constant<'a>>;

pub type Global<'a> = wasm_segments::Global<Constant<'a>>;

pub type Table<'a> = wasm_segments::Table<Constant<'a>>;

pub type TableInit<'a> = wasm_segments::TableInit<Constant<'a>>;
