use wasm_operators::{Error, Operator};

pub type Listed<'l, 'a> = &'l [(Operator<'a>, u64)];

/// The number of operators that a call returned, and the error after them.
#[derive(Clone, Copy, Debug, PartialEq, Eq)]
pub struct Reported {
    pub operators: usize,
    pub refusal: Option<Error>,
    /// Whether each operator equals the list's at its index, and an error changed nothing.
    pub is_right: bool,
}

impl Reported {
    pub fn new() -> Reported {
        Reported {
            operators: 0,
            refusal: None,
            is_right: true,
        }
    }

    pub fn give(&mut self, list: Listed<'_, '_>, op: &Operator<'_>) {
        let is_listed = match list.get(self.operators) {
            Some((listed, _)) => *listed == *op,
            None => false,
        };
        self.check(is_listed);
        self.operators = self.operators.saturating_add(1);
    }

    pub fn give_at(&mut self, list: Listed<'_, '_>, op: &Operator<'_>, offset: u64) {
        let place = offset_at(list, self.operators);
        self.check(place == Some(offset));
        self.give(list, op);
    }

    pub fn check(&mut self, is_so: bool) {
        self.is_right = self.is_right && is_so;
    }

    pub fn lacked_memory(&self) -> bool {
        match self.refusal {
            Some(e) => is_memory(e),
            None => false,
        }
    }
}

pub fn is_memory(e: Error) -> bool {
    e.message().number() == 3
}

pub fn offset_at(list: Listed<'_, '_>, place: usize) -> Option<u64> {
    match list.get(place) {
        Some((_, offset)) => Some(*offset),
        None => None,
    }
}
