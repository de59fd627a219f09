//! Specification: Validation, Modules.
ghost use Rattle.std.specs.Prelude.{◌≡◌, ◌≢◌, ◌↔◌, IsTrue, true, false, MatchOption};
ghost use Rattle.wasm_sections.specs.Order.{place_of, MayComeAfter, place_after, or_zero, functions_fault, data_fault};

use wasm_below::Malformed;

/// Returns the place in a module of sections with this id, from 1; 0 for custom sections and
/// unknown ids, which may be anywhere.
pub fn place_of(id: u8) -> u8
    ensures { result ≡ place_of id }
{
    match id {
        1 => 1,
        2 => 2,
        3 => 3,
        4 => 4,
        5 => 5,
        13 => 6,
        6 => 7,
        7 => 8,
        8 => 9,
        9 => 10,
        12 => 11,
        10 => 12,
        11 => 13,
        _ => 0,
    }
}

/// Checks the order of sections. A new value comes before the first section.
#[derive(Clone, Copy, Debug, Default, PartialEq, Eq)]
pub struct SectionOrder {
    /// The greatest place so far.
    pub last: u8,
}

impl SectionOrder {
    /// Returns whether a section with this id may come next, and takes note of it if so.
    pub fn advance(&mut self, id: u8) -> bool
        ensures may { IsTrue result ↔ MayComeAfter self.old.last id }
        ensures taken { result ≡ true → self.new.last ≡ place_after self.old.last id }
        ensures refused { result ≡ false → self.new ≡ self.old }
    {
        let place = place_of(id);
        if place == 0 {
            return true;
        }
        if place <= self.last {
            return false;
        }
        self.last = place;
        true
    }
}

/// The counts at the start of the sections that were read.
#[derive(Clone, Copy, Debug, Default, PartialEq, Eq)]
pub struct SectionCounts {
    pub functions: Option<u32>,
    pub bodies: Option<u32>,
    pub data: Option<u32>,
    pub data_count: Option<u32>,
}

impl SectionCounts {
    /// Returns what is wrong with the counts of the function section and of the code section.
    pub fn functions_fault(&self) -> Option<Malformed>
        ensures fault { result ≡ functions_fault self.now.functions self.now.bodies }
        ensures equal { MatchOption result (or_zero self.now.functions ≡ or_zero self.now.bodies) (λ fault. or_zero self.now.functions ≢ or_zero self.now.bodies) }
    {
        match (self.functions, self.bodies) {
            (Some(n), Some(m)) => {
                if n == m {
                    None
                } else {
                    Some(Malformed::FunctionCounts)
                }
            }
            (Some(n), None) => {
                if n == 0 {
                    None
                } else {
                    Some(Malformed::NoCode)
                }
            }
            (None, Some(m)) => {
                if m == 0 {
                    None
                } else {
                    Some(Malformed::NoFunctions)
                }
            }
            (None, None) => None,
        }
    }

    /// Returns what is wrong with the data count and the count of the data section.
    pub fn data_fault(&self) -> Option<Malformed>
        ensures { result ≡ data_fault self.now.data_count self.now.data }
    {
        match (self.data_count, self.data) {
            (Some(n), Some(m)) => {
                if n == m {
                    None
                } else {
                    Some(Malformed::DataCounts)
                }
            }
            (Some(n), None) => {
                if n == 0 {
                    None
                } else {
                    Some(Malformed::NoData)
                }
            }
            (None, _) => None,
        }
    }
}
