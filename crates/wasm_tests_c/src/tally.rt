use std::io::{self, Print};

const PRINTED: u64 = 3;

#[derive(Clone, Copy)]
pub struct Tally {
    call: &'static str,
    cases: u64,
    differ: u64,
}

impl Tally {
    pub fn new(call: &'static str) -> Tally {
        Tally {
            call,
            cases: 0,
            differ: 0,
        }
    }

    pub fn compare<R: Print>(&mut self, rt: &R, found: &str, expected: &str) -> io::Result<()> {
        self.cases = self.cases.saturating_add(1);
        if found == expected {
            return Ok(());
        }
        self.differ = self.differ.saturating_add(1);
        if self.differ > PRINTED {
            return Ok(());
        }
        println!(rt; "{}: {found}, and not {expected}", self.call)
    }

    pub fn print<R: Print>(&self, rt: &R) -> io::Result<()> {
        println!(rt;
            "{}: {} cases, {} differ",
            self.call, self.cases, self.differ
        )
    }
}
