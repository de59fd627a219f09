ghost use Rattle.std.specs.Prelude.{◌≡◌, [], replicate, slice_index_or};
ghost use Rattle.wasm_listing.specs.Census.{proposals, one_more_of, CountsVisit};

use std::marker::Model;
use wasm_operators::{BrTable, ByAny, Operator, VisitOperator, Visitor};

static PROPOSALS: [&str; 19] = [
    "mvp",
    "sign_extension",
    "gc",
    "custom_descriptors",
    "saturating_float_to_int",
    "bulk_memory",
    "reference_types",
    "tail_call",
    "memory_control",
    "threads",
    "simd",
    "relaxed_simd",
    "exceptions",
    "legacy_exceptions",
    "shared_everything_threads",
    "function_references",
    "stack_switching",
    "wide_arithmetic",
    "acquire_release_atomics",
];

/// Returns the proposal of the count at this place, or the empty string.
pub fn proposal_at(place: usize) -> &'static str
    ensures { result.now ≡ slice_index_or proposals place [] }
{
    if place < 19 { PROPOSALS[place] } else { "" }
}

/// A visitor that counts the operators of each proposal.
#[derive(Debug, Drop)]
pub struct Census {
    counts: [u64; 19],
}

impl Model for Census {
    ghost use Rattle.std.specs.Prelude.{List, ℕ};

    ghost Value = { List ℕ };

    ghost view = { λ census. census.counts };
}

impl Census {
    pub fn new() -> Census
        ensures { result ≡ replicate 19 0 }
    {
        Census { counts: [0; 19] }
    }

    /// Returns the counts, in the order of `proposal_at`. A count stays at the greatest u64.
    pub fn counts(&self) -> [u64; 19]
        ensures { result ≡ self.now }
    {
        self.counts
    }

    fn count(&mut self, proposal: &str)
        ensures { self.new ≡ one_more_of proposal.now proposals self.old }
    {
        'places: for place in 0..19 {
            if proposal_at(place) == proposal {
                self.counts[place] = self.counts[place].saturating_add(1);
            }
        }
    }
}

impl Visitor for Census {
    type Output = ();

    type Visits = ByAny;

    ghost visits = { λ before op outcome after. CountsVisit before op after };

    fn visit_any(&mut self, op: Operator<'static>) {
        self.count(op.info().proposal.name());
    }
}

impl<'a> VisitOperator<'a> for Census {
    fn visit_br_table(&mut self, targets: BrTable<'a>) {
        self.count(Operator::BrTable { targets }.info().proposal.name());
    }
}
