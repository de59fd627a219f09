//! Proved callers of `wasm_operators`, `wasm_encode` and `wasm_check`, which cite public contracts and laws only.
//!
//! A call that allocates may fail with `OutOfMemory`.
#![tactic(auto)]

mod again;
mod beginnings;
mod bodies;
mod calls;
mod constant;
mod constants;
mod copies;
mod count;
mod frames;
mod heights;
mod iterating;
mod list;
mod locals;
mod longest;
mod module;
mod numbers;
mod own_visits;
mod paths;
mod peephole;
mod places;
mod reserved;
mod rest;
mod same;
mod sections;
mod single;
mod single_steps;
mod skipping;
mod step_simd;
mod tally;
mod typed_heights;
mod vectors;

pub use again::operators_again;
pub use beginnings::{
    Missing, allowed_operators, beginning_len, expression_size, missing_after, refused_twice,
};
pub use bodies::{body_len, first_declaration, is_body, locals_size};
pub use calls::called_functions;
pub use constant::read_offset;
pub use constants::constant_size;
pub use copies::{copy_without_list, opcode};
pub use count::{Count, count_operators};
pub use frames::{MaybeInside, is_over};
pub use heights::{HeightFault, Heights, heights_of_body};
pub use iterating::iterated;
pub use list::operators;
pub use locals::{Body, read_body, read_locals};
pub use longest::{Kept, longest_beginning};
pub use module::{BlockArity, Context, Frame};
pub use numbers::{
    peek_array_access, peek_block_type, peek_branch_table, peek_cast, peek_count, peek_f64,
    peek_fence, peek_i32, peek_index, peek_memory_argument, peek_ordering, peek_select,
    read_limits, value_size,
};
pub use own_visits::{Moves, count_moves};
pub use paths::{read_along, read_both};
pub use peephole::{with_tees, write_with_tees};
pub use places::{bytes_before_refusal, range_of, read_ranged, refusal_distance};
pub use reserved::{operators_reserved, read_reserved};
pub use rest::read_rest;
pub use same::{
    same_block_type, same_branch_table, same_code, same_memory_argument, same_operator, same_tree,
    same_type,
};
pub use sections::read_indices;
pub use single::{Inside, operator_inside};
pub use single_steps::{
    Complaint, asked_twice, first_and_rest, first_operator, is_whole, next_complaint, next_refusal,
    operator_refusal, operator_size, read_in_step, scalar_refusal, why_refused,
};
pub use skipping::skip_operators;
pub use step_simd::{count_before_simd, has_simd};
pub use tally::{Tally, tally_list, tally_next, tally_next_scalar, tally_owned, tally_scalar};
pub use typed_heights::{NoHeights, heights_of_typed_body};
pub use vectors::{number_of, signed_number_of, vector_of, vector_of_signed};
