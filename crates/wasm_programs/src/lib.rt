//! What the programs share: how they read arguments and input, and what they say of faults.
#![tactic(auto)]

mod arguments;
mod complaints;
mod features;
mod input;
mod mistake;

pub use arguments::{Argument, Choice, Kind, read_arguments};
pub use complaints::{
    CLOSED_PIPE, OUTSIDE, REFUSED, USAGE, complain_input, complain_memory, complain_mistake,
    complain_output, print_text, shown_path, shown_text,
};
pub use features::named_features;
pub use input::{read_module, words_of};
pub use mistake::{Mistake, add};
