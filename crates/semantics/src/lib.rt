// The vocabulary that every promise speaks in: systems with inputs, outputs and errors, their traces, what may replace
// what, and couplings. The definitions stand in specs/. Apart from the way of an action, and the refusal of a number that
// stands for nothing, there is no code here: each function below is a theorem, its contract the statement, and running it
// does nothing.
#![tactic(auto)]

mod coupling;
mod deciding;
mod examples;
mod replacement;
mod traces;
mod unknown;
mod way;

pub use coupling::{coupling_goes_state_by_state, coupling_is_determined, coupling_is_well_formed};
pub use deciding::{reach_keeps_its_rules, sets_are_exact, words_are_decided};
pub use examples::{
    late_input_is_missed, output_into_error_counts_before_it, relay_misses_a_second_reply,
    replying_may_not_replace_silent, silent_may_replace_replying,
};
pub use replacement::{
    coupling_preserves_replacement, replacement_chains, replacement_is_reflexive,
};
pub use traces::{
    error_traces_by_illegal_states, error_traces_gain_letters, error_traces_lose_outputs,
};
pub use unknown::Unknown;
pub use way::Way;
