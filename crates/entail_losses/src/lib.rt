//! What would be known at the point of which an entailment asks, had nothing on the way to it lost it, and which of that would help.
//!
//! - [`add_losses`]: a line for each predicate that would be known at a point, had a `join`, an `inv` or a `note` on the way to it listed
//!   it, with what gives it and which states left it out: in front of these, or, of a `join`, in both blocks; and for each part of a predicate that a store forgot, and that
//!   a note in front of the store would have kept. Where one alone would help (`entail_text`), and isn't contrary to what is known, only such are told; and none where all together wouldn't. Then
//!   a line for each of the first variables of the goal that no hypothesis mentions: why nothing is known of it.
//! - [`is_mentioned`]: whether one of some predicates mentions a variable.
//!
//! Laws have no body: [`left_out_would_be_known`], [`joined_would_be_known`], [`forgotten_would_be_kept`]; [`unknown_variables_are_told`], that there is such a line for each; and
//! [`few_are_found`], how many are shown.
//!
//! | `src/` | `specs/` | what it has |
//! |---|---|---|
//! | `left_out_search`, `left_out_found`, `left_out_states`, `left_out_touched` | `LeftOut` | what was left out, by one walk from the point back to the start |
//! | `forgotten_search`, `forgotten_found` | `Forgotten` | what stores forgot, by another such walk |
//! | `joined_found`, `joined_given` | `Joined` | what joins left out of what both blocks of a branch give |
//! | `unknown_variables`, `unknown_reasons`, `unknown_about` | `Unknowns`, `About` | the variables of a goal of which nothing is known, and why |
//! | `losses` | `Losses` | which of all these are told |
//! | `left_out_lines`, `forgotten_lines`, `unknown_lines`, `state_words` | `LeftOutLines`, `ForgottenLines`, `UnknownLines`, `StateWords` | the lines of all |
//! | `left_out_laws` | `WouldBeKnown`, `WouldBeJoined`, `WouldBeKept` | that each of them would be known |
#![tactic(auto)]

mod forgotten_found;
mod forgotten_lines;
mod forgotten_search;
mod joined_found;
mod joined_given;
mod left_out_found;
mod left_out_laws;
mod left_out_lines;
mod left_out_search;
mod left_out_states;
mod left_out_touched;
mod losses;
mod state_words;
mod unknown_about;
mod unknown_lines;
mod unknown_reasons;
mod unknown_variables;

pub use left_out_laws::{
    few_are_found, forgotten_would_be_kept, joined_would_be_known, left_out_would_be_known,
    unknown_variables_are_told,
};
pub use losses::{Unshown, add_losses};
pub use unknown_variables::is_mentioned;
