//! Programs with certificates that a deeper search puts in: where the search of `annotate` leaves entailments open, that of `entail_search` is made for the first of them.
//!
//! - [`annotate_deeper`]: what `annotate` makes of a program into which such certificates are put.
//! - [`deeper_choices_are_valid`], [`deeper_texts_are_read`]: laws of what is put in.
//!
//! | `src/` | `specs/` | what it has |
//! |---|---|---|
//! | `annotation` | `DeeperText` | the text with what is found |
//! | `found` | `DeeperText` | what is found for open entailments |
//! | `chosen` | `DeeperText` | what is found, by threads and places |
//! | `laws` | `DeeperText` | the laws |
//!
//! `specs/Inside` has words of private contracts.
#![tactic(auto)]

mod annotation;
mod chosen;
mod found;
mod laws;

pub use annotation::annotate_deeper;
pub use laws::{deeper_choices_are_valid, deeper_texts_are_read};
