//! What a refusal is about, by name, where its rule shows no names, or not the declaration that it goes by: a line of text.
//!
//! - [`add_names`]: the line for W8, W9, V1, V2, V3, V4, V5, V8, V10, V12, V13, V14, V15 and V16, with why a variable in it isn't stable.
//! - [`add_held`]: the names of the locks that are held.
//! - [`missing_guarantee_is_told`] and [`unmet_assumption_is_missing`] have no body: their contracts are laws, that the line of W9 tells of
//!   the threads that have the names, and that there is one.
//! - [`forbidden_access_is_told`], likewise: the line of V1, or of V2, is there exactly where the thread may not read, or write, the variable
//!   that is shown, and tells why.
//! - [`unstable_variable_is_told`], [`unstable_predicate_is_told`], [`untyped_variable_is_told`], [`wrong_number_is_told`], likewise: the line
//!   for a variable that isn't stable tells why, and that of V12, V14 or V13 tells of what the rule asks and doesn't hold.
//! - [`unstable_part_is_told`], [`unstable_reads_are_told`], likewise: the line of V5 tells why the variable that is shown isn't stable, and where it is under no lock what is mostly done, and that of V3
//!   of the first two reads that the rule forbids.
//! - [`width_is_told`], likewise: the line of V10 tells how wide the expression is.
//! - [`bad_type_is_told`], [`bad_class_is_told`], likewise: the line of V4 tells of the first type that isn't over stable controls, or the class by which
//!   that of a value isn't, and why.
//! - [`one_too_many_is_told`], likewise: the line of V15 tells of what is added where there are as many predicates as there may be.
//! - [`large_term_is_told`], [`large_predicate_is_made`], likewise: the line of V16 at an assignment or an output tells of what has too many nodes, and
//!   predicates have them only by what is made on the way.
//! - [`differing_lock_is_told`], [`some_lock_differs`], likewise: of each lock that is held at one of two ends alone a line of V8 tells by which
//!   statements, and there is one.
//! - [`locks_of_lines_are_those_of_rules`], likewise: the locks that are held in front of the statement at a place are those of the rules.
//!
//! | `src/` | `specs/` | what it has |
//! |---|---|---|
//! | `refused` | `RefusalNames` | the line of a refusal |
//! | `reads`, `types`, `predicates`, `ends`, `added` | `NameLines` | the line of V3, V4, V12, V8 and V15 |
//! | `changes` | `LockChanges` | the lines behind that of V8: which statements take the locks and give them back |
//! | `guarantees` | `MissingGuarantees` | the line of W9 |
//! | `locked_controls` | `LockedControls` | the line of W8: the lock that a control is under |
//! | `access` | `ForbiddenAccess` | the line of V1 and V2 |
//! | `large` | `LargeTerms` | the line of V16 |
//! | `wide` | `WideExpressions` | the line of V10 |
//! | | `ToldPredicates` | what the line of V12 tells of |
//! | `given_types` | `GivenTypes` | the line of V14 |
//! | `given_numbers` | `GivenNumbers` | the line of V13 |
//! | `unasked` | `UnaskedStores` | behind that of V13: that nothing is asked of a store, and what hides the variable |
//! | `unstable` | `UnstableVariables` | the line of V5, and behind those of V3, V4, V12 and V14: why a variable isn't stable |
//! | | `ToldReads` | what the line of V3 tells of |
//! | | `ToldTypes` | what the line of V4 tells of |
//! | | `ToldAdded` | what the line of V15 tells of |
//! | | `ToldLarge` | what the line of V16 tells of |
//! | | `ToldLocks` | what the lines of V8 tell of |
//! | `laws` | | laws of the lines of W9, V1, V2, V12, V13 and V14, and of why a variable isn't stable |
//! | `read_laws`, `type_laws`, `size_laws`, `lock_laws` | | laws of the lines of V3, V5 and V10, of V4, of V15 and V16, and of V8 |
//! | `outside` | `OutsideVariables` | variables outside of a set |
//! | `sets` | `StableSets` | what types are judged by at a place, and the locks that are held where a statement states what holds |
//!
//! `specs/SpokenParts.antt` says of which expressions of a statement rules speak.
#![tactic(auto)]

mod access;
mod added;
mod changes;
mod ends;
mod given_numbers;
mod given_types;
mod guarantees;
mod large;
mod laws;
mod lock_laws;
mod locked_controls;
mod outside;
mod predicates;
mod read_laws;
mod reads;
mod refused;
mod sets;
mod size_laws;
mod type_laws;
mod types;
mod unasked;
mod unstable;
mod wide;

pub use ends::add_held;
pub use laws::{
    forbidden_access_is_told, missing_guarantee_is_told, unmet_assumption_is_missing,
    unstable_predicate_is_told, unstable_variable_is_told, untyped_variable_is_told,
    wrong_number_is_told,
};
pub use lock_laws::{differing_lock_is_told, locks_of_lines_are_those_of_rules, some_lock_differs};
pub use read_laws::{unstable_part_is_told, unstable_reads_are_told, width_is_told};
pub use refused::add_names;
pub use size_laws::{large_predicate_is_made, large_term_is_told, one_too_many_is_told};
pub use type_laws::{bad_class_is_told, bad_type_is_told};
