//! What a refusal for want of a valid certificate asked (V9), in plain text.
//!
//! - [`add_asked`]: of the entailment for which a program is refused what it asks, its goal, its hypotheses, each with
//!   where it comes from (`entail_origins`), and its certificate (`entail_text`); then what is found for it (there too), a certificate or a memory that breaks it; which guards give no predicate, and why (`specs/UnknownGuards.antt`), who may read
//!   (`specs/Readers.antt`); and where no certificate is found, which declaration asks (`specs/AskedBy.antt`), what is mostly done (`specs/Cleared.antt`), where the types come from that
//!   make up the goal (`entail_origins`), what could be noted in front (`specs/Noted.antt`), what no invariant mentions (`specs/InvariantsWithout.antt`), to which variables nothing is stored (`specs/Unstored.antt`, `specs/OnTheWay.antt`), and which of
//!   what was lost on the way would help (`entail_losses`).
//! - [`other_refusals`]: of its thread and of the threads behind it, the first refusal of each by a rule that isn't about certificates, and then the other entailments that have no
//!   valid certificate, as refusals.
//! - [`sort_refusals`]: refusals by whether a certificate is found for what was asked, each such with the certificate (`specs/Suggested.antt`).
//! - [`refused_entailment_is_listed`] and [`refusal_is_told`], which are laws: there is always such an entailment, and it is the one
//!   whose certificate isn't valid. `specs/RefusedEntailment.antt` says so.
//! - [`hypotheses_are_of_the_site`], a law too: the hypotheses of an entailment are what is known at the point of its site, with one
//!   expression more just where its question has one, and its goal is that of the question there. `specs/SiteHypotheses.antt` says so.
//! - [`sites_lead_to_the_point_asked`], another: the steps of a site lead to the point of which its question asks.
//!
//! `specs/Asked.antt` says which entailment that is, `specs/Sites.antt` the point of which it asks and the steps to it, by
//! which its hypotheses, types and what was left out are sought, and
//! `specs/GivenElsewhere.antt` which certificates of other entailments are told of, and `specs/OtherRefusals.antt` which others of the thread, and of those behind it, are refused.
#![tactic(auto)]

mod asked_by;
mod cleared;
mod entailment;
mod further;
mod given;
mod invariants_without;
mod laws;
mod noted;
mod on_the_way;
mod others;
mod readers;
mod remarked;
mod site;
mod site_laws;
mod suggested;
mod unknown_guards;
mod unstored;

pub use entailment::add_asked;
pub use laws::{refusal_is_told, refused_entailment_is_listed};
pub use others::other_refusals;
pub use site_laws::{hypotheses_are_of_the_site, sites_lead_to_the_point_asked};
pub use suggested::{Found, Sorted, sort_refusals};
