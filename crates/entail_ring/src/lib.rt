//! Normal forms of expressions as polynomials over their atoms, modulo 2^32.
//!
//! - [`normal`] is the normal form, if it isn't too large. [`ring_equal`] says whether two expressions have the same one.
//! - [`ring_equal_values`] and the functions beside it have no body: their contracts are laws.
//!
//! `specs/Polys.antt` has the arithmetic of polynomials, `specs/Ring.antt` says what the normal form of an expression is, and
//! `specs/SamePolynomial.antt` when two lists of terms are the same polynomial. `specs/Inside.antt` has words of private contracts.
#![tactic(auto)]

mod atoms;
mod forms;
mod join;
mod laws;
mod monomials;
mod multiset;
mod polys;
mod ranked;

pub use forms::{Poly, normal, ring_equal};
pub use laws::{
    equal_by_coefficients, joined_coefficients, normal_forms_are_polynomials,
    normal_forms_list_multisets, normal_lists_each_term_once, normal_over_any_table,
    ring_equal_is_same_terms, ring_equal_over_any_table, ring_equal_values,
};
