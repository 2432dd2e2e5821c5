//! The keys of a list of expressions, kept along with it.

ghost use Rattle.std.specs.Prelude.{◌≡◌, ℕ, List, [], ◌∷◌, ◌++◌, if◌then◌else◌, is_some, map, not, position, remove, IfErr, IfOk, IfSome};
ghost use Rattle.std.specs.List.{IsDistinct};
ghost use Rattle.std.specs.Str.{bytes_eq};
ghost use Rattle.cov_expr.specs.Trees as tree;
ghost use Rattle.cov_expr.specs.View.{term};
ghost use Rattle.typing_state.specs.Keys.{key};

use crate::key::{Key, key_of};
use cov_expr::{Expr, NoMemory, has_same, same};
use indexmap::IndexSet;
use std::alloc::Global;

/// The keys of expressions, in their order.
pub fn keys_of(alloc: Global, list: &[Expr]) -> Result<IndexSet<Key>, NoMemory>
    requires { IsDistinct bytes_eq (map key (map term list.now)) }
    ensures { IfOk result (λ made. made.keys ≡ map key (map term list.now)) }
{
    let mut made = IndexSet::new(alloc);
    for e in list {
        let key = key_of(alloc, e)?;
        made.insert(key)?;
    }
    Ok(made)
}

/// Equal keys, if there are any.
pub fn copy_keys(keys: &Option<IndexSet<Key>>) -> Result<Option<IndexSet<Key>>, NoMemory>
    ensures { IfOk result (λ made. (ks : List (List ℕ)) → IfSome keys.now (λ s. s.keys ≡ ks) → IfSome made (λ s. s.keys ≡ ks)) }
{
    match keys {
        Some(set) => Ok(Some(set.clone()?)),
        None => Ok(None),
    }
}

/// The index of an expression in a list, if it is there: by its key, where the list has keys.
pub fn index_in(
    alloc: Global,
    keys: &Option<IndexSet<Key>>,
    list: &[Expr],
    e: &Expr,
) -> Result<Option<usize>, NoMemory>
    requires { IfSome keys.now (λ s. s.keys ≡ map key (map term list.now)) }
    ensures index { IfOk result (λ index. index ≡ position (λ f. tree.same f (term e.now)) (map term list.now)) }
    ensures found { IfOk result (λ index. is_some index ≡ tree.has_term (map term list.now) (term e.now)) }
{
    match keys {
        Some(set) => {
            let key = key_of(alloc, e)?;
            Ok(set.get_index_of(&key))
        }
        None => Ok(index_among(list, e)),
    }
}

fn index_among(list: &[Expr], e: &Expr) -> Option<usize>
    ensures { result ≡ position (λ f. tree.same f (term e.now)) (map term list.now) }
{
    for (index, f) in list.iter().enumerate() {
        if same(f, e) {
            return Some(index);
        }
    }
    None
}

/// Adds the key of an expression to those of a list, if it has them, unless it has an equal expression. Whether it hasn't.
pub fn add_key(
    alloc: Global,
    keys: &mut Option<IndexSet<Key>>,
    list: &[Expr],
    e: &Expr,
) -> Result<bool, NoMemory>
    requires { IfSome keys.old (λ s. s.keys ≡ map key (map term list.now)) }
    ensures added { IfOk result (λ added. added ≡ not (tree.has_term (map term list.now) (term e.now))) }
    ensures keys { IfOk result (λ added. IfSome keys.new (λ s. s.keys
        ≡ (if added then map key (map term list.now) ++ key (term e.now) ∷ [] else map key (map term list.now)))) }
    ensures err { IfErr result (λ _. IfSome keys.new (λ s. s.keys ≡ map key (map term list.now))) }
{
    match keys {
        Some(set) => {
            let key = key_of(alloc, e)?;
            Ok(set.insert(key)?)
        }
        None => Ok(!has_same(list, e)),
    }
}

/// Drops the key at an index, if there are keys.
pub fn drop_key(keys: &mut Option<IndexSet<Key>>, index: usize)
    ensures { (ks : List (List ℕ)) → IfSome keys.old (λ s. s.keys ≡ ks) → IfSome keys.new (λ s. s.keys ≡ remove ks index) }
{
    match keys {
        Some(set) => {
            set.shift_remove_index(index);
        }
        None => {}
    }
}
