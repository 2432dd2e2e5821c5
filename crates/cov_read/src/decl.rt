//! Programs of a text and their declarations, with places.

use crate::cert::Whole;
use crate::stmt::{Braces, PlacedStmt};
use cov_expr::List;

#[derive(Drop)]
pub enum ClassDecl {
    Low,
    High,
    When(Whole),
}

#[derive(Drop)]
pub struct PlacedVariable {
    pub name: u32,
    pub at: u32,
    pub class: ClassDecl,
}

#[derive(Drop)]
pub struct PlacedLock {
    pub name: u32,
    pub at: u32,
    pub nowrite: List<u32>,
    pub hide: List<u32>,
    pub inv: Option<Whole>,
}

/// Two lists of names.
#[derive(Drop)]
pub struct Pair {
    pub nowrite: List<u32>,
    pub hide: List<u32>,
}

#[derive(Drop)]
pub struct PlacedThread {
    pub name: u32,
    pub at: u32,
    pub assumes: Pair,
    pub guarantees: Pair,
    pub braces: Braces,
    pub body: List<PlacedStmt>,
}

/// A program with its places.
#[derive(Drop)]
pub struct PlacedProgram {
    pub version: u8,
    pub vars: List<PlacedVariable>,
    pub locks: List<PlacedLock>,
    pub threads: List<PlacedThread>,
}
