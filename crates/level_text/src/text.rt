//! Texts of levels as trees, with places.

use cov_expr::List;
use cov_read::Whole;

/// A name of a text: its number there, and its place.
#[derive(Clone, Copy)]
pub struct NamedAt {
    pub name: u32,
    pub at: u32,
}

/// A level, and those that it is declared to lie above.
pub struct LevelDecl {
    pub name: NamedAt,
    pub lower: List<NamedAt>,
}

impl Drop for LevelDecl {
    fn drop(self) {
        let LevelDecl { name: _, lower } = self;
        drop(lower);
    }
}

/// An expression that decides, and the level where it doesn't hold.
#[derive(Drop)]
pub struct Choice {
    pub condition: Whole,
    pub other: NamedAt,
}

/// A variable with its class.
pub struct ListedVar {
    pub var: NamedAt,
    pub level: NamedAt,
    pub choice: Option<Choice>,
}

impl Drop for ListedVar {
    fn drop(self) {
        let ListedVar {
            var: _,
            level: _,
            choice,
        } = self;
        drop(choice);
    }
}

/// A text of levels with its places.
pub struct PlacedLevels {
    pub levels: List<LevelDecl>,
    pub listings: List<ListedVar>,
}

impl Drop for PlacedLevels {
    fn drop(self) {
        let PlacedLevels { levels, listings } = self;
        drop(levels);
        drop(listings);
    }
}
