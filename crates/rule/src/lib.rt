// The rule as the code holds it; how it stands for a rule of the meaning is in specs/. The limits of document 01 have their names here.
#![tactic(auto)]

ghost use Rattle.std.specs.Prelude.{◌≡◌};

pub mod at_most;
pub mod compare;

use crate::at_most::{AtMost, Blank};

pub const JOB_LIMIT: usize = 32768;

pub const PREDICATE_LIMIT: usize = 16;

pub const ROW_LIMIT: usize = 1024;

pub const HEAD_LIMIT: usize = 4;

pub const ITEM_LIMIT: usize = 8;

pub const ARITY_LIMIT: usize = 4;

pub const VARIABLE_LIMIT: usize = 16;

// The cells of all rows, four for each; and a number for each row that each predicate may have.
pub const CELL_LIMIT: usize = 4096;

pub const INDEX_LIMIT: usize = 16384;

// The comparisons of two numbers.
#[derive(Clone, Copy)]
pub enum Comparison {
    LessThan,
    Before,
}

// What an item that is no positive literal tests: that no row is the filled-in atom, or a comparison.
#[derive(Clone, Copy)]
pub enum Test {
    Negated,
    Comparison(Comparison),
}

// The kinds of body item.
#[derive(Clone, Copy, Default)]
pub enum Kind {
    #[default]
    Positive,
    Test(Test),
}

#[derive(Clone, Copy)]
pub enum Term {
    Number(u32),
    Variable(u32),
}

impl Default for Term {
    ghost use Rattle.rule.specs.declared.Term.TheVariants.{Number};

    ghost is_default = { λ t. t ≡ Number 0 };

    fn default() -> Term {
        Term::Number(0)
    }
}

impl Blank for Term {
    ghost use Rattle.rule.specs.declared.Term.TheVariants.{Number};

    ghost blank = { Number 0 };

    fn blank() -> Term {
        Term::default()
    }
}

// A head, or an item of the body. A comparison names no predicate.
#[derive(Clone, Copy, Default)]
pub struct Item {
    pub kind: Kind,
    pub predicate: usize,
    pub terms: AtMost<Term, ARITY_LIMIT>,
}

impl Blank for Item {
    ghost use Rattle.std.specs.Prelude.{[]};
    ghost use Rattle.rule.specs.declared.Kind.TheVariants.{Positive};

    ghost blank = { record { kind = Positive; predicate = 0; terms = [] } };

    fn blank() -> Item {
        Item::default()
    }
}

// The body, the heads, and of each predicate whether it is solved.
#[derive(Clone, Copy, Default)]
pub struct Rule {
    pub items: AtMost<Item, ITEM_LIMIT>,
    pub heads: AtMost<Item, HEAD_LIMIT>,
    pub solved: AtMost<bool, PREDICATE_LIMIT>,
}
