// What has been read so far, beside the cells of the rows and their index, which are lent.
ghost use Rattle.std.specs.Prelude.{◌≡◌};
ghost use Rattle.job.specs.Progress.{nothing_yet, count_of};
ghost use Rattle.job.specs.Table.{meant};

use crate::table::Tag;
use rule::at_most::AtMost;
use rule::{HEAD_LIMIT, PREDICATE_LIMIT, Rule, VARIABLE_LIMIT};

// The last field's group; the places of the heads; which variables the positive literals hold; the rule; of each predicate its arity and
// how many rows it has, in an array, since it is counted up in place; how many rows there are.
#[derive(Drop)]
pub struct Progress {
    pub group: usize,
    pub places: AtMost<usize, HEAD_LIMIT>,
    pub bound: [bool; VARIABLE_LIMIT],
    pub rule: Rule,
    pub arities: AtMost<usize, PREDICATE_LIMIT>,
    pub rows: [usize; PREDICATE_LIMIT],
    pub total: usize,
}

impl Default for Progress {
    ghost is_default = { λ p. p ≡ nothing_yet };

    #[tactic(auto, unfolding(crate::specs::Progress::nothing_yet))]
    fn default() -> Progress {
        Progress {
            group: 0,
            places: AtMost::default(),
            bound: [false; VARIABLE_LIMIT],
            rule: Rule::default(),
            arities: AtMost::default(),
            rows: [0; PREDICATE_LIMIT],
            total: 0,
        }
    }
}

impl Progress {
    // How many fields of the tag's kind have been read.
    #[tactic(auto, unfolding(crate::specs::Progress::count_of))]
    pub fn counted(&self, tag: Tag) -> usize
        ensures { result ≡ count_of (meant tag) self.now }
    {
        match tag {
            Tag::Predicate => self.arities.as_slice().len(),
            Tag::Row => self.total,
            Tag::Head => self.rule.heads.as_slice().len(),
            Tag::Literal | Tag::Comparison(_) => self.rule.items.as_slice().len(),
        }
    }
}
