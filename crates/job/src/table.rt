// The fields, by tag.
ghost use Rattle.std.specs.Prelude.{◌≡◌};
ghost use Rattle.meaning.specs.Reading.{line_of};
ghost use Rattle.job.specs.Table.{meant, LineIs, Decodes};

use crate::fault::Fault;
use rule::{Comparison, HEAD_LIMIT, ITEM_LIMIT, PREDICATE_LIMIT, ROW_LIMIT};

#[derive(Clone, Copy)]
pub enum Tag {
    Predicate,
    Row,
    Head,
    Literal,
    Comparison(Comparison),
}

// Of a kind of field the group, the limit, the smallest length, the bytes up to the predicate's (0 where the field names none), and the bytes
// for each place.
#[derive(Clone, Copy)]
pub struct Line {
    pub group: usize,
    pub limit: usize,
    pub smallest: usize,
    pub upto: usize,
    pub each: usize,
}

// Of predicates, rows, heads, literals and comparisons. Behind a reference: an array would be made anew on the stack at each look.
const LINES: &[Line; 5] = &[
    Line {
        group: 1,
        limit: PREDICATE_LIMIT,
        smallest: 2,
        upto: 0,
        each: 0,
    },
    Line {
        group: 2,
        limit: ROW_LIMIT,
        smallest: 1,
        upto: 1,
        each: 4,
    },
    Line {
        group: 3,
        limit: HEAD_LIMIT,
        smallest: 1,
        upto: 1,
        each: 5,
    },
    Line {
        group: 4,
        limit: ITEM_LIMIT,
        smallest: 2,
        upto: 2,
        each: 5,
    },
    Line {
        group: 4,
        limit: ITEM_LIMIT,
        smallest: 10,
        upto: 0,
        each: 0,
    },
];

impl TryFrom<u8> for Tag {
    type Error = Fault;

    ghost try_from_gives = { Decodes };

    fn try_from(tag: u8) -> Result<Tag, Fault> {
        match tag {
            1 => Ok(Tag::Predicate),
            2 => Ok(Tag::Row),
            3 => Ok(Tag::Head),
            4 => Ok(Tag::Literal),
            5 => Ok(Tag::Comparison(Comparison::LessThan)),
            6 => Ok(Tag::Comparison(Comparison::Before)),
            _ => Err(Fault::Tag),
        }
    }
}

impl Tag {
    pub fn line(self) -> Line
        ensures { LineIs result (line_of (meant self)) }
    {
        let place = match self {
            Tag::Predicate => 0,
            Tag::Row => 1,
            Tag::Head => 2,
            Tag::Literal => 3,
            Tag::Comparison(_) => 4,
        };
        LINES[place]
    }
}
