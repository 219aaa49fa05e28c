// Why a call is refused. A refused call changes nothing.
ghost use Rattle.std.specs.Prelude.{◌≡◌, Some};
ghost use Rattle.kinds.specs.Numbers.{number_of, name_of, written};

use crate::table::Table;
use std::fmt;

#[derive(Clone, Copy, Debug, PartialEq, Eq)]
pub enum Refusal {
    // a named block or segment, a start, or the current block where it is used does not exist
    NoBlock,
    // a label reaches past the end of the text
    BadLabel,
    // a normal block is made, or a harness released, and there is no harness
    NoHarness,
    // the block released is not on top of its stack, or no empty mark is
    NotTop,
    // no context is open
    NoContext,
    // the context has a flag beyond those expected
    Flags,
    // the context has that target already
    Marked,
    // the whole call does not fit, and this table is the first that is short
    Full(Table),
    // the marks or the frames lent are fewer than the blocks
    Short,
    // a mark lent is not zero
    Dirty,
    // two or more back edges come in
    TwoBackedges,
}

impl Refusal {
    // The number by which a script's answer tells the refusal, beside its name; programs tell it by the variant. O(1).
    pub fn number(self) -> u32
        ensures { result ≡ number_of self }
    {
        match self {
            Refusal::NoBlock => 1,
            Refusal::BadLabel => 2,
            Refusal::NoHarness => 3,
            Refusal::NotTop => 4,
            Refusal::NoContext => 5,
            Refusal::Flags => 6,
            Refusal::Marked => 7,
            Refusal::Full(_) => 8,
            Refusal::Short => 9,
            Refusal::Dirty => 10,
            Refusal::TwoBackedges => 11,
        }
    }

    // The name that stands beside the number. O(1).
    pub fn name(self) -> &'static str
        ensures { result.now ≡ name_of self }
    {
        match self {
            Refusal::NoBlock => "NO_BLOCK",
            Refusal::BadLabel => "BAD_LABEL",
            Refusal::NoHarness => "NO_HARNESS",
            Refusal::NotTop => "NOT_TOP",
            Refusal::NoContext => "NO_CONTEXT",
            Refusal::Flags => "FLAGS",
            Refusal::Marked => "MARKED",
            Refusal::Full(_) => "FULL",
            Refusal::Short => "SHORT",
            Refusal::Dirty => "DIRTY",
            Refusal::TwoBackedges => "TWO_BACKEDGES",
        }
    }
}

impl fmt::Display for Refusal {
    ghost output = { λ x. Some (written x) };

    fn fmt<W: fmt::Write>(&self, f: &mut fmt::Formatter<W>) -> fmt::Result {
        let number = self.number();
        let name = self.name();
        match self {
            Refusal::Full(table) => {
                let short = table.number();
                write!(f, "{number} {name} {short}")
            }
            _ => write!(f, "{number} {name}"),
        }
    }
}
