// The builder's replies, as values.
ghost use Rattle.std.specs.Prelude.{Some};
ghost use Rattle.book.specs.Replies.{reply_written, tally_written};

use kinds::block::BlockNodeId;
use kinds::refusal::Refusal;
use std::fmt;

// How many breaks and continues were given, and what became of them.
#[derive(Clone, Copy)]
pub struct Tally {
    pub given: usize,
    // no context was found
    pub unfiled: usize,
    // filed in a context that is open
    pub waiting: usize,
    // resolved, with a Jump edge
    pub drawn: usize,
    // resolved while the target was unmarked
    pub untargeted: usize,
}

impl fmt::Display for Tally {
    ghost output = { λ x. Some (tally_written x) };

    fn fmt<W: fmt::Write>(&self, f: &mut fmt::Formatter<W>) -> fmt::Result {
        let Tally {
            given,
            unfiled,
            waiting,
            drawn,
            untargeted,
        } = *self;
        write!(
            f,
            "given {given} unfiled {unfiled} waiting {waiting} drawn {drawn} untargeted {untargeted}"
        )
    }
}

// The reply to a call.
#[derive(Clone, Copy)]
pub enum Reply {
    // nothing has changed
    Refused(Refusal),
    // done, with nothing to tell
    Done,
    // the number of a block
    Block(BlockNodeId),
    // whether a context was found
    Found(bool),
    // how many entries were drawn and how many had no target; none with no context open
    Resolved(Option<(usize, usize)>),
    // the five counts
    Tallied(Tally),
}

impl fmt::Display for Reply {
    ghost output = { λ x. Some (reply_written x) };

    fn fmt<W: fmt::Write>(&self, f: &mut fmt::Formatter<W>) -> fmt::Result {
        match *self {
            Reply::Refused(refusal) => write!(f, "refused {refusal}"),
            Reply::Done => write!(f, "ok"),
            Reply::Block(block) => write!(f, "block {block}"),
            Reply::Found(found) => f.write_str(if found { "found" } else { "none" }),
            Reply::Resolved(Some((drawn, untargeted))) => {
                write!(f, "drawn {drawn} untargeted {untargeted}")
            }
            Reply::Resolved(None) => write!(f, "none"),
            Reply::Tallied(tally) => write!(f, "{tally}"),
        }
    }
}
