// A plan under its script: what each line is answered, and what the lines came to.
use belt::plan::BeltPlan;
use belt::segments::Segments;
use kinds::refusal::Refusal;
use plan_script::apply::apply;
use plan_script::call::Answer;
use plan_script::read::read_call;
use std::{fmt, str};

// The reply to a line.
#[derive(Clone, Copy)]
pub enum Reply {
    Answered(Answer),
    Refused(Refusal),
    // the line is no call
    Unknown,
}

impl fmt::Display for Reply {
    fn fmt<W: fmt::Write>(&self, f: &mut fmt::Formatter<W>) -> fmt::Result {
        match self {
            Reply::Answered(answer) => write!(f, "{answer}"),
            Reply::Refused(refusal) => write!(f, "refused {refusal}"),
            Reply::Unknown => write!(f, "unknown"),
        }
    }
}

// How many lines were calls, how many of those were refused, and how many lines were no calls.
#[derive(Clone, Copy, Default)]
struct LineCounts {
    calls: u64,
    refused: u64,
    unknown: u64,
}

#[derive(Drop)]
pub struct Session {
    plan: BeltPlan,
    lines: LineCounts,
}

impl Session {
    pub fn new() -> Session {
        Session {
            plan: BeltPlan::new(),
            lines: LineCounts::default(),
        }
    }

    // Makes the call that a line writes. A line that is not UTF-8 is no call.
    pub fn answer(&mut self, line: &[u8]) -> Reply {
        let Some(call) = str::from_utf8(line).ok().and_then(read_call) else {
            self.lines.unknown = self.lines.unknown.saturating_add(1);
            return Reply::Unknown;
        };
        self.lines.calls = self.lines.calls.saturating_add(1);
        match apply(&mut self.plan, call) {
            Ok(answer) => Reply::Answered(answer),
            Err(refusal) => {
                self.lines.refused = self.lines.refused.saturating_add(1);
                Reply::Refused(refusal)
            }
        }
    }

    pub fn summary(&self) -> Summary {
        Summary {
            lines: self.lines,
            feeding: self.plan.feeding_count(),
            transfers: self.plan.transfer_count(),
            locked: self.plan.locked_segments(),
        }
    }
}

// The closing words.
#[derive(Clone, Copy)]
pub struct Summary {
    lines: LineCounts,
    feeding: u32,
    transfers: u32,
    locked: Segments,
}

impl fmt::Display for Summary {
    fn fmt<W: fmt::Write>(&self, f: &mut fmt::Formatter<W>) -> fmt::Result {
        let LineCounts {
            calls,
            refused,
            unknown,
        } = self.lines;
        let feeding = self.feeding;
        let transfers = self.transfers;
        let locked = Answer::Listed(self.locked);
        writeln!(f, "= {calls} calls, {refused} refused")?;
        writeln!(f, "= {unknown} lines were no calls")?;
        writeln!(
            f,
            "= {feeding} segments feed others over {transfers} transfers"
        )?;
        write!(f, "= locked segments: {locked}")
    }
}
