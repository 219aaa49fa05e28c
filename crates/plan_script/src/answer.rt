// Answers as the lines of a transcript have them.
use crate::call::Answer;
use belt::segments::Segments;
use std::fmt;

impl fmt::Display for Answer {
    fn fmt<W: fmt::Write>(&self, f: &mut fmt::Formatter<W>) -> fmt::Result {
        match self {
            Answer::Done => write!(f, "ok"),
            Answer::Listed(segments) => write_segments(f, *segments),
            Answer::Said(true) => write!(f, "yes"),
            Answer::Said(false) => write!(f, "no"),
            Answer::Counted(count) => write!(f, "{count}"),
        }
    }
}

// The segments with one blank between them, or `-` for none.
fn write_segments<W: fmt::Write>(f: &mut fmt::Formatter<W>, mut segments: Segments) -> fmt::Result {
    match segments.next() {
        Some(first) => write!(f, "{first}")?,
        None => return write!(f, "-"),
    }
    for segment in segments {
        write!(f, " {segment}")?;
    }
    Ok(())
}
