// The words of a line, and the parts of a word.
ghost use Rattle.std.specs.Prelude.{◌≡◌, ◌∷◌};
ghost use Rattle.line.specs.Cursor.{left, parts_left};
ghost use Rattle.line.specs.Separators.{byte_of};
ghost use Rattle.line.specs.Words.{parts, words};
ghost use Rattle.std.specs.Iterator.{YieldsFirstRef, item_count};

use crate::separator::Separator;

// What is left of a text, part by part: parts stand between single separators.
#[derive(Clone, Copy)]
pub struct Words<'a> {
    // the text from the next part on, or none after the last part
    rest: Option<&'a str>,
    separator: Separator,
}

impl<'a> Words<'a> {
    // All words of a line, which stand between blanks. O(1).
    pub fn new(line: &'a str) -> Words<'a>
        ensures { left result ≡ words line.now }
    {
        Words::split(line, Separator::Blank)
    }

    // All parts of a text, which stand between separators. O(1).
    pub fn split(text: &'a str, separator: Separator) -> Words<'a>
        ensures { left result ≡ parts (byte_of separator) text.now }
    {
        Words {
            rest: Some(text),
            separator,
        }
    }
}

impl<'a> Iterator for Words<'a> {
    type Item = &'a str;

    ghost next_gives = { YieldsFirstRef left };

    ghost remaining = { item_count left };

    fn next(&mut self) -> Option<&'a str> {
        let (word, rest) = cut(self.rest?, self.separator);
        self.rest = rest;
        Some(word)
    }
}

// A line as a command: its first word, and the words after it.
#[derive(Clone, Copy)]
pub struct Command<'a> {
    pub name: &'a str,
    pub words: Words<'a>,
}

impl<'a> Command<'a> {
    // The command that a line gives; every line has a first word. O(n) in its length.
    pub fn new(line: &'a str) -> Command<'a>
        ensures { words line.now ≡ result.name.now ∷ left result.words }
    {
        let separator = Separator::Blank;
        let (name, rest) = cut(line, separator);
        Command {
            name,
            words: Words { rest, separator },
        }
    }
}

// The first part of a text, and what stands after its separator, if there is one.
fn cut<'a>(text: &'a str, separator: Separator) -> (&'a str, Option<&'a str>)
    ensures { parts (byte_of separator) text.now ≡ result.0.now ∷ parts_left (byte_of separator) result.1 }
{
    match text.split_once(char::from(separator)) {
        Some((word, rest)) => (word, Some(rest)),
        None => (text, None),
    }
}
