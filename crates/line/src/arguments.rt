// Words that stand for values, and the values that a call takes where they are all of the words left.
ghost use Rattle.std.specs.Prelude.{◌≡◌, ℕ, List, Option as Maybe};
ghost use Rattle.std.specs.Option.{option_copied};
ghost use Rattle.line.specs.Arguments.{dash, optional, no_more, only_word, of_none, one_of, two_of, three_of};
ghost use Rattle.line.specs.Cursor.{left};
ghost use Rattle.line.specs.Numbers.{number_of};

use crate::number::number;
use crate::words::Words;

// A kind of value that a word can stand for.
pub trait Argument: Copy {
    // the value that a word stands for, if it stands for one
    ghost reads: { List ℕ → Maybe Self };

    // Reads a word. O(n) in its length.
    fn read(word: &str) -> Option<Self>
        ensures { result ≡ reads word.now };
}

impl Argument for u32 {
    ghost reads = { number_of };

    fn read(word: &str) -> Option<u32> {
        number(word)
    }
}

// A value, or `-` for none.
impl<A: Argument> Argument for Option<A> {
    ghost reads = { optional A.Argument.reads };

    fn read(word: &str) -> Option<Option<A>> {
        if is_dash(word) {
            return Some(None);
        }
        Some(Some(A::read(word)?))
    }
}

// Whether a word is `-`, which stands for none. O(1).
pub fn is_dash(word: &str) -> bool
    ensures { result ≡ dash word.now }
{
    word == "-"
}

// Whether no word is left.
pub fn none(mut words: Words) -> bool
    ensures { result ≡ no_more (left words.entry) }
{
    words.next().is_none()
}

// The value, where no word is left. O(1).
pub fn alone<T: Drop>(value: T, words: Words) -> Option<T>
    ensures { result ≡ of_none value (left words.entry) }
{
    none(words).then_some(value)
}

// The only word left. O(n) in its length.
pub fn only<'a>(mut words: Words<'a>) -> Option<&'a str>
    ensures { option_copied result ≡ only_word (left words.entry) }
{
    let word = words.next()?;
    alone(word, words)
}

// The value that the only word left stands for.
pub fn one<A: Argument>(words: Words) -> Option<A>
    ensures { result ≡ one_of A.Argument.reads (left words.entry) }
{
    A::read(only(words)?)
}

// The values that the only two words left stand for.
pub fn two<A: Argument, B: Argument>(mut words: Words) -> Option<(A, B)>
    ensures { result ≡ two_of A.Argument.reads B.Argument.reads (left words.entry) }
{
    let first = A::read(words.next()?)?;
    let second = one::<B>(words)?;
    Some((first, second))
}

// The values that the only three words left stand for.
pub fn three<A: Argument, B: Argument, C: Argument>(mut words: Words) -> Option<(A, B, C)>
    ensures { result ≡ three_of A.Argument.reads B.Argument.reads C.Argument.reads (left words.entry) }
{
    let first = A::read(words.next()?)?;
    let (second, third) = two::<B, C>(words)?;
    Some((first, second, third))
}
