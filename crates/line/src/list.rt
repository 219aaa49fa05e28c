// Words that are lists of numbers.
ghost use Rattle.std.specs.Prelude.{◌≡◌, IfOk, vec_items};
ghost use Rattle.std.specs.Option.{option_map};
ghost use Rattle.line.specs.Cursor.{left};
ghost use Rattle.line.specs.Lists.{list_of, numbers, only_list};

use crate::arguments::{is_dash, only};
use crate::number::number;
use crate::separator::Separator;
use crate::words::Words;
use std::alloc::{AllocError, Global};

// The numbers that a word lists, with a comma between them; `-` lists none. O(n) in its length.
pub fn list(heap: Global, word: &str) -> Result<Option<Vec<u32>>, AllocError>
    ensures { IfOk result (λ l. option_map vec_items l ≡ list_of word.now) }
{
    if is_dash(word) {
        return Ok(Some(Vec::new(heap)));
    }
    each_number(heap, Words::split(word, Separator::Comma))
}

// The numbers that the words left are, where each of them is one.
fn each_number(heap: Global, words: Words) -> Result<Option<Vec<u32>>, AllocError>
    ensures { IfOk result (λ l. option_map vec_items l ≡ numbers (left words.entry)) }
{
    let mut list = Vec::new(heap);
    for word in words {
        let Some(n) = number(word) else {
            return Ok(None);
        };
        list.push(n)?;
    }
    Ok(Some(list))
}

// The numbers that the only word left lists. O(n) in its length.
pub fn only_list(heap: Global, words: Words) -> Result<Option<Vec<u32>>, AllocError>
    ensures { IfOk result (λ l. option_map vec_items l ≡ only_list (left words.entry)) }
{
    match only(words) {
        Some(word) => list(heap, word),
        None => Ok(None),
    }
}
