// Labels and flags of contexts, as a script's line has them.
ghost use Rattle.std.specs.Prelude.{◌≡◌};
ghost use Rattle.kinds.specs.Flags.{no_flags};
ghost use Rattle.line.specs.Contexts.{label_of, with_flag, flags_named, flags_of};
ghost use Rattle.line.specs.Cursor.{left};

use crate::arguments::{Argument, is_dash, two};
use crate::separator::Separator;
use crate::words::Words;
use kinds::context::{CtxFlags, Label};

// `OFFSET:LENGTH`.
impl Argument for Label {
    ghost reads = { label_of };

    fn read(word: &str) -> Option<Label> {
        let (offset, length) = two::<u32, u32>(Words::split(word, Separator::Colon))?;
        Some(Label {
            offset: offset as usize,
            length: length as usize,
        })
    }
}

// The flags with the one of a name set.
fn with_flag(flags: CtxFlags, name: &str) -> Option<CtxFlags>
    ensures { result ≡ with_flag flags name.now }
{
    match name {
        "function" => Some(CtxFlags {
            function: true,
            ..flags
        }),
        "break" => Some(CtxFlags {
            breaks: true,
            ..flags
        }),
        "continue" => Some(CtxFlags {
            continues: true,
            ..flags
        }),
        _ => None,
    }
}

// The flags that the words left name.
fn flags(words: Words) -> Option<CtxFlags>
    ensures { result ≡ flags_named no_flags (left words.entry) }
{
    let mut flags = CtxFlags::NONE;
    for name in words {
        flags = with_flag(flags, name)?;
    }
    Some(flags)
}

// Flags joined by `+`, or `-` for none.
impl Argument for CtxFlags {
    ghost reads = { flags_of };

    fn read(word: &str) -> Option<CtxFlags> {
        if is_dash(word) {
            return Some(CtxFlags::NONE);
        }
        flags(Words::split(word, Separator::Plus))
    }
}
