// What stands between the words of a line, or the parts of a word.
ghost use Rattle.std.specs.Prelude.{◌≡◌};
ghost use Rattle.line.specs.Separators.{byte_of};

#[derive(Clone, Copy)]
pub enum Separator {
    Blank,
    Comma,
    Plus,
    Colon,
}

// The character that a separator is. O(1).
impl From<Separator> for char {
    ghost from_gives = { λ s c. c ≡ byte_of s };

    fn from(separator: Separator) -> char {
        match separator {
            Separator::Blank => ' ',
            Separator::Comma => ',',
            Separator::Plus => '+',
            Separator::Colon => ':',
        }
    }
}
