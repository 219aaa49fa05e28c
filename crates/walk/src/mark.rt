// The marks of a walk, and the bytes that stand for them.
ghost use Rattle.std.specs.Prelude.{◌≡◌};
ghost use Rattle.walk.specs.Marks.{byte_of, mark_of};

#[derive(Clone, Copy, Debug, PartialEq, Eq)]
pub enum Mark {
    // not discovered
    New,
    // discovered, not finished
    Open,
    // finished
    Done,
}

// The byte that stands for the mark. O(1).
impl From<Mark> for u8 {
    ghost from_gives = { λ mark byte. byte ≡ byte_of mark };

    fn from(mark: Mark) -> u8 {
        match mark {
            Mark::New => 0,
            Mark::Open => 1,
            Mark::Done => 2,
        }
    }
}

// The mark that a byte stands for. O(1).
impl From<u8> for Mark {
    ghost from_gives = { λ byte mark. mark ≡ mark_of byte };

    fn from(byte: u8) -> Mark {
        match byte {
            0 => Mark::New,
            1 => Mark::Open,
            _ => Mark::Done,
        }
    }
}
