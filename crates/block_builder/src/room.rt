// What a call needs of the tables.

// How many more of each a call needs.
#[derive(Clone, Copy)]
pub struct Room {
    pub blocks: usize,
    pub edges: usize,
    pub instructions: usize,
    pub harnesses: usize,
    pub finalizers: usize,
}

impl Room {
    pub const NONE: Room = Room {
        blocks: 0,
        edges: 0,
        instructions: 0,
        harnesses: 0,
        finalizers: 0,
    };
}
