// What breaks and continues lead out of: flags, labels and entries.

// What a context is. With FUNCTION set, no search goes past it; with BREAK or CONTINUE, it takes entries of that kind by label.
#[derive(Clone, Copy)]
pub struct CtxFlags {
    // FUNCTION
    pub function: bool,
    // BREAK
    pub breaks: bool,
    // CONTINUE
    pub continues: bool,
}

impl CtxFlags {
    // no flag
    pub const NONE: CtxFlags = CtxFlags {
        function: false,
        breaks: false,
        continues: false,
    };
}

// A label: a part of the one text, by its place. Two labels are the same where their bytes are.
#[derive(Clone, Copy)]
pub struct Label {
    pub offset: usize,
    pub length: usize,
}

// What an entry of a context stands for.
#[derive(Clone, Copy)]
pub enum EntryKind {
    // a break, led to the context's break target
    Break,
    // a continue, led to its continue target
    Continue,
}
