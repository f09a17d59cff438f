// Where each thing stands in a table's words.
use lent::lists::Column;

// The head.
pub const STAMP: usize = 0;

pub const RANKING: usize = 1;

pub const STATES: usize = 2;

pub const CURSORS: usize = 3;

pub const MATCHED: usize = 4;

pub const TRANSITIONS: usize = 5;

// Rows of states.
pub const STATE_WORDS: u32 = 3;

pub const CURSOR_END: u32 = 0;

pub const MATCHED_END: u32 = 1;

pub const FIRST_LINK: u32 = 2;

// Rows of transitions, the subject's row last.
pub const TRANSITION_WORDS: u32 = 41;

pub const PARENT: u32 = 0;

pub const CHILD: u32 = 1;

pub const NEXT_LINK: u32 = 2;

pub const SUBJECT: u32 = 3;

// The columns of these rows.
pub const CURSOR_ENDS: Column = Column {
    base: CURSOR_END,
    stride: STATE_WORDS,
};

pub const MATCHED_ENDS: Column = Column {
    base: MATCHED_END,
    stride: STATE_WORDS,
};

pub const FIRST_LINKS: Column = Column {
    base: FIRST_LINK,
    stride: STATE_WORDS,
};

pub const PARENTS: Column = Column {
    base: PARENT,
    stride: TRANSITION_WORDS,
};

pub const CHILDREN: Column = Column {
    base: CHILD,
    stride: TRANSITION_WORDS,
};

pub const NEXT_LINKS: Column = Column {
    base: NEXT_LINK,
    stride: TRANSITION_WORDS,
};

pub const SUBJECTS: Column = Column {
    base: SUBJECT,
    stride: TRANSITION_WORDS,
};
