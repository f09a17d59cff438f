// Where each thing stands in a sheet's words. New things go to the end.
use lent::lists::Column;

// The counts.
pub const RULES: usize = 0;

pub const STEPS: usize = 1;

pub const IDS: usize = 2;

pub const ENTRIES: usize = 3;

pub const STYLES: usize = 4;

pub const STYLE_ENTRIES: usize = 5;

pub const NEXT_SOURCE: usize = 6;

// Rows of rules.
pub const RULE_WORDS: u32 = 5;

pub const RULE_ORIGIN: u32 = 8;

pub const RULE_SOURCE: u32 = 9;

pub const RULE_ORDER: u32 = 10;

pub const RULE_STEP_END: u32 = 11;

pub const RULE_ENTRY_END: u32 = 12;

// Rows of steps, the combinator last.
pub const STEP_WORDS: u32 = 23;

pub const STEP: u32 = 1288;

pub const STEP_COMBINATOR: u32 = 1310;

// The entries of rules: property ids, kinds, numbers.
pub const ENTRY: usize = 48392;

pub const ENTRY_ROOM: usize = 4096;

// Rows of direct styles.
pub const STYLE_WORDS: u32 = 3;

pub const STYLE_ORIGIN: u32 = 60680;

pub const STYLE_SOURCE: u32 = 60681;

pub const STYLE_ENTRY_END: u32 = 60682;

// The entries of direct styles.
pub const STYLE_ENTRY: usize = 60872;

pub const STYLE_ENTRY_ROOM: usize = 2048;

pub const SHEET_WORDS: usize = 67016;

// The columns of rows.
pub const RULE_ORIGINS: Column = Column {
    base: RULE_ORIGIN,
    stride: RULE_WORDS,
};

pub const RULE_SOURCES: Column = Column {
    base: RULE_SOURCE,
    stride: RULE_WORDS,
};

pub const RULE_ORDERS: Column = Column {
    base: RULE_ORDER,
    stride: RULE_WORDS,
};

pub const RULE_STEP_ENDS: Column = Column {
    base: RULE_STEP_END,
    stride: RULE_WORDS,
};

pub const RULE_ENTRY_ENDS: Column = Column {
    base: RULE_ENTRY_END,
    stride: RULE_WORDS,
};

pub const STEP_TYPE_FLAGS: Column = Column {
    base: STEP,
    stride: STEP_WORDS,
};

pub const STEP_PART_FLAGS: Column = Column {
    base: STEP + 2,
    stride: STEP_WORDS,
};

pub const STEP_CLASS_COUNTS: Column = Column {
    base: STEP + 4,
    stride: STEP_WORDS,
};

pub const STEP_PSEUDO_COUNTS: Column = Column {
    base: STEP + 5,
    stride: STEP_WORDS,
};

pub const STEP_COMBINATORS: Column = Column {
    base: STEP_COMBINATOR,
    stride: STEP_WORDS,
};

pub const STYLE_ORIGINS: Column = Column {
    base: STYLE_ORIGIN,
    stride: STYLE_WORDS,
};

pub const STYLE_SOURCES: Column = Column {
    base: STYLE_SOURCE,
    stride: STYLE_WORDS,
};

pub const STYLE_ENTRY_ENDS: Column = Column {
    base: STYLE_ENTRY_END,
    stride: STYLE_WORDS,
};
