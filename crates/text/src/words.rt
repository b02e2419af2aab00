// The fixed words of the files and of the program's lines, and the bytes that part them. Readers compare these and
// writers put them; they stand nowhere else.
pub const RULES: [u8; 5] = *b"rules";

pub const ACL: [u8; 3] = *b"acl";

pub const RULE: [u8; 4] = *b"rule";

pub const TREE: [u8; 4] = *b"tree";

pub const PART: [u8; 4] = *b"part";

pub const CUT: [u8; 3] = *b"cut";

pub const LEAF: [u8; 4] = *b"leaf";

pub const END: [u8; 3] = *b"end";

pub const HEAD: [u8; 4] = *b"head";

pub const HIT: [u8; 3] = *b"hit";

pub const REFUSED: [u8; 7] = *b"refused";

pub const MATCH: [u8; 5] = *b"match";

pub const MISSES: [u8; 6] = *b"misses";

// The names of the five fields.
pub const SOURCE: [u8; 6] = *b"source";

pub const DESTINATION: [u8; 11] = *b"destination";

pub const SOURCE_PORT: [u8; 11] = *b"source port";

pub const DESTINATION_PORT: [u8; 16] = *b"destination port";

pub const PROTOCOL: [u8; 8] = *b"protocol";

// The byte that ends a line, and the one that parts its fields.
pub const NEWLINE: u8 = 10;

pub const TAB: u8 = 9;

// The separators of the lines: a number stands behind each.
pub const ONE_TAB: [u8; 1] = *b"\t";

pub const TWO_TABS: [u8; 2] = *b"\t\t";

pub const THREE_TABS: [u8; 3] = *b"\t\t\t";

pub const FOUR_TABS: [u8; 4] = *b"\t\t\t\t";

// A rule's: its number; two addresses, each with its length; six range ends.
pub const RULE_MARKS: [u8; 17] = *b"\t\t.../\t.../\t\t\t\t\t\t";

// Those of a rule with its action behind them.
pub const ACL_MARKS: [u8; 18] = *b"\t\t.../\t.../\t\t\t\t\t\t\t";

// A header's: two addresses, and three numbers.
pub const HEAD_MARKS: [u8; 11] = *b"\t...\t...\t\t\t";

// The most numbers of a line with fixed separators.
pub const MOST_FIELDS: usize = 18;
