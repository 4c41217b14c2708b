//! The options of more than one command.

use command_line::page::{Operand, Row};

pub const RADIX: Row = Row {
    name: "radix",
    letter: Some('r'),
    value: "RADIX",
    choices: &["2", "8", "10", "16"],
    help: "Of numerals and words: 2, 8, 10 (default) or 16",
};

pub const FIELD: Row = Row {
    name: "field",
    letter: None,
    value: "HI:LO...",
    choices: &[],
    help: "Bits HI to LO of a word; several: each HI:LO:FORMAT",
};

pub const SWAP: Row = Row {
    name: "swap",
    letter: None,
    value: "",
    choices: &[],
    help: "Bytes in reverse, of words with all hex digits",
};

pub const JSON: Row = Row {
    name: "json",
    letter: None,
    value: "",
    choices: &[],
    help: "An object of JSON on a line in place of a block",
};

pub const POLICY: Row = Row {
    name: "policy",
    letter: Some('p'),
    value: "POLICY",
    choices: &["checked", "saturating", "wrapping", "symmetric"],
    help: "default checked; saturating, wrapping, symmetric",
};

/// The names of the rounding modes.
const MODES: &[&str] = &[
    "nearest",
    "ties-away",
    "ties-zero",
    "ties-up",
    "ties-down",
    "floor",
    "ceil",
    "zero",
    "away",
];

pub const MODE: Row = Row {
    name: "mode",
    letter: Some('m'),
    value: "MODE",
    choices: MODES,
    help: "nearest (default), or see 'fixed help modes'",
};

pub const TARGET_MODE: Row = Row {
    name: "target-mode",
    letter: None,
    value: "MODE",
    choices: MODES,
    help: "To TARGET: floor (default), or as --mode",
};

pub const FROM: Row = Row {
    name: "from",
    letter: None,
    value: "WHAT",
    choices: &["text", "bits"],
    help: "text (default): numerals; bits: words of SOURCE",
};

pub const PACK_FROM: Row = Row {
    name: "from",
    letter: None,
    value: "WHAT",
    choices: &["text", "bits", "f64", "f32"],
    help: "text (default), bits: words; f64, f32: raw floats",
};

pub const UNPACK_TO: Row = Row {
    name: "to",
    letter: None,
    value: "WHAT",
    choices: &["text", "f64", "f32"],
    help: "text (default): lines; f64, f32: raw floats",
};

pub const PRINT: Row = Row {
    name: "print",
    letter: None,
    value: "PART",
    choices: &["text", "bits", "hex", "readmemh", "value", "all"],
    help: "text (default), bits, hex, readmemh, value, all",
};

pub const PRINT_OR_ERROR: Row = Row {
    name: "print",
    letter: None,
    value: "PART",
    choices: &[
        "text", "bits", "hex", "readmemh", "value", "all", "error", "ulps",
    ],
    help: "text, bits, hex, readmemh, value, all, error or ulps",
};

pub const PLACES: Row = Row {
    name: "places",
    letter: None,
    value: "N",
    choices: &[],
    help: "The text with N digits after the point, 0 to 64",
};

pub const PLACES_MODE: Row = Row {
    name: "places-mode",
    letter: None,
    value: "MODE",
    choices: MODES,
    help: "To N digits: nearest (default), or as --mode",
};

pub const ENDIAN: Row = Row {
    name: "endian",
    letter: None,
    value: "ORDER",
    choices: &["little", "big"],
    help: "The order of bytes: little (default), big",
};

pub const ENDIAN_OUT: Row = Row {
    name: "endian-out",
    letter: None,
    value: "ORDER",
    choices: &["little", "big"],
    help: "Of words that are written: as --endian (default)",
};

pub const TRIM: Row = Row {
    name: "trim",
    letter: None,
    value: "",
    choices: &[],
    help: "Blanks around a numeral are left out",
};

pub const SKIP_BLANK: Row = Row {
    name: "skip-blank",
    letter: None,
    value: "",
    choices: &[],
    help: "A blank line is answered by an empty one",
};

pub const COMMENTS: Row = Row {
    name: "comments",
    letter: None,
    value: "PREFIX",
    choices: &[],
    help: "A line that begins with PREFIX gives an empty one",
};

/// `SKIP_BLANK` of a command that does not answer each line.
pub const PASS_BLANK: Row = Row {
    name: "skip-blank",
    letter: None,
    value: "",
    choices: &[],
    help: "Lines of blanks are passed over",
};

/// `COMMENTS` of such a command.
pub const PASS_COMMENTS: Row = Row {
    name: "comments",
    letter: None,
    value: "PREFIX",
    choices: &[],
    help: "Lines that begin with PREFIX are passed over",
};

pub const WORDS: Row = Row {
    name: "words",
    letter: None,
    value: "",
    choices: &[],
    help: "Each word of a line; blanks and commas stay",
};

pub const SEPARATORS: Row = Row {
    name: "separators",
    letter: None,
    value: "CHARS",
    choices: &[],
    help: "What separates words beside blanks: ',' (default)",
};

pub const REFUSED: Row = Row {
    name: "refused",
    letter: None,
    value: "TOKEN",
    choices: &[],
    help: "What a refused word becomes: error (default)",
};

pub const KEEP_WORDS: Row = Row {
    name: "keep",
    letter: None,
    value: "[WHAT]",
    choices: &["text", "all"],
    help: "Text among words stays; all: overflows as well",
};

pub const REPORT: Row = Row {
    name: "report",
    letter: None,
    value: "[=FORM]",
    choices: &["text", "json"],
    help: "A report on standard error: text (default), json",
};

pub const OUTPUT: Row = Row {
    name: "output",
    letter: Some('o'),
    value: "FILE",
    choices: &[],
    help: "Answers go to FILE, which is made anew",
};

pub const REJECTS: Row = Row {
    name: "rejects",
    letter: None,
    value: "FILE",
    choices: &[],
    help: "A line for each refused numeral goes to FILE",
};

pub const LIMIT: Row = Row {
    name: "limit",
    letter: None,
    value: "N",
    choices: &[],
    help: "The most bytes of an input, 1 to 4294967296",
};

pub const SOURCE: Operand = Operand {
    name: "SOURCE",
    help: "The format that a numeral is read into",
};

pub const TARGET: Operand = Operand {
    name: "TARGET",
    help: "The format to move to, SOURCE if left out, and files",
};
