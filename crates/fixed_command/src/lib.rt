//! The commands of `fixed`, over any source and any sink.
//!
//! `convert` answers each line of an input, a numeral, with its conversion between two formats; `words` has the words
//! of its options, and `hex` writes bits in hexadecimal.
#![tactic(auto)]

pub mod amounts;
pub mod blocks;
pub mod column;
pub mod convert;
pub mod error_lines;
pub mod explain;
pub mod explain_field;
pub mod field;
pub mod field_report;
pub mod hex;
pub mod hint;
pub mod laid_lines;
pub mod laid_list;
pub mod laws;
pub mod layout;
pub mod least_lines;
pub mod line_blocks;
pub mod message;
pub mod observed;
pub mod outcome;
pub mod print;
pub mod refused;
pub mod refused_fields;
pub mod rejecting;
pub mod renamed;
pub mod spelling;
pub mod swapped;
pub mod task;
pub mod watch;
pub mod words;

pub use amounts::{AmountLines, amount_field_explanation, run_amounts};
pub use blocks::{Question, run_blocks};
pub use column::{ColumnConversion, convert_fields, has_amount_point, has_point};
pub use convert::{ConvertRule, Settings, push_image, without_return};
pub use error_lines::{ErrorLines, ErrorSettings};
pub use explain::explanation;
pub use explain_field::field_explanation;
pub use field::{Empty, FieldForm, FieldNumerals, FieldReply};
pub use field_report::{FieldReport, field_outcome};
pub use fixed_show::{Form, Measure, Part};
pub use hex::{push_hex, word_of};
pub use hint::Offers;
pub use laid_lines::{LaidOutLines, LaidRefusals};
pub use laid_list::LaidOutList;
pub use layout::{LaidOutRule, Layout, MAX_PREFIX};
pub use least_lines::LeastLines;
pub use line_blocks::BlockRule;
pub use message::Message;
pub use observed::{CountedRule, LineReport, RefusedLines, Worded, reported};
pub use outcome::{
    MAX_TALLY, Outcome, Place, Tally, error_report, has_error, outcome_of, place_name, tally_text,
};
pub use print::{Places, Print};
pub use refused::{RefusedWord, first_refused};
pub use refused_fields::RefusedFields;
pub use rejecting::{Rejecting, ShowsLines};
pub use renamed::RenamedRule;
pub use run_engine::status_of;
pub use spelling::Spelling;
pub use swapped::SwappedRule;
pub use task::{
    Limit, Task, TaskEnd, bytes_within, greater_end, run_convert, run_task, run_whole_rule,
    whole_within,
};
pub use watch::{Refusals, RefusedLine};
pub use words::{
    mode_named, policy_named, print_named, radix_named, spelling_named, target_mode_named,
};
