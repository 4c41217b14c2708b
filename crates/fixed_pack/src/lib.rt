//! Numerals packed into raw words, and raw words unpacked into lines.
//!
//! A word is the bits of a number as bytes, in one of two orders (`endian`, `word`). Rules of `pack_rule` turn lines
//! into words, run by a machine (`packer`, `packing`): numerals (`pack`), words of bits (`bits`), and lines as people
//! write them (`laid_out`). Rules of `recode` turn words into other bytes (`recoder`, `recoding`): into lines
//! (`unpack`), floats into words (`float_words`), words into floats (`word_floats`) or into words of another format
//! (`repack`). `amounts` has a rule of each kind for amounts. `word_report` is an observer of words.
//!
//! The bits above a format's width are zeros, even for a negative number. So a word has one number, and bytes of
//! another format or order are recognized. A word whose sign is extended over whole bytes is a word of the format with
//! those bytes, such as `I12F4` for `I8F4`.
#![tactic(auto)]

pub mod amounts;
pub mod bits;
pub mod endian;
pub mod float_words;
pub mod laid_out;
pub mod laws;
pub mod pack;
pub mod pack_rule;
pub mod packer;
pub mod packing;
mod part;
pub mod recode;
pub mod recoder;
pub mod recoding;
pub mod repack;
pub mod unpack;
pub mod word;
pub mod word_floats;
pub mod word_report;

pub use amounts::{PackAmounts, UnpackAmounts};
pub use bits::PackBits;
pub use endian::Endian;
pub use float_words::{FloatWords, WordRefusal};
pub use laid_out::LaidOutPack;
pub use pack::PackSettings;
pub use pack_rule::Pack;
pub use packing::run_pack;
pub use recode::{Recode, WordWatch};
pub use recoder::RefusedWord;
pub use recoding::{RecodeEnd, run_recode};
pub use repack::Repack;
pub use unpack::UnpackRule;
pub use word_floats::WordFloats;
pub use word_report::{Rounds, WordReport};
