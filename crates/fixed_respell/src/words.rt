//! The fields of a line: radix, format, policy and mode.

ghost use Rattle.std.specs.Prelude.{◌≡◌, ◌↔◌, ◌≤◌, ◌≤ℤ◌, ◌+◌, ◌/◌, ◌%◌, ◌++◌, length, Bool, IsTrue, MatchOption};
ghost use Rattle.std.specs.Prelude.{decimal, neg_ℤ, pos};
ghost use Rattle.std.specs.Fmt.{signed_decimal};
ghost use Rattle.fixed_bits.specs.Formats.{FormatParts, IsTypeFormat};
ghost use Rattle.fixed_bits.specs.declared.format.Policy.{Policy};
ghost use Rattle.fixed_bits.specs.declared.mode.ReadMode.{ReadMode};
ghost use Rattle.fixed_numeral.specs.declared.radix.Radix.{Radix};
ghost use Rattle.fixed_respell.specs.Inner.Places.{HasBytes, HasEnds, IsBothNames, mode_of_place};
ghost use Rattle.fixed_respell.specs.Inner.Places.{policy_of_place, radix_of_place};
ghost use Rattle.fixed_respell.specs.FormatNames.{IsFormatName};
ghost use Rattle.fixed_respell.specs.Words.{IsFormatWord, IsPolicyWord, format_text};
ghost use Rattle.fixed_respell.specs.Words.{IsLinePolicy, IsModeWord, radix_text};
ghost use Rattle.fixed_respell.specs.Words.{sign_letter};

use crate::format_table::{counts_of_key, four_bytes, key_of};
use arrayvec::ArrayVec;
use fixed_bits::{Format, Policy, ReadMode};
use fixed_numeral::Radix;
use itoa::Buffer;
use std::marker::Model;

/// The keys of the radix words, each at the index that its last byte names: its first byte, 256 times its last, and
/// 65536 times the count of its bytes.
const RADIX_KEYS: [u64; 8] = [
    0x0002_3031,
    0x0001_3232,
    0,
    0x0002_3631,
    0x0001_3838,
    0,
    0,
    0,
];

/// Returns the index of the radix word with this last byte.
#[inline(always)]
fn radix_place(last: u8) -> usize
    ensures { result ≡ last / 2 % 8 }
{
    usize::from(last / 2 % 8)
}

/// Returns the radix of the word at an index.
#[inline(always)]
fn radix_at(place: usize) -> Radix
    ensures { result ≡ radix_of_place place }
{
    match place {
        0 => Radix::Dec,
        1 => Radix::Bin,
        3 => Radix::Hex,
        _ => Radix::Oct,
    }
}

/// Returns the radix that a word names. `None`: it does not name a radix.
// By a table, since a branch on the radix would be mispredicted.
#[inline(always)]
pub fn radix_word(word: &[u8]) -> Option<Radix>
    ensures { MatchOption result ((r : Radix) → ¬ (word.now ≡ radix_text r)) (λ r. word.now ≡ radix_text r) }
{
    if word.is_empty() || word.len() > 2 {
        return None;
    }
    let last = word[word.len() - 1];
    let place = radix_place(last);
    let key = u64::from(word[0]) + u64::from(last) * 256 + word.len() as u64 * 65536;
    if key == RADIX_KEYS[place] {
        Some(radix_at(place))
    } else {
        None
    }
}

/// The length of each policy's name, at the index that is the length modulo four.
const NAME_COUNTS: [usize; 4] = [8, 0, 10, 7];

/// The first four bytes of each policy's name at its index, as a number, with the first byte lowest: `wrap`, none,
/// `satu` and `chec`.
const NAME_STARTS: [u64; 4] = [0x7061_7277, 0, 0x7574_6173, 0x6365_6863];

/// The two bytes after those: `pi`, none, `ra` and `ke`.
const NAME_MIDDLES: [u64; 4] = [0x6970, 0, 0x6172, 0x656b];

/// The last four bytes: `ping`, none, `ting` and `cked`.
const NAME_ENDS: [u64; 4] = [0x676e_6970, 0, 0x676e_6974, 0x6465_6b63];

/// Returns the policy whose name is at an index.
#[inline(always)]
fn policy_at(place: usize) -> Policy
    ensures { result ≡ policy_of_place place }
{
    match place {
        0 => Policy::Wrapping,
        2 => Policy::Saturating,
        _ => Policy::Checked,
    }
}

/// Whether a name has these first four bytes, these two after them, and these last four.
#[inline(always)]
fn has_bytes(name: &[u8], start: u64, middle: u64, end: u64) -> bool
    requires { 7 ≤ length name.now }
    ensures { IsTrue result ↔ HasBytes name.now start middle end }
{
    four_bytes(name, 0) == start
        && u64::from(u16::from_le_bytes([name[4], name[5]])) == middle
        && four_bytes(name, name.len() - 4) == end
}

/// Returns the policy of a name, one of the three that a line can name.
// By a table, since a branch on the policy would be mispredicted.
#[inline(always)]
fn named_policy(name: &[u8]) -> Option<Policy>
    ensures { MatchOption result ((p : Policy) → ¬ IsLinePolicy name.now p) (λ p. IsLinePolicy name.now p) }
{
    let place = name.len() % 4;
    if name.len() != NAME_COUNTS[place] {
        return None;
    }
    if has_bytes(
        name,
        NAME_STARTS[place],
        NAME_MIDDLES[place],
        NAME_ENDS[place],
    ) {
        Some(policy_at(place))
    } else {
        None
    }
}

/// The length of each mode's name, at the index that the name's first byte gives.
const MODE_COUNTS: [usize; 4] = [4, 5, 4, 7];

/// The first four bytes of each mode's name at its index, as a number: `ceil`, `floo`, `zero` and `near`.
const MODE_STARTS: [u64; 4] = [0x6c69_6563, 0x6f6f_6c66, 0x6f72_657a, 0x7261_656e];

/// The last four bytes: `ceil`, `loor`, `zero` and `rest`.
const MODE_ENDS: [u64; 4] = [0x6c69_6563, 0x726f_6f6c, 0x6f72_657a, 0x7473_6572];

/// Returns the mode whose name is at an index.
#[inline(always)]
fn mode_at(place: usize) -> ReadMode
    ensures { result ≡ mode_of_place place }
{
    match place {
        0 => ReadMode::Ceil,
        1 => ReadMode::Floor,
        2 => ReadMode::TowardsZero,
        _ => ReadMode::NearestEven,
    }
}

/// Whether a name has these first four bytes, and these last four.
#[inline(always)]
fn has_ends(name: &[u8], start: u64, end: u64) -> bool
    requires { 4 ≤ length name.now }
    ensures { IsTrue result ↔ HasEnds name.now start end }
{
    four_bytes(name, 0) == start && four_bytes(name, name.len() - 4) == end
}

/// Returns the mode of this name, one of the four that a line can name.
#[inline(always)]
fn named_mode(name: &[u8]) -> Option<ReadMode>
    ensures { MatchOption result ((m : ReadMode) → ¬ IsModeWord name.now m) (λ m. IsModeWord name.now m) }
{
    if name.len() < 4 {
        return None;
    }
    let place = usize::from(name[0] / 4 % 4);
    if name.len() != MODE_COUNTS[place] {
        return None;
    }
    if has_ends(name, MODE_STARTS[place], MODE_ENDS[place]) {
        Some(mode_at(place))
    } else {
        None
    }
}

/// The length of a policy's name, by a number from its first byte: `checked`, `saturating` and `wrapping`.
const COUNTS_BY_FIRST: [usize; 8] = [7, 0, 0, 0, 10, 8, 0, 0];

/// Returns the policy and the mode of a word of both their names with a slash between them. `None`: it is not such a
/// word.
// The first byte determines the index of the slash, because a search for it is mispredicted. A call, because few lines
// have such a word.
#[inline(never)]
fn policy_and_mode(word: &[u8]) -> Option<(Policy, ReadMode)>
    ensures { MatchOption result ((p : Policy) (m : ReadMode) → ¬ IsBothNames word.now p m)
        (λ r. IsBothNames word.now r.0 r.1) }
{
    if word.is_empty() {
        return None;
    }
    let count = COUNTS_BY_FIRST[usize::from(word[0] / 4 % 8)];
    if word.len() <= count || word[count] != b'/' {
        return None;
    }
    match (named_policy(&word[..count]), named_mode(&word[count + 1..])) {
        (Some(policy), Some(mode)) => Some((policy, mode)),
        _ => None,
    }
}

/// Returns the policy and the mode that a word names: NearestEven if it names no mode. `None`: it is not a policy word.
// Inlined, since each line has one.
#[inline(always)]
pub fn policy_word(word: &[u8]) -> Option<(Policy, ReadMode)>
    ensures { MatchOption result ((p : Policy) (m : ReadMode) → ¬ IsPolicyWord word.now p m)
        (λ r. IsPolicyWord word.now r.0 r.1) }
{
    match named_policy(word) {
        Some(policy) => Some((policy, ReadMode::NearestEven)),
        None => policy_and_mode(word),
    }
}

/// Returns whether a format whose word begins with this letter is signed. `None`: no format's word begins with it.
#[inline(always)]
fn named_sign(letter: u8) -> Option<bool>
    ensures { MatchOption result ((s : Bool) → ¬ (letter ≡ sign_letter s)) (λ s. letter ≡ sign_letter s) }
{
    let turn = letter / 16 % 2;
    if letter == b'I' + 12 * turn {
        Some(turn == 0)
    } else {
        None
    }
}

/// Returns the format that a word names. `None`: it does not name a format.
// Inlined with what it calls, since each line has two: the result of a call would go through memory.
#[inline(always)]
pub fn format_word(word: &[u8]) -> Option<Format>
    ensures { MatchOption result ((f : FormatParts) → ¬ IsFormatWord word.now f) (λ f. IsFormatWord word.now f) }
{
    if word.len() < 4 || word.len() > 6 {
        return None;
    }
    match (named_sign(word[0]), counts_of_key(key_of(word))) {
        (Some(signed), Some((width, frac))) => Some(Format::of(signed, width, frac)),
        _ => None,
    }
}

/// The word of a format: at most 8 bytes.
#[derive(Drop)]
pub struct FormatName {
    bytes: ArrayVec<u8, 8>,
}

impl Model for FormatName {
    ghost use Rattle.std.specs.Prelude.{List, ℕ};

    ghost Value = { List ℕ };

    ghost view = { λ n. n.bytes.items };
}

impl FormatName {
    /// Returns the bytes of the word.
    pub fn as_bytes(&self) -> &[u8]
        ensures bytes { result.now ≡ self.now }
        ensures short { length result.now ≤ 8 }
    {
        self.bytes.as_slice()
    }
}

/// Appends a count of bits in decimal.
fn push_count(bytes: &mut ArrayVec<u8, 8>, count: u32)
    requires count { count ≤ 64 }
    requires room { length bytes.old.items ≤ 6 }
    ensures text { bytes.new.items ≡ bytes.old.items ++ decimal count }
    ensures short { length bytes.new.items ≤ length bytes.old.items + 2 }
{
    let mut digits = Buffer::new();
    bytes
        .try_extend_from_slice(digits.format(count).as_bytes())
        .unwrap();
}

/// Appends a count of whole bits, with a minus if it is below zero.
fn push_whole(bytes: &mut ArrayVec<u8, 8>, whole: i32)
    requires least { neg_ℤ (pos 64) ≤ℤ whole }
    requires most { whole ≤ℤ pos 64 }
    requires room { length bytes.old.items ≤ 5 }
    ensures text { bytes.new.items ≡ bytes.old.items ++ signed_decimal whole }
    ensures short { length bytes.new.items ≤ length bytes.old.items + 3 }
{
    if whole < 0 {
        bytes.push(b'-');
    }
    push_count(bytes, whole.unsigned_abs());
}

/// Returns the word of a format, of any width and fraction length.
pub fn format_name(format: Format) -> FormatName
    ensures text { result ≡ format_text format }
    ensures name { IsFormatName result format }
    ensures word { IsTypeFormat format.width format.frac → IsFormatWord result format }
{
    let mut bytes = ArrayVec::new();
    bytes.push(if format.signed() { b'I' } else { b'U' });
    push_whole(&mut bytes, format.whole_length());
    bytes.push(b'F');
    push_count(&mut bytes, format.frac());
    FormatName { bytes }
}
