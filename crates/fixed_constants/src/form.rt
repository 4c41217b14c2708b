//! The forms in which a constants file can be written, and the names that a form reserves.
//!
//! Names are reserved only if a language is requested: a constants file may name a constant `int`. For C they are the
//! names that `<stdint.h>` defines, one by one. The standard keeps more of them, such as any name from `INT` to `_MAX`,
//! but people use names such as `INTERVAL_MAX`. Of the first fault and the first reserved name, the one on the earlier
//! line is reported.

ghost use Rattle.std.specs.Prelude.{◌≡◌, ◌↔◌, ◌≤◌, ◌+◌, ℕ, IsTrue, MatchOption, length};
ghost use Rattle.fixed_constants.specs.Forms.{HasReserved, IsAmong, IsReserved, IsReservedOn, words_in};

use crate::declaration::{is_name, is_passed_over, split_line};
use line_engine::first_line;
use memchr::memmem;
use text_buffer::TextBuffer;

/// The form in which a constants file is written.
#[derive(Clone, Copy, Debug, PartialEq, Eq)]
pub enum Form {
    /// A constants file, in its one canonical form.
    Canonical,
    /// A C header.
    C,
    /// Rust.
    Rust,
}

/// The keywords of C, and the types and macros that `<stdint.h>` names; each between two spaces.
const C_WORDS: &[u8] = b" \
    _Alignas _Alignof _Atomic _BitInt _Bool _Complex _Decimal128 _Decimal32 _Decimal64 _Generic _Imaginary \
    _Noreturn _Static_assert _Thread_local alignas alignof asm auto bool break case char const constexpr \
    continue default defined do double else enum extern false float for goto if inline int long nullptr \
    register restrict return short signed sizeof static static_assert struct switch thread_local true \
    typedef typeof typeof_unqual union unsigned void volatile while int16_t int32_t int64_t int8_t \
    int_fast16_t int_fast32_t int_fast64_t int_fast8_t int_least16_t int_least32_t int_least64_t \
    int_least8_t intmax_t intptr_t uint16_t uint32_t uint64_t uint8_t uint_fast16_t uint_fast32_t \
    uint_fast64_t uint_fast8_t uint_least16_t uint_least32_t uint_least64_t uint_least8_t uintmax_t \
    uintptr_t INT16_C INT16_MAX INT16_MIN INT16_WIDTH INT32_C INT32_MAX INT32_MIN INT32_WIDTH INT64_C \
    INT64_MAX INT64_MIN INT64_WIDTH INT8_C INT8_MAX INT8_MIN INT8_WIDTH INTMAX_C INTMAX_MAX INTMAX_MIN \
    INTMAX_WIDTH INTPTR_MAX INTPTR_MIN INTPTR_WIDTH INT_FAST16_MAX INT_FAST16_MIN INT_FAST16_WIDTH \
    INT_FAST32_MAX INT_FAST32_MIN INT_FAST32_WIDTH INT_FAST64_MAX INT_FAST64_MIN INT_FAST64_WIDTH \
    INT_FAST8_MAX INT_FAST8_MIN INT_FAST8_WIDTH INT_LEAST16_MAX INT_LEAST16_MIN INT_LEAST16_WIDTH \
    INT_LEAST32_MAX INT_LEAST32_MIN INT_LEAST32_WIDTH INT_LEAST64_MAX INT_LEAST64_MIN INT_LEAST64_WIDTH \
    INT_LEAST8_MAX INT_LEAST8_MIN INT_LEAST8_WIDTH PTRDIFF_MAX PTRDIFF_MIN PTRDIFF_WIDTH SIG_ATOMIC_MAX \
    SIG_ATOMIC_MIN SIG_ATOMIC_WIDTH SIZE_MAX SIZE_WIDTH UINT16_C UINT16_MAX UINT16_WIDTH UINT32_C UINT32_MAX \
    UINT32_WIDTH UINT64_C UINT64_MAX UINT64_WIDTH UINT8_C UINT8_MAX UINT8_WIDTH UINTMAX_C UINTMAX_MAX \
    UINTMAX_WIDTH UINTPTR_MAX UINTPTR_WIDTH UINT_FAST16_MAX UINT_FAST16_WIDTH UINT_FAST32_MAX \
    UINT_FAST32_WIDTH UINT_FAST64_MAX UINT_FAST64_WIDTH UINT_FAST8_MAX UINT_FAST8_WIDTH UINT_LEAST16_MAX \
    UINT_LEAST16_WIDTH UINT_LEAST32_MAX UINT_LEAST32_WIDTH UINT_LEAST64_MAX UINT_LEAST64_WIDTH \
    UINT_LEAST8_MAX UINT_LEAST8_WIDTH WCHAR_MAX WCHAR_MIN WCHAR_WIDTH WINT_MAX WINT_MIN WINT_WIDTH ";

/// The keywords of Rust, each between two spaces.
const RUST_WORDS: &[u8] = b" \
    Self _ abstract as async await become box break const continue crate do dyn else enum extern false final \
    fn for gen if impl in let loop macro match mod move mut override priv pub ref return self static struct \
    super trait true try type typeof unsafe unsized use virtual where while yield ";

/// Returns the words that a form reserves, each between two spaces.
fn words_of(form: Form) -> &'static [u8]
    ensures { result.now ≡ words_in form }
{
    match form {
        Form::Canonical => b"",
        Form::C => C_WORDS,
        Form::Rust => RUST_WORDS,
    }
}

/// Whether `words` contains `word` between two spaces.
pub fn is_among(words: &[u8], word: &[u8]) -> bool
    requires { length word.now ≤ 64 }
    ensures { IsTrue result ↔ IsAmong words.now word.now }
{
    let mut between: TextBuffer<66> = TextBuffer::new();
    between.push(b' ');
    between.push_bytes(word);
    between.push(b' ');
    memmem::find(words, between.as_bytes()).is_some()
}

/// Whether a name is a word of the form's language, or the header's guard.
pub fn is_reserved(form: Form, guard: &[u8], name: &[u8]) -> bool
    requires { length name.now ≤ 64 }
    ensures { IsTrue result ↔ IsReserved form guard.now name.now }
{
    is_among(words_of(form), name) || name == guard
}

/// Whether a line has all fields, and its first word is a reserved name.
fn has_reserved_name(form: Form, guard: &[u8], line: &[u8]) -> bool
    ensures { IsTrue result ↔ HasReserved form guard.now line.now }
{
    if is_passed_over(line) {
        return false;
    }
    match split_line(line) {
        Some(fields) => is_name(fields.name) && is_reserved(form, guard, fields.name),
        None => false,
    }
}

/// Returns the number, from 1, of the first line of a text whose name is reserved, if any.
pub fn first_reserved(form: Form, guard: &[u8], text: &[u8]) -> Option<u64>
    ensures { MatchOption result ((p : ℕ)
        → ¬ IsReservedOn form guard.now text.now p) (λ p. IsReservedOn form guard.now text.now p) }
{
    let mut number = 0u64;
    let mut rest = text;
    while !rest.is_empty() {
        let (line, after) = first_line(rest);
        number += 1;
        if has_reserved_name(form, guard, line) {
            return Some(number);
        }
        rest = after;
    }
    None
}
