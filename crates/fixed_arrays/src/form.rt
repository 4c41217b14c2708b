//! The forms in which a list of numbers is written, and the names that it may have.

ghost use Rattle.std.specs.Prelude.{◌≡◌, ◌↔◌, ◌≤◌, ◌++◌, IsTrue, length, map};
ghost use Rattle.std.specs.Char.{to_ascii_lowercase};
ghost use Rattle.fixed_constants.specs.Constants.{IsName};
ghost use Rattle.fixed_constants.specs.Forms.{IsAmong, IsReserved};
ghost use Rattle.fixed_arrays.specs.Names.{AreApart, HasTwoUnderscores, IsArrayName, IsCArrayName, IsCName, IsKept};
ghost use Rattle.fixed_arrays.specs.Names.{IsVhdlName, begins_kept, count_ending, frac_ending, gnu_words, vhdl_words};

use fixed_constants::{Form, is_among, is_name, is_reserved};
use memchr::memmem;
use text_buffer::TextBuffer;

/// The form in which a list of numbers is written.
#[derive(Clone, Copy, Debug, PartialEq, Eq)]
pub enum ArrayForm {
    /// An array in a C header.
    C,
    /// An array in a C header with a guard.
    GuardedC,
    /// An array of Rust.
    Rust,
    /// An array in a package of VHDL.
    Vhdl,
    /// A file that Verilog's `$readmemh` reads.
    Readmemh,
    /// A coefficient file, for memories of Xilinx's tools.
    Coe,
    /// A memory initialization file, for memories of Intel's tools.
    Mif,
}

/// The keywords of VHDL, and the names that a list's package uses; each between two spaces.
const VHDL_WORDS: &[u8] = b" \
    abs access after alias all and architecture array assert assume assume_guarantee attribute begin \
    block body buffer bus case component configuration constant context cover default disconnect \
    downto else elsif end entity exit fairness file for force function generate generic group guarded \
    if impure in inertial inout is label library linkage literal loop map mod nand new next nor not \
    null of on open or others out package parameter port postponed private procedure process property \
    protected pure range record register reject release rem report restrict restrict_guarantee return \
    rol ror select sequence severity shared signal sla sll sra srl strong subtype then to transport type \
    unaffected units until use variable vmode vpkg vprop vunit wait when while with xnor xor view \
    ieee numeric_std signed standard std std_logic_1164 unsigned work ";

/// The names that GNU C defines in addition to those that C reserves, each between two spaces.
const GNU_WORDS: &[u8] = b" i386 linux unix ";

/// Returns the names that GNU C defines.
fn gnu_words() -> &'static [u8]
    ensures { result.now ≡ gnu_words }
{
    GNU_WORDS
}

/// Returns the words that VHDL reserves.
fn vhdl_words() -> &'static [u8]
    ensures { result.now ≡ vhdl_words }
{
    VHDL_WORDS
}

/// Whether a name has no two adjacent underscores, and none at its start or end.
fn are_apart(name: &[u8]) -> bool
    requires { length name.now ≤ 64 }
    ensures { IsTrue result ↔ AreApart name.now }
{
    let mut between: TextBuffer<66> = TextBuffer::new();
    between.push(b'_');
    between.push_bytes(name);
    between.push(b'_');
    memmem::find(between.as_bytes(), b"__").is_none()
}

/// Returns the name in lower case.
fn small(name: &[u8]) -> TextBuffer<64>
    requires { length name.now ≤ 64 }
    ensures letters { result ≡ map to_ascii_lowercase name.now }
    ensures short { length result ≤ 64 }
{
    let mut letters = TextBuffer::new();
    for byte in name {
        letters.push(byte.to_ascii_lowercase());
    }
    letters
}

/// Whether VHDL reserves a name, in either case of letters.
fn is_vhdl_word(name: &[u8]) -> bool
    requires { length name.now ≤ 64 }
    ensures { IsTrue result ↔ IsAmong vhdl_words (map to_ascii_lowercase name.now) }
{
    is_among(vhdl_words(), small(name).as_bytes())
}

/// Whether VHDL allows a name and does not reserve it.
fn has_vhdl_form(name: &[u8]) -> bool
    requires { length name.now ≤ 64 }
    ensures { IsTrue result ↔ (AreApart name.now × (¬ IsAmong vhdl_words (map to_ascii_lowercase name.now))) }
{
    are_apart(name) && !is_vhdl_word(name)
}

/// Whether a list may have a name in VHDL.
fn is_vhdl_name(name: &[u8]) -> bool
    ensures { IsTrue result ↔ IsVhdlName name.now }
{
    is_name(name) && has_vhdl_form(name)
}

/// Whether a list may have a name in a language, in a header with this guard.
fn is_free_name(language: Form, guard: &[u8], name: &[u8]) -> bool
    ensures { IsTrue result ↔ (IsName name.now × (¬ IsReserved language guard.now name.now)) }
{
    is_name(name) && !is_reserved(language, guard, name)
}

/// Whether a name has two adjacent underscores.
fn has_two_underscores(name: &[u8]) -> bool
    ensures { IsTrue result ↔ HasTwoUnderscores name.now }
{
    memmem::find(name, b"__").is_some()
}

/// Whether a name begins with an underscore and a capital letter.
fn begins_kept(name: &[u8]) -> bool
    ensures { result ≡ begins_kept name.now }
{
    match name {
        [first, next, ..] => *first == b'_' && next.is_ascii_uppercase(),
        _ => false,
    }
}

/// Whether C keeps a name for compilers and libraries: it has two adjacent underscores, or begins with an underscore
/// and a capital letter.
pub fn is_kept(name: &[u8]) -> bool
    ensures { IsTrue result ↔ IsKept name.now }
{
    has_two_underscores(name) || begins_kept(name)
}

/// Whether a name that is not a keyword of C is free to use.
fn is_open(name: &[u8]) -> bool
    requires { length name.now ≤ 64 }
    ensures { IsTrue result ↔ ((¬ IsAmong gnu_words name.now) × (¬ IsKept name.now)) }
{
    !is_among(gnu_words(), name) && !is_kept(name)
}

/// Whether a list may have a name in C, in a header with this guard.
pub fn is_c_name(guard: &[u8], name: &[u8]) -> bool
    ensures { IsTrue result ↔ IsCName guard.now name.now }
{
    is_free_name(Form::C, guard, name) && is_open(name)
}

/// Whether a name with an ending is a name of C, in a header with this guard.
fn is_c_name_with(guard: &[u8], name: &[u8], ending: &[u8]) -> bool
    requires name { length name.now ≤ 64 }
    requires ending { length ending.now ≤ 6 }
    ensures { IsTrue result ↔ IsCName guard.now (name.now ++ ending.now) }
{
    let mut whole: TextBuffer<70> = TextBuffer::new();
    whole.push_bytes(name);
    whole.push_bytes(ending);
    is_c_name(guard, whole.as_bytes())
}

/// Whether the names of an array's macros are names of C: that of its count, and that of its fraction length.
fn are_macro_names(guard: &[u8], name: &[u8]) -> bool
    requires { length name.now ≤ 64 }
    ensures { IsTrue result ↔ (IsCName guard.now (name.now ++ count_ending)
        × IsCName guard.now (name.now ++ frac_ending)) }
{
    is_c_name_with(guard, name, b"_COUNT") && is_c_name_with(guard, name, b"_FRAC")
}

/// Whether an array of C may have a name, in a header with this guard: it and the names of its macros are names of C.
fn is_c_array_name(guard: &[u8], name: &[u8]) -> bool
    ensures { IsTrue result ↔ IsCArrayName guard.now name.now }
{
    is_c_name(guard, name) && are_macro_names(guard, name)
}

/// Whether a list in a form may have a name, in a header with this guard. Memory files have none.
pub fn is_array_name(form: ArrayForm, guard: &[u8], name: &[u8]) -> bool
    ensures { IsTrue result ↔ IsArrayName form guard.now name.now }
{
    match form {
        ArrayForm::C => is_c_array_name(guard, name),
        ArrayForm::GuardedC => is_c_array_name(guard, name),
        ArrayForm::Rust => is_free_name(Form::Rust, guard, name),
        ArrayForm::Vhdl => is_vhdl_name(name),
        ArrayForm::Readmemh => name.is_empty(),
        ArrayForm::Coe => name.is_empty(),
        ArrayForm::Mif => name.is_empty(),
    }
}
