//! `fixed constants`: writes named literals in one form, or a list of them or of numerals as an array or a memory file.

ghost use Rattle.std.specs.Prelude.{◌≡◌, IfErr, IfOk, List, MatchOption, None, codes, ℕ};
ghost use Rattle.std.specs.List.{list_any};
ghost use Rattle.command_line.specs.Words.{keyword_at, value_of};
ghost use Rattle.fixed.specs.Constants.{IsArrayAsked, IsArrayWord, IsFormAsked, IsGuardAsked, IsNameAsked};
ghost use Rattle.fixed.specs.Constants.{AreLiteralsAsked, AreNumeralsAsked, HasNoListOption, HasNoNumeralOption};
ghost use Rattle.fixed.specs.Constants.{IsListAsked, IsListNamed, IsNumeralsAsked, IsUnswapped, guarded, is_c, is_file};
ghost use Rattle.fixed.specs.Constants.{is_header, is_swapped};
ghost use Rattle.fixed.specs.declared.product.Product.{Product};
ghost use Rattle.fixed_arrays.specs.declared.form.ArrayForm.{ArrayForm};
ghost use Rattle.fixed_arrays.specs.declared.literal_rule.LiteralArrayRule.{LiteralArrayRule};
ghost use Rattle.fixed_arrays.specs.declared.rule.Numerals.{Numerals};
ghost use Rattle.fixed_constants.specs.declared.form_rule.FormRule.{FormRule};

use crate::commands::column::DECIMAL;
use crate::commands::column_words::decimal_of;
use crate::line_layout::{layout_asked, refuse_layout};
use crate::options::{LIMIT, MODE, OUTPUT, PASS_BLANK, PASS_COMMENTS, POLICY, RADIX, TRIM};
use crate::product::{Product, run_product};
use crate::settings::{format_of, mode_of, policy_of, radix_of, refuse_value};
use command_line::given::{Asked, Given, Refusal};
use command_line::page::{Operand, Page, Row};
use fixed_arrays::{
    ArrayForm, ArrayRule, LiteralArrayRule, Numerals, is_array_name, is_c_name, is_kept,
};
use fixed_command::{Layout, SwappedRule};
use fixed_constants::{Form, FormRule, is_guard};
use fixed_steps::Steps;
use line_engine::Status;
use std::sync::ledger::Ledger;

const WORDS: Operand = Operand {
    name: "FORM",
    help: "c, rust, array-c, array-rust, vhdl, readmemh, coe, mif; files",
};

const GUARD: Row = Row {
    name: "guard",
    letter: None,
    value: "NAME",
    choices: &[],
    help: "The name that guards the C header",
};

const NUMERALS: Row = Row {
    name: "numerals",
    letter: None,
    value: "FORMAT",
    choices: &[],
    help: "Each line is a numeral, read into this format",
};

const NAME: Row = Row {
    name: "name",
    letter: None,
    value: "NAME",
    choices: &[],
    help: "The name of the array",
};

/// Why an option has no meaning without a list.
const FOR_LISTS: &str = "is for a list: array-c, array-rust, vhdl, readmemh, coe or mif";

/// Why an option has no meaning without numerals.
const FOR_NUMERALS: &str = "is for numerals, which --numerals FORMAT asks for";

/// Why a word cannot be the form of a list.
const NO_LIST: &str = "is not a form of a list: array-c, array-rust, vhdl, readmemh, coe or mif";

pub fn page() -> Page {
    Page {
        name: "constants",
        hidden_name: "",
        about: "Write named literals or a list of numerals as source code",
        usage: "fixed constants [c | rust] [--guard NAME] [FILE]...\n       \
                fixed constants FORM [--numerals FORMAT] [--name NAME] [FILE]...",
        operands: &[WORDS],
        has_numerals: false,
        options: &[
            GUARD,
            NUMERALS,
            NAME,
            DECIMAL,
            RADIX,
            POLICY,
            MODE,
            TRIM,
            PASS_BLANK,
            PASS_COMMENTS,
            LIMIT,
            OUTPUT,
        ],
        end: "A line is NAME = LITERAL FORMAT, with any blanks, and a comment from '#' on.\n\
              \n\
              FORM is array-c, array-rust or vhdl, an array with a name, or readmemh, coe or\n\
              mif, a file that a memory starts from: of the numbers of named literals, which\n\
              have one format, or with --numerals of numerals, one a line. The numbers of an\n\
              array are integers of 8, 16, 32 or 64 bits, in VHDL and in a memory words of the\n\
              format's width; beside each is its value. Nothing is written where a line is\n\
              refused.\n\
              \n\
              Example: echo 'A = 0b_111e-2 I4F4' | fixed constants c --guard A_H\n\
              Example: echo 'A = 0b_111e-2 I4F4' | fixed constants array-c --name h\n\
              Example: seq 0 .25 1 | fixed constants array-c --numerals I4F4 --name h",
    }
}

/// Returns the form that the first operand names, and the index of the first file. A file with such a name is written
/// `./c`, or after `--`.
fn form_and_files(given: &Given<'_, '_>) -> (Form, usize)
    ensures { IsFormAsked (keyword_at given.now 0) result.0 result.1 }
{
    match given.keyword(0) {
        Some("c") => (Form::C, 1),
        Some("rust") => (Form::Rust, 1),
        _ => (Form::Canonical, 0),
    }
}

/// Returns the guard that the option names, empty without the option.
fn guard_of<'a>(given: &Given<'_, 'a>, is_header: bool) -> Asked<'a, &'a str>
    ensures value { IfOk result (λ a. IsGuardAsked is_header (value_of given.now (codes "guard")) a.now) }
    ensures refused { IfErr result (λ _. (a : List ℕ)
        → ¬ IsGuardAsked is_header (value_of given.now (codes "guard")) a) }
{
    match given.value(&GUARD) {
        None => Ok(""),
        Some(guard) if !is_header => Err(Refusal::Word(
            guard,
            "guards nothing: only a C header has a guard",
        )),
        Some(guard) if is_guard(guard.as_bytes()) => Ok(guard),
        Some(guard) => Err(Refusal::Word(
            guard,
            "can guard no header: it is not a name, or C reserves it",
        )),
    }
}

/// Returns the form of a list that a word names, without a guard.
fn array_named(word: &str) -> Option<ArrayForm>
    ensures { MatchOption result ((a : ArrayForm) → ¬ IsArrayWord word.now a) (λ a. IsArrayWord word.now a) }
{
    match word {
        "array-c" => Some(ArrayForm::C),
        "array-rust" => Some(ArrayForm::Rust),
        "vhdl" => Some(ArrayForm::Vhdl),
        "readmemh" => Some(ArrayForm::Readmemh),
        "coe" => Some(ArrayForm::Coe),
        "mif" => Some(ArrayForm::Mif),
        _ => None,
    }
}

/// Returns the form of a list that the first operand names, without a guard.
fn array_form(given: &Given<'_, '_>) -> Option<ArrayForm>
    ensures { MatchOption result ((a : ArrayForm) → ¬ IsArrayAsked (keyword_at given.now 0) a)
        (λ a. IsArrayAsked (keyword_at given.now 0) a) }
{
    match given.keyword(0) {
        Some(word) => array_named(word),
        None => None,
    }
}

/// Whether a list in this form is a memory file.
fn is_file(form: ArrayForm) -> bool
    ensures { result ≡ is_file form }
{
    matches!(form, ArrayForm::Readmemh | ArrayForm::Coe | ArrayForm::Mif)
}

/// Whether a list in this form is an array of C.
fn is_c(form: ArrayForm) -> bool
    ensures { result ≡ is_c form }
{
    matches!(form, ArrayForm::C)
}

/// Whether literals in this form are a header of C.
fn is_header(form: Form) -> bool
    ensures { result ≡ is_header form }
{
    matches!(form, Form::C)
}

/// Returns why a list in this form cannot have this name.
fn why_no_name(form: ArrayForm, guard: &str, name: &str) -> &'static str {
    if form == ArrayForm::C && is_kept(name.as_bytes()) {
        "can name no array: C keeps names with two underscores side by side, or an underscore and a capital first"
    } else if form == ArrayForm::C && is_c_name(guard.as_bytes(), name.as_bytes()) {
        "can name no array: with _COUNT or _FRAC it is longer than 64 bytes, or C keeps it, or it is the guard"
    } else {
        "can name no array: it is not a name, or the language reserves it, or it is the guard"
    }
}

/// Returns the name of a list, empty for a memory file.
fn name_of<'a>(given: &Given<'_, 'a>, form: ArrayForm, guard: &str) -> Asked<'a, &'a str>
    ensures value { IfOk result (λ a. IsNameAsked form guard.now (value_of given.now (codes "name")) a.now) }
    ensures refused { IfErr result (λ _. (a : List ℕ)
        → ¬ IsNameAsked form guard.now (value_of given.now (codes "name")) a) }
{
    let is_file = is_file(form);
    match given.value(&NAME) {
        None if is_file => Ok(""),
        None => Err(Refusal::Missing("--name NAME")),
        Some(name) if is_file => Err(Refusal::Word(
            name,
            "names nothing: a memory's file has no name",
        )),
        Some(name) if is_array_name(form, guard.as_bytes(), name.as_bytes()) => Ok(name),
        Some(name) => Err(Refusal::Word(name, why_no_name(form, guard, name))),
    }
}

/// Returns how the numerals of a list are read, into the format that a word names.
fn numerals_of<'a>(given: &Given<'_, 'a>, word: &'a str) -> Asked<'a, Numerals>
    ensures value { IfOk result (λ a. IsNumeralsAsked given.now word.now a) }
    ensures refused { IfErr result (λ _. (a : Numerals) → ¬ IsNumeralsAsked given.now word.now a) }
{
    let format = match format_of(word) {
        Ok(format) => format,
        Err(refusal) => return Err(refusal),
    };
    Ok(Numerals {
        radix: radix_of(given)?,
        format,
        policy: policy_of(given)?,
        mode: mode_of(given)?,
    })
}

/// Refuses an option of a list if the first operand is not a form of one: by this operand, unless it is another form.
fn refuse_of_list<'a>(given: &Given<'_, 'a>, row: &Row) -> Asked<'a, ()>
    ensures value { IfOk result (λ _. value_of given.now row.now.name.now ≡ None) }
    ensures refused { IfErr result (λ _. ¬ (value_of given.now row.now.name.now ≡ None)) }
{
    match given.keyword(0) {
        Some(word) if word != "c" && word != "rust" && given.value(row).is_some() => {
            Err(Refusal::Word(word, NO_LIST))
        }
        _ => refuse_value(given, row, FOR_LISTS),
    }
}

/// Refuses the options of a list if the first operand is not a form of one.
fn refuse_list<'a>(given: &Given<'_, 'a>) -> Asked<'a, ()>
    ensures value { IfOk result (λ _. HasNoListOption given.now) }
    ensures refused { IfErr result (λ _. ¬ HasNoListOption given.now) }
{
    refuse_of_list(given, &NUMERALS)?;
    refuse_of_list(given, &NAME)?;
    refuse_of_list(given, &DECIMAL)?;
    refuse_of_list(given, &RADIX)?;
    refuse_of_list(given, &POLICY)?;
    refuse_of_list(given, &MODE)?;
    refuse_layout(given, FOR_LISTS)
}

/// Refuses the options of numerals for a list of named literals.
fn refuse_numerals<'a>(given: &Given<'_, 'a>) -> Asked<'a, ()>
    ensures value { IfOk result (λ _. HasNoNumeralOption given.now) }
    ensures refused { IfErr result (λ _. ¬ HasNoNumeralOption given.now) }
{
    refuse_value(given, &DECIMAL, FOR_NUMERALS)?;
    refuse_value(given, &RADIX, FOR_NUMERALS)?;
    refuse_value(given, &POLICY, FOR_NUMERALS)?;
    refuse_value(given, &MODE, FOR_NUMERALS)?;
    refuse_layout(given, FOR_NUMERALS)
}

/// Whether a byte is read as another one, since `decimal` comes before a fraction.
fn is_swapped(decimal: u8, byte: u8) -> bool
    ensures { result ≡ is_swapped decimal byte }
{
    byte == b'.' || byte == decimal
}

/// Whether one of `bytes` is read as another one.
fn has_swapped(decimal: u8, bytes: &[u8]) -> bool
    ensures { result ≡ list_any (is_swapped decimal) bytes.now }
{
    bytes.iter().any(|byte| is_swapped(decimal, *byte))
}

/// Refuses a comment's prefix with a byte that is read as another one, since `decimal` comes before a fraction.
fn refuse_swapped<'a>(given: &Given<'_, 'a>, decimal: u8) -> Asked<'a, ()>
    ensures value { IfOk result (λ _. IsUnswapped decimal (value_of given.now (codes "comments"))) }
    ensures refused { IfErr result (λ _. ¬ IsUnswapped decimal (value_of given.now (codes "comments"))) }
{
    match given.value(&PASS_COMMENTS) {
        Some(prefix) if decimal != b'.' && has_swapped(decimal, prefix.as_bytes()) => {
            Err(Refusal::Word(
                prefix,
                "has a point or the byte of --decimal, which begin no comment here",
            ))
        }
        _ => Ok(()),
    }
}

/// Returns how the numerals of a list are read, into the format that a word names, and the byte before a fraction.
fn reading_of<'a>(given: &Given<'_, 'a>, word: &'a str) -> Asked<'a, (Numerals, u8)>
    ensures value { IfOk result (λ a. AreNumeralsAsked given.now word.now a.0 a.1) }
    ensures refused { IfErr result (λ _. (a : Numerals) (decimal : ℕ)
        → ¬ AreNumeralsAsked given.now word.now a decimal) }
{
    let numerals = match numerals_of(given, word) {
        Ok(numerals) => numerals,
        Err(refusal) => return Err(refusal),
    };
    match decimal_of(given) {
        Ok(decimal) => {
            refuse_swapped(given, decimal)?;
            Ok((numerals, decimal))
        }
        Err(refusal) => Err(refusal),
    }
}

/// Returns the form of a list, with the guard if there is one.
fn guarded(guard: &[u8], form: ArrayForm) -> ArrayForm
    ensures { result ≡ guarded guard.now form }
{
    if guard.is_empty() {
        form
    } else {
        ArrayForm::GuardedC
    }
}

/// Returns the form, the guard and the name of a list.
fn names_of<'a>(given: &Given<'_, 'a>, form: ArrayForm) -> Asked<'a, LiteralArrayRule<'a>>
    ensures value { IfOk result (λ list. IsListNamed given.now form list) }
    ensures refused { IfErr result (λ _. (list : LiteralArrayRule) → ¬ IsListNamed given.now form list) }
{
    let guard = match guard_of(given, is_c(form)) {
        Ok(guard) => guard,
        Err(refusal) => return Err(refusal),
    };
    match name_of(given, form, guard) {
        Ok(name) => Ok(LiteralArrayRule {
            form: guarded(guard.as_bytes(), form),
            name: name.as_bytes(),
            guard: guard.as_bytes(),
        }),
        Err(refusal) => Err(refusal),
    }
}

/// Returns the list of the numerals of all files, or of their named literals if no numerals are requested.
fn list_of<'p, 'a: 'p>(
    given: &Given<'_, 'a>,
    form: ArrayForm,
    layout: &'p Option<Layout>,
) -> Asked<'a, Product<'p>>
    ensures value { IfOk result (λ list. IsListAsked given.now form layout.now list) }
    ensures refused { IfErr result (λ _. (list : Product) → ¬ IsListAsked given.now form layout.now list) }
{
    let list = match names_of(given, form) {
        Ok(list) => list,
        Err(refusal) => return Err(refusal),
    };
    match given.value(&NUMERALS) {
        None => match refuse_numerals(given) {
            Ok(()) => Ok(Product::Literals(list)),
            Err(refusal) => Err(refusal),
        },
        Some(word) => match reading_of(given, word) {
            Err(refusal) => Err(refusal),
            Ok((numerals, decimal)) => {
                let rule = ArrayRule {
                    form: list.form,
                    numerals,
                    name: list.name,
                    guard: list.guard,
                    layout,
                };
                Ok(Product::List(SwappedRule { rule, decimal }))
            }
        },
    }
}

/// Writes the list of all files as one product.
fn run_list<'a, L: Ledger>(
    rt: &HostRuntime,
    given: &Given<'_, 'a>,
    form: ArrayForm,
    steps: &mut Steps<L>,
) -> Asked<'a, Status> {
    let layout = match layout_asked(given) {
        Ok(layout) => layout,
        Err(refusal) => return Err(refusal),
    };
    match list_of(given, form, &layout) {
        Ok(product) => run_product(rt, &product, given, 1, steps),
        Err(refusal) => Err(refusal),
    }
}

/// Returns how named literals are written, and the index of the first file.
fn literals_of<'a>(given: &Given<'_, 'a>) -> Asked<'a, (FormRule<'a>, usize)>
    ensures value { IfOk result (λ a. AreLiteralsAsked given.now a.0 a.1) }
    ensures refused { IfErr result (λ _. (rule : FormRule) (files : ℕ) → ¬ AreLiteralsAsked given.now rule files) }
{
    refuse_list(given)?;
    let (form, files) = form_and_files(given);
    match guard_of(given, is_header(form)) {
        Ok(guard) => {
            let guard = guard.as_bytes();
            Ok((FormRule { form, guard }, files))
        }
        Err(refusal) => Err(refusal),
    }
}

/// Writes the constants of all files, or the list of their numbers, as one product.
pub fn run<'a, L: Ledger>(
    rt: &HostRuntime,
    given: &Given<'_, 'a>,
    steps: &mut Steps<L>,
) -> Asked<'a, Status> {
    if let Some(form) = array_form(given) {
        return run_list(rt, given, form, steps);
    }
    match literals_of(given) {
        Ok((rule, files)) => run_product(rt, &Product::Constants(rule), given, files, steps),
        Err(refusal) => Err(refusal),
    }
}
