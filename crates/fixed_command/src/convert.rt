//! Numerals or words converted one a line: the words of a line are given once, and each line is a numeral or a word.
//!
//! No line is made of these words and a numeral: it exists in the clauses only. Its length counts, so a numeral is too
//! long exactly if that line is.

ghost use Rattle.std.specs.Prelude.{◌≡◌, ◌↔◌, ◌+◌, ◌*◌, ◌≤◌, ◌<◌, ◌++◌, [], IfErr, IfOk, IsTrue};
ghost use Rattle.std.specs.Prelude.{IfSome, MatchOption, MatchResult, false, length, true};
ghost use Rattle.fixed_bits.specs.Formats.{IsFormat};
ghost use Rattle.fixed_bits.specs.Numbers.{number_of_image};
ghost use Rattle.fixed_bits.specs.Ranges.{IsInRange, IsWide};
ghost use Rattle.line_engine.specs.Output.{AppendsAnswer};
ghost use Rattle.fixed_command.specs.Message.{message_text};
ghost use Rattle.fixed_command.specs.Moved.{HasImage, HasPushed};
ghost use Rattle.run_engine.specs.Reply.{Replies};
ghost use Rattle.fixed_command.specs.Outcome.{IsWholeSource};
ghost use Rattle.fixed_command.specs.declared.spelling.Spelling.{Spelling};
ghost use Rattle.fixed_command.specs.Convert.{asks_a_line, IsNoSource, IsSource, IsLineReply, IsReply, asking_line};
ghost use Rattle.fixed_command.specs.Convert.{without_return};
ghost use Rattle.fixed_command.specs.Printed.{printed};
ghost use Rattle.fixed_convert.specs.Rounded.{IsNotReformatted};
ghost use Rattle.fixed_numeral.specs.Messages.{message_of};
ghost use Rattle.fixed_respell.specs.Answer.{respelled_answer};
ghost use Rattle.fixed_respell.specs.Language.{fault_answer};
ghost use Rattle.fixed_respell.specs.LineWords.{longest_line};
ghost use Rattle.fixed_write.specs.Places.{rounded_text};
ghost use Rattle.fixed_write.specs.Texts.{shortest_text};

use crate::hex::{push_digits, push_hex};
use crate::message::Message;
use crate::print::Print;
use crate::spelling::Spelling;
use crate::words::{mode_name, policy_name, radix_name};
use fixed_bits::{Format, Image, Policy, ReadMode, sign_and_magnitude};
use fixed_convert::reformat_mode;
use fixed_numeral::{ParseErrorKind, ParseFixedError, Radix};
use fixed_respell::{LineFault, format_name, push_fault, push_respelled, reached_image};
use fixed_show::{Shown, read_shown, read_word};
use fixed_steps::Steps;
use fixed_write::{push_decimal, push_signed_exact, push_signed_integer, push_signed_shortest};
use line_engine::{MAX_ANSWER, MAX_LINE, Output};
use run_engine::{LineRule, Rule, push_error};
use std::marker::Model;
use std::sync::ledger::Ledger;
use text_buffer::TextBuffer;

/// How numerals or words are converted.
#[derive(Clone, Copy, Debug, PartialEq, Eq)]
pub struct Settings {
    /// How a line spells a number.
    pub spelling: Spelling,
    /// The radix of the numerals, or of words without a prefix.
    pub radix: Radix,
    /// The format that a numeral is read into.
    pub source: Format,
    /// The format that the number is moved to.
    pub target: Format,
    /// What is done with a number that is out of range.
    pub policy: Policy,
    /// How a numeral is rounded.
    pub mode: ReadMode,
    /// How a number is rounded on its way to the target.
    pub target_mode: ReadMode,
    /// What of an answer is written.
    pub print: Print,
}

/// Appends what reports the refusal of a numeral.
pub(crate) fn push_refusal<const N: usize>(out: &mut TextBuffer<N>, error: ParseFixedError)
    requires { length out.old + 71 ≤ N }
    ensures { out.new ≡ out.old ++ (fault_answer (message_of error)).text }
{
    push_fault(out, error.message());
}

/// Appends the part of an answer that is asked for: of an image in the target, and whether a number was out of its
/// format. A text is made only if it is written, and where it is written.
fn push_part<const N: usize, L: Ledger>(
    out: &mut TextBuffer<N>,
    settings: &Settings,
    image: Image,
    steps: &mut Steps<L>,
)
    requires wide { IsWide (number_of_image image) }
    requires range { IsInRange settings.now.target.signed settings.now.target.width (number_of_image image) }
    requires room { length out.old + 130 ≤ N }
    ensures appended { out.new ≡ out.old ++ printed settings.now.print settings.now.target
        (respelled_answer (shortest_text (number_of_image image) settings.now.target.frac) (number_of_image image)
        image.is_out_of_range).text (shortest_text (number_of_image image) settings.now.target.frac)
        (number_of_image image) }
    ensures short { length out.new ≤ length out.old + 130 }
    ensures cost { steps.new ≤ steps.old + 48 }
{
    let format = settings.target;
    let (negative, magnitude) = (image.negative, image.magnitude);
    match settings.print {
        Print::Text => push_signed_shortest(out, negative, magnitude, frac_of(format), steps),
        Print::Places(places, mode) => {
            push_places(out, format, image.number(), places.count(), mode);
        }
        Print::Bits => push_signed_integer(out, negative, magnitude),
        Print::Hex => push_hex(out, format, image.number()),
        Print::Readmemh => push_digits(out, format, image.number()),
        Print::Value => push_signed_exact(out, negative, magnitude, frac_of(format)),
        Print::All => push_respelled(out, image, frac_of(format), steps),
    }
}

/// Appends a number of a format rounded to a count of places in a mode.
fn push_places<const N: usize>(
    out: &mut TextBuffer<N>,
    format: Format,
    bits: i128,
    places: u32,
    mode: ReadMode,
)
    requires wide { IsWide bits }
    requires places { places ≤ 64 }
    requires room { length out.old + 130 ≤ N }
    ensures appended { out.new ≡ out.old ++ rounded_text mode 10 false places bits format.frac }
    ensures short { length out.new ≤ length out.old + 130 }
{
    push_decimal(out, bits, frac_of(format), places, mode);
}

/// A format's fraction length.
pub(crate) fn frac_of(format: Format) -> u32
    ensures value { result ≡ format.frac }
    ensures most { result ≤ 64 }
    ensures valid { IsFormat format.width format.frac }
{
    format.frac()
}

/// The rule that answers a line with the conversion of its numeral. A carriage return at the end of a line is no part
/// of it. Contracts see it as its settings.
#[derive(Drop)]
pub struct ConvertRule {
    settings: Settings,
    // How many bytes the line that asks for a conversion has before the numeral.
    head: usize,
}

impl Model for ConvertRule {
    ghost use Rattle.std.specs.Prelude.{◌≡◌, ◌≤◌, [], length};
    ghost use Rattle.fixed_bits.specs.Formats.{IsFormat};
    ghost use Rattle.fixed_command.specs.Convert.{asking_line};
    ghost use Rattle.fixed_command.specs.declared.convert.Settings.{Settings};

    ghost Value = { Settings };

    ghost view = { λ r. r.settings };

    ghost invariant = { λ r. IsFormat r.settings.source.width r.settings.source.frac × IsFormat
        r.settings.target.width r.settings.target.frac
        × (r.head ≡ length (asking_line r.settings [])) × (r.head ≤ 64) };
}

impl ConvertRule {
    /// The rule of these settings.
    pub fn new(settings: Settings) -> ConvertRule
        ensures { result ≡ settings }
    {
        let source = format_name(settings.source);
        let target = format_name(settings.target);
        let policy = policy_name(settings.policy).len() + 1 + mode_name(settings.mode).len();
        let formats = source.as_bytes().len() + 1 + target.as_bytes().len() + 1;
        let head = radix_name(settings.radix).len() + 1 + formats + policy + 1;
        ConvertRule { settings, head }
    }

    /// The rule that reads a spelling into a format, and moves its number to no other.
    pub fn reading(
        spelling: Spelling,
        radix: Radix,
        format: Format,
        policy: Policy,
        mode: ReadMode,
    ) -> ConvertRule
        ensures { result ≡ record {
          spelling = spelling;
          radix = radix;
          source = format;
          target = format;
          policy = policy;
          mode = mode;
          target_mode = ReadMode.Floor;
          print = Print.Text;
        } }
    {
        ConvertRule::new(Settings {
            spelling,
            radix,
            source: format,
            target: format,
            policy,
            mode,
            target_mode: ReadMode::Floor,
            print: Print::Text,
        })
    }

    /// The settings.
    pub fn settings(&self) -> &Settings
        ensures { result.now ≡ self.now }
    {
        &self.settings
    }

    /// Whether the line that asks for the conversion of a numeral is longer than a line may be.
    fn is_too_long(&self, numeral: &[u8]) -> bool
        ensures { IsTrue result ↔ longest_line < length (asking_line self.now numeral.now) }
    {
        numeral.len() > MAX_LINE - self.head
    }

    /// Appends the reply to a numeral, without a newline; or appends nothing and returns why the numeral is refused.
    pub fn reply_or_refuse<const N: usize, L: Ledger>(
        &self,
        numeral: &[u8],
        out: &mut TextBuffer<N>,
        steps: &mut Steps<L>,
    ) -> Result<(), Message>
        requires room { length out.old + MAX_ANSWER ≤ N }
        ensures reply { Replies (IsReply self.now) message_text MAX_ANSWER numeral.now out.old out.new result }
        ensures short { IfErr result (λ m. length m.text.now ≤ 64) }
        ensures cost { steps.new ≤ steps.old + 8 * length numeral.now + 624 }
    {
        if self.is_too_long(numeral) {
            Err(Message {
                text: LineFault::LineTooLong.words(),
            })
        } else if asks_a_line(self.settings.spelling, self.settings.target_mode) {
            self.push_answer(numeral, out, steps)
        } else {
            self.push_moved(numeral, out, steps)
        }
    }

    /// Appends the reply to a numeral, without a newline. Returns whether it is refused.
    pub fn push_reply<const N: usize, L: Ledger>(
        &self,
        numeral: &[u8],
        out: &mut TextBuffer<N>,
        steps: &mut Steps<L>,
    ) -> bool
        requires room { length out.old + MAX_ANSWER ≤ N }
        ensures reply { AppendsAnswer (IsReply self.now) MAX_ANSWER numeral.now out.old out.new result }
        ensures cost { steps.new ≤ steps.old + 8 * length numeral.now + 624 }
    {
        match self.reply_or_refuse(numeral, out, steps) {
            Ok(()) => false,
            Err(message) => {
                push_fault(out, message.text);
                true
            }
        }
    }

    /// Appends the part that is asked for of the answer to the line of a numeral.
    fn push_answer<const N: usize, L: Ledger>(
        &self,
        numeral: &[u8],
        out: &mut TextBuffer<N>,
        steps: &mut Steps<L>,
    ) -> Result<(), Message>
        requires short { length (asking_line self.now numeral.now) ≤ longest_line }
        requires line { asks_a_line self.now.spelling self.now.target_mode ≡ true }
        requires room { length out.old + MAX_ANSWER ≤ N }
        ensures reply { Replies (IsReply self.now) message_text MAX_ANSWER numeral.now out.old out.new result }
        ensures short { IfErr result (λ m. length m.text.now ≤ 64) }
        ensures cost { steps.new ≤ steps.old + 8 * length numeral.now + 624 }
    {
        let s = &self.settings;
        match reached_image(
            numeral, s.radix, s.source, s.target, s.policy, s.mode, steps,
        ) {
            Ok(image) => {
                push_part(out, s, image, steps);
                Ok(())
            }
            Err(error) => Err(Message {
                text: error.message(),
            }),
        }
    }

    /// Appends the part that is asked for of the answer to a numeral or a word whose number is moved in the target
    /// mode.
    fn push_moved<const N: usize, L: Ledger>(
        &self,
        numeral: &[u8],
        out: &mut TextBuffer<N>,
        steps: &mut Steps<L>,
    ) -> Result<(), Message>
        requires short { length (asking_line self.now numeral.now) ≤ longest_line }
        requires moved { asks_a_line self.now.spelling self.now.target_mode ≡ false }
        requires room { length out.old + MAX_ANSWER ≤ N }
        ensures reply { Replies (IsReply self.now) message_text MAX_ANSWER numeral.now out.old out.new result }
        ensures short { IfErr result (λ m. length m.text.now ≤ 64) }
        ensures cost { steps.new ≤ steps.old + 8 * length numeral.now + 624 }
    {
        let s = &self.settings;
        let found = match source_number(s, numeral, steps) {
            Ok(found) => found,
            Err(text) => return Err(Message { text }),
        };
        match image_of(s, &found) {
            Some(image) => {
                push_part(out, s, image, steps);
                Ok(())
            }
            None => Err(Message {
                text: ParseFixedError::new(ParseErrorKind::Overflow).message(),
            }),
        }
    }
}

/// Whether what is answered is the answer to a line.
#[inline]
fn asks_a_line(spelling: Spelling, target_mode: ReadMode) -> bool
    ensures { result ≡ asks_a_line spelling target_mode }
{
    matches!(
        (spelling, target_mode),
        (Spelling::Numeral, ReadMode::Floor)
    )
}

/// A format's width.
fn width_of(format: Format) -> u32
    ensures value { result ≡ format.width }
    ensures most { result ≤ 64 }
{
    format.width()
}

/// The number of the source that a numeral or a word says, and whether what was read was out of its range.
///
/// # Errors
///
/// The message says why it says none.
#[inline]
pub(crate) fn source_number<L: Ledger>(
    settings: &Settings,
    numeral: &[u8],
    steps: &mut Steps<L>,
) -> Result<Shown, &'static str>
    ensures source { MatchResult result (λ f. IsSource settings.now.spelling settings.now numeral.now f.bits
        f.overflowed)
        (λ m. IsNoSource settings.now.spelling settings.now numeral.now m.now) }
    ensures wide { IfOk result (λ f. IsWide f.bits) }
    ensures exact { IfOk result (λ f. IsTrue f.is_exact
        ↔ IsWholeSource settings.now.spelling settings.now numeral.now) }
    ensures short { IfErr result (λ m. length m.now ≤ 64) }
    ensures cost { steps.new ≤ steps.old + 8 * length numeral.now + 576 }
{
    match settings.spelling {
        Spelling::Numeral => read_numeral(settings, numeral, steps),
        Spelling::Word => read_bits(settings, numeral),
    }
}

/// The number of the source that a numeral is read as.
fn read_numeral<L: Ledger>(
    settings: &Settings,
    numeral: &[u8],
    steps: &mut Steps<L>,
) -> Result<Shown, &'static str>
    ensures source { MatchResult result (λ f. IsSource Spelling.Numeral settings.now numeral.now f.bits f.overflowed)
        (λ m. IsNoSource Spelling.Numeral settings.now numeral.now m.now) }
    ensures wide { IfOk result (λ f. IsWide f.bits) }
    ensures exact { IfOk result (λ f. IsTrue f.is_exact ↔ IsWholeSource Spelling.Numeral settings.now numeral.now) }
    ensures short { IfErr result (λ m. length m.now ≤ 64) }
    ensures cost { steps.new ≤ steps.old + 8 * length numeral.now + 576 }
{
    let s = settings;
    let _width = width_of(s.source);
    match read_shown(numeral, s.radix, s.source, s.policy, s.mode, steps) {
        Ok(found) => Ok(found),
        Err(error) => Err(error.message()),
    }
}

/// The number of the source that a word is.
fn read_bits(settings: &Settings, word: &[u8]) -> Result<Shown, &'static str>
    ensures source { MatchResult result (λ f. IsSource Spelling.Word settings.now word.now f.bits f.overflowed)
        (λ m. IsNoSource Spelling.Word settings.now word.now m.now) }
    ensures wide { IfOk result (λ f. IsWide f.bits) }
    ensures exact { IfOk result (λ f. IsTrue f.is_exact ↔ IsWholeSource Spelling.Word settings.now word.now) }
    ensures short { IfErr result (λ m. length m.now ≤ 64) }
{
    match read_word(word, settings.radix, settings.source) {
        Ok(bits) => Ok(Shown {
            bits,
            overflowed: false,
            is_exact: true,
        }),
        Err(fault) => Err(fault.message()),
    }
}

/// Moves a number of the source to the target. `None`: it has no image there.
fn image_of(settings: &Settings, found: &Shown) -> Option<Image>
    requires { IsWide found.now.bits }
    ensures image { MatchOption result (IsNotReformatted settings.now.target_mode settings.now.policy
        settings.now.target found.now.bits settings.now.source.frac)
        (λ image. HasImage settings.now found.now.bits found.now.overflowed (number_of_image image)
        image.is_out_of_range) }
    ensures range { IfSome result (λ image. IsInRange settings.now.target.signed settings.now.target.width
        (number_of_image image)) }
{
    let s = settings;
    let from = frac_of(s.source);
    match reformat_mode(s.target, s.policy, s.target_mode, found.bits, from) {
        Some((bits, target_overflowed)) => {
            let (negative, magnitude) = sign_and_magnitude(bits);
            Some(Image {
                negative,
                magnitude,
                is_out_of_range: found.overflowed | target_overflowed,
            })
        }
        None => None,
    }
}

/// Appends the part that is asked for of a number of the source, moved to the target; or, if it has no image there, the
/// fault. Returns whether that is so.
pub fn push_image<const N: usize, L: Ledger>(
    out: &mut TextBuffer<N>,
    settings: &Settings,
    found: &Shown,
    steps: &mut Steps<L>,
) -> bool
    requires wide { IsWide found.now.bits }
    requires room { length out.old + 130 ≤ N }
    ensures pushed { HasPushed settings.now found.now.bits found.now.overflowed out.old out.new result }
    ensures cost { steps.new ≤ steps.old + 48 }
{
    match image_of(settings, found) {
        Some(image) => {
            push_part(out, settings, image, steps);
            false
        }
        None => {
            push_refusal(out, ParseFixedError::new(ParseErrorKind::Overflow));
            true
        }
    }
}

/// A line without one carriage return at its end.
pub fn without_return(line: &[u8]) -> &[u8]
    ensures line { result.now ≡ without_return line.now }
    ensures short { length result.now ≤ length line.now }
{
    match line {
        [rest @ .., b'\r'] => rest,
        _ => line,
    }
}

impl<L: Ledger> Rule<L> for ConvertRule {
    ghost use Rattle.std.proofs.Common.{lit<};
    ghost use Rattle.fixed_command.specs.Lemmas.ReplyLemmas.{line_reply_one};

    type Note = ();

    type Cause = Message;

    const PER_BYTE: u64 = 8;

    const EXTRA: u64 = 624;

    const MAX_ANSWER: usize = MAX_ANSWER;

    ghost PER_BYTE = { 8 };

    ghost EXTRA = { 624 };

    ghost MAX_ANSWER = { 192 };

    ghost Answers = { λ rule. IsLineReply rule };

    ghost Notes = { λ rule line note. Unit {0} };

    ghost refusal = { λ rule. message_text };

    fn answer(&self, line: &[u8], out: &mut Output, steps: &mut Steps<L>) -> Result<(), Message> {
        self.reply_or_refuse(without_return(line), out, steps)
    }

    fn push_refusal(&self, _line: &[u8], cause: &Message, out: &mut Output) {
        push_error(cause, out);
    }

    ghost room_law = { lit< tt };

    ghost one_law = { λ rule. line_reply_one rule };
}

impl<L: Ledger> LineRule<L> for ConvertRule {
    ghost use Rattle.fixed_command.specs.Lemmas.ReplyLemmas.{long_by_its_prefix};

    ghost kept_law = { λ rule. long_by_its_prefix rule };
}
