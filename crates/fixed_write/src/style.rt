//! How a number is shown: the options of a styled text.

ghost use Rattle.std.specs.Prelude.{◌≡◌};
ghost use Rattle.fixed_write.specs.Styled.{plain_style};

/// How the value is shown: decimal, decimal with an exponent, or in base two, eight or sixteen.
#[derive(Clone, Copy, Debug, PartialEq, Eq)]
pub enum Notation {
    Dec,
    LowerExp,
    UpperExp,
    Bin,
    Oct,
    LowerHex,
    UpperHex,
}

/// The position of the text in a wider field.
#[derive(Clone, Copy, Debug, PartialEq, Eq)]
pub enum Align {
    Left,
    Center,
    Right,
}

/// How a number is shown.
#[derive(Clone, Copy, Debug, PartialEq, Eq)]
pub struct Style {
    pub notation: Notation,
    /// The number of digits after the point; `None` for as many as the value needs.
    pub precision: Option<u16>,
    /// The least number of characters.
    pub width: u16,
    /// The character that fills the field up to the width.
    pub fill: char,
    pub align: Align,
    /// Shows `+` before a number that is not negative.
    pub plus: bool,
    /// Shows `0b`, `0o` or `0x`.
    pub prefix: bool,
    /// Fills with zeros after sign and prefix; then `align` and `fill` have no effect.
    pub zero_pad: bool,
}

impl Style {
    /// The number and nothing else: no precision, width 0, a space as fill, right-aligned, and no flag.
    pub fn plain(notation: Notation) -> Style
        ensures { result ≡ plain_style notation }
    {
        Style {
            notation,
            precision: None,
            width: 0,
            fill: ' ',
            align: Align::Right,
            plus: false,
            prefix: false,
            zero_pad: false,
        }
    }
}
