//! The templates of a list of numbers: in each form an opening, the line of an element, and a closing.
//!
//! A number of VHDL is a string of bits: an integer may have no more than 32 bits there, and before VHDL-2008 a
//! hexadecimal string needs a width that is a multiple of four. The last choice, `others`, matches no number, so each
//! line ends with a comma, and a list of one number is not a special case. A coefficient file has no comments beside
//! its numbers, since the semicolon before one ends the vector.

ghost use Rattle.std.specs.Prelude.{◌≡◌};
ghost use Rattle.fixed_arrays.specs.Table.{closing, element, opening};

use crate::form::ArrayForm;

const C_OPENING: &[u8] = b"\
    #include <stdint.h>\n\n#define @n_COUNT @c\n#define @n_FRAC @p\n\n\
    /* @f */\nstatic const @uint@w_t @n[@n_COUNT] = {\n";

const GUARDED_OPENING: &[u8] = b"\
    #ifndef @g\n#define @g\n\n#include <stdint.h>\n\n#define @n_COUNT @c\n#define @n_FRAC @p\n\n\
    /* @f */\nstatic const @uint@w_t @n[@n_COUNT] = {\n";

const VHDL_OPENING: &[u8] = b"\
    library ieee;\nuse ieee.std_logic_1164.all;\nuse ieee.numeric_std.all;\n\n-- @f\n\
    package @n_package is\n    type @n_array is array (0 to @l) of @qsigned(@m downto 0);\n    \
    constant @n : @n_array := (\n";

const COE_OPENING: &[u8] =
    b"; @f\nmemory_initialization_radix=16;\nmemory_initialization_vector=\n";

const MIF_OPENING: &[u8] =
    b"-- @f\nDEPTH = @c;\nWIDTH = @b;\nADDRESS_RADIX = UNS;\nDATA_RADIX = HEX;\nCONTENT\nBEGIN\n";

const VHDL_CLOSING: &[u8] = b"        others => (others => '0')\n    );\nend package @n_package;\n";

/// Returns the template of the text before the numbers.
pub fn opening_of(form: ArrayForm) -> &'static [u8]
    ensures { result.now ≡ opening form }
{
    match form {
        ArrayForm::C => C_OPENING,
        ArrayForm::GuardedC => GUARDED_OPENING,
        ArrayForm::Rust => b"// @f\npub static @n: [@r@w; @c] = [\n",
        ArrayForm::Vhdl => VHDL_OPENING,
        ArrayForm::Readmemh => b"// @f\n",
        ArrayForm::Coe => COE_OPENING,
        ArrayForm::Mif => MIF_OPENING,
    }
}

/// Returns the template of the line of a number.
pub fn element_of(form: ArrayForm) -> &'static [u8]
    ensures { result.now ≡ element form }
{
    match form {
        ArrayForm::C => b"    @d, /* @k@v */\n",
        ArrayForm::GuardedC => b"    @d, /* @k@v */\n",
        ArrayForm::Rust => b"    @x, // @k@v\n",
        ArrayForm::Vhdl => b"        @i => \"@z\", -- @k@v\n",
        ArrayForm::Readmemh => b"@h // @k@v\n",
        ArrayForm::Coe => b"@,@h",
        ArrayForm::Mif => b"    @i : @h; -- @k@v\n",
    }
}

/// Returns the template of the text after the numbers.
pub fn closing_of(form: ArrayForm) -> &'static [u8]
    ensures { result.now ≡ closing form }
{
    match form {
        ArrayForm::C => b"};\n",
        ArrayForm::GuardedC => b"};\n\n#endif\n",
        ArrayForm::Rust => b"];\n",
        ArrayForm::Vhdl => VHDL_CLOSING,
        ArrayForm::Readmemh => b"",
        ArrayForm::Coe => b";\n",
        ArrayForm::Mif => b"END;\n",
    }
}
