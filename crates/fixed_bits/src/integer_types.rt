//! The eight integer types.

ghost use Rattle.std.specs.Prelude.{pos, negsuc, true, false, refl};
ghost use Rattle.fixed_bits.specs.Images.{wrap_to_unsigned, wrap_to_signed};
ghost use Rattle.fixed_bits.specs.Lemmas.InnerLaws.{
  width_8,
  width_16,
  width_32,
  width_64,
  wrapped_unsigned,
  back_unsigned,
  order_unsigned,
  eq_unsigned,
  wrapped_signed,
  back_signed,
  eq_signed,
};

use crate::inner::Inner;
use crate::masks::low_bits;

impl Inner for u8 {
    const BITS: u32 = 8;

    const SIGNED: bool = false;

    const ZERO: u8 = 0;

    const MIN: u8 = 0;

    const MAX: u8 = 255;

    ghost BITS = { 8 };

    ghost SIGNED = { false };

    ghost ZERO = { 0 };

    ghost MIN = { 0 };

    ghost MAX = { 255 };

    ghost number = { λ x. pos x };

    ghost wrapped = { λ v. wrap_to_unsigned 8 v };

    fn value(self) -> i128 {
        self as i128
    }

    fn wrap(v: i128) -> u8 {
        low_bits(v, 8) as u8
    }

    ghost width_law = { width_8 };

    ghost zero_law = { refl };

    ghost min_law = { refl };

    ghost max_law = { refl };

    ghost wrap_law = { wrapped_unsigned 8 };

    ghost back_law = { back_unsigned 8 };

    ghost order_law = { order_unsigned };

    ghost eq_law = { eq_unsigned };
}

impl Inner for u16 {
    const BITS: u32 = 16;

    const SIGNED: bool = false;

    const ZERO: u16 = 0;

    const MIN: u16 = 0;

    const MAX: u16 = 65535;

    ghost BITS = { 16 };

    ghost SIGNED = { false };

    ghost ZERO = { 0 };

    ghost MIN = { 0 };

    ghost MAX = { 65535 };

    ghost number = { λ x. pos x };

    ghost wrapped = { λ v. wrap_to_unsigned 16 v };

    fn value(self) -> i128 {
        self as i128
    }

    fn wrap(v: i128) -> u16 {
        low_bits(v, 16) as u16
    }

    ghost width_law = { width_16 };

    ghost zero_law = { refl };

    ghost min_law = { refl };

    ghost max_law = { refl };

    ghost wrap_law = { wrapped_unsigned 16 };

    ghost back_law = { back_unsigned 16 };

    ghost order_law = { order_unsigned };

    ghost eq_law = { eq_unsigned };
}

impl Inner for u32 {
    const BITS: u32 = 32;

    const SIGNED: bool = false;

    const ZERO: u32 = 0;

    const MIN: u32 = 0;

    const MAX: u32 = 4294967295;

    ghost BITS = { 32 };

    ghost SIGNED = { false };

    ghost ZERO = { 0 };

    ghost MIN = { 0 };

    ghost MAX = { 4294967295 };

    ghost number = { λ x. pos x };

    ghost wrapped = { λ v. wrap_to_unsigned 32 v };

    fn value(self) -> i128 {
        self as i128
    }

    fn wrap(v: i128) -> u32 {
        low_bits(v, 32) as u32
    }

    ghost width_law = { width_32 };

    ghost zero_law = { refl };

    ghost min_law = { refl };

    ghost max_law = { refl };

    ghost wrap_law = { wrapped_unsigned 32 };

    ghost back_law = { back_unsigned 32 };

    ghost order_law = { order_unsigned };

    ghost eq_law = { eq_unsigned };
}

impl Inner for u64 {
    const BITS: u32 = 64;

    const SIGNED: bool = false;

    const ZERO: u64 = 0;

    const MIN: u64 = 0;

    const MAX: u64 = 18446744073709551615;

    ghost BITS = { 64 };

    ghost SIGNED = { false };

    ghost ZERO = { 0 };

    ghost MIN = { 0 };

    ghost MAX = { 18446744073709551615 };

    ghost number = { λ x. pos x };

    ghost wrapped = { λ v. wrap_to_unsigned 64 v };

    fn value(self) -> i128 {
        self as i128
    }

    fn wrap(v: i128) -> u64 {
        low_bits(v, 64) as u64
    }

    ghost width_law = { width_64 };

    ghost zero_law = { refl };

    ghost min_law = { refl };

    ghost max_law = { refl };

    ghost wrap_law = { wrapped_unsigned 64 };

    ghost back_law = { back_unsigned 64 };

    ghost order_law = { order_unsigned };

    ghost eq_law = { eq_unsigned };
}

impl Inner for i8 {
    const BITS: u32 = 8;

    const SIGNED: bool = true;

    const ZERO: i8 = 0;

    const MIN: i8 = -128;

    const MAX: i8 = 127;

    ghost BITS = { 8 };

    ghost SIGNED = { true };

    ghost ZERO = { pos 0 };

    ghost MIN = { negsuc 127 };

    ghost MAX = { pos 127 };

    ghost number = { λ x. x };

    ghost wrapped = { λ v. wrap_to_signed 8 v };

    fn value(self) -> i128 {
        self as i128
    }

    fn wrap(v: i128) -> i8 {
        (low_bits(v, 8) as u8).cast_signed()
    }

    ghost width_law = { width_8 };

    ghost zero_law = { refl };

    ghost min_law = { refl };

    ghost max_law = { refl };

    ghost wrap_law = { wrapped_signed 8 refl };

    ghost back_law = { back_signed 8 refl };

    ghost order_law = { λ _ _. refl };

    ghost eq_law = { eq_signed };
}

impl Inner for i16 {
    const BITS: u32 = 16;

    const SIGNED: bool = true;

    const ZERO: i16 = 0;

    const MIN: i16 = -32768;

    const MAX: i16 = 32767;

    ghost BITS = { 16 };

    ghost SIGNED = { true };

    ghost ZERO = { pos 0 };

    ghost MIN = { negsuc 32767 };

    ghost MAX = { pos 32767 };

    ghost number = { λ x. x };

    ghost wrapped = { λ v. wrap_to_signed 16 v };

    fn value(self) -> i128 {
        self as i128
    }

    fn wrap(v: i128) -> i16 {
        (low_bits(v, 16) as u16).cast_signed()
    }

    ghost width_law = { width_16 };

    ghost zero_law = { refl };

    ghost min_law = { refl };

    ghost max_law = { refl };

    ghost wrap_law = { wrapped_signed 16 refl };

    ghost back_law = { back_signed 16 refl };

    ghost order_law = { λ _ _. refl };

    ghost eq_law = { eq_signed };
}

impl Inner for i32 {
    const BITS: u32 = 32;

    const SIGNED: bool = true;

    const ZERO: i32 = 0;

    const MIN: i32 = -2147483648;

    const MAX: i32 = 2147483647;

    ghost BITS = { 32 };

    ghost SIGNED = { true };

    ghost ZERO = { pos 0 };

    ghost MIN = { negsuc 2147483647 };

    ghost MAX = { pos 2147483647 };

    ghost number = { λ x. x };

    ghost wrapped = { λ v. wrap_to_signed 32 v };

    fn value(self) -> i128 {
        self as i128
    }

    fn wrap(v: i128) -> i32 {
        (low_bits(v, 32) as u32).cast_signed()
    }

    ghost width_law = { width_32 };

    ghost zero_law = { refl };

    ghost min_law = { refl };

    ghost max_law = { refl };

    ghost wrap_law = { wrapped_signed 32 refl };

    ghost back_law = { back_signed 32 refl };

    ghost order_law = { λ _ _. refl };

    ghost eq_law = { eq_signed };
}

impl Inner for i64 {
    const BITS: u32 = 64;

    const SIGNED: bool = true;

    const ZERO: i64 = 0;

    const MIN: i64 = -9223372036854775808;

    const MAX: i64 = 9223372036854775807;

    ghost BITS = { 64 };

    ghost SIGNED = { true };

    ghost ZERO = { pos 0 };

    ghost MIN = { negsuc 9223372036854775807 };

    ghost MAX = { pos 9223372036854775807 };

    ghost number = { λ x. x };

    ghost wrapped = { λ v. wrap_to_signed 64 v };

    fn value(self) -> i128 {
        self as i128
    }

    fn wrap(v: i128) -> i64 {
        (low_bits(v, 64) as u64).cast_signed()
    }

    ghost width_law = { width_64 };

    ghost zero_law = { refl };

    ghost min_law = { refl };

    ghost max_law = { refl };

    ghost wrap_law = { wrapped_signed 64 refl };

    ghost back_law = { back_signed 64 refl };

    ghost order_law = { λ _ _. refl };

    ghost eq_law = { eq_signed };
}
