//! A name for each type of 8, 16, 32 and 64 bits: `I16F16` is `Fixed<i32, 16>`. A name says the sign rule, the whole
//! bits and the fraction bits, and is the word of the type's format. `.ci/rules.py --write` writes this file.

use crate::number::Fixed;

/// Unsigned: 8 whole bits and 0 fraction bits.
pub type U8F0 = Fixed<u8, 0>;

/// Unsigned: 7 whole bits and 1 fraction bit.
pub type U7F1 = Fixed<u8, 1>;

/// Unsigned: 6 whole bits and 2 fraction bits.
pub type U6F2 = Fixed<u8, 2>;

/// Unsigned: 5 whole bits and 3 fraction bits.
pub type U5F3 = Fixed<u8, 3>;

/// Unsigned: 4 whole bits and 4 fraction bits.
pub type U4F4 = Fixed<u8, 4>;

/// Unsigned: 3 whole bits and 5 fraction bits.
pub type U3F5 = Fixed<u8, 5>;

/// Unsigned: 2 whole bits and 6 fraction bits.
pub type U2F6 = Fixed<u8, 6>;

/// Unsigned: 1 whole bit and 7 fraction bits.
pub type U1F7 = Fixed<u8, 7>;

/// Unsigned: 0 whole bits and 8 fraction bits.
pub type U0F8 = Fixed<u8, 8>;

/// Signed: 8 whole bits and 0 fraction bits.
pub type I8F0 = Fixed<i8, 0>;

/// Signed: 7 whole bits and 1 fraction bit.
pub type I7F1 = Fixed<i8, 1>;

/// Signed: 6 whole bits and 2 fraction bits.
pub type I6F2 = Fixed<i8, 2>;

/// Signed: 5 whole bits and 3 fraction bits.
pub type I5F3 = Fixed<i8, 3>;

/// Signed: 4 whole bits and 4 fraction bits.
pub type I4F4 = Fixed<i8, 4>;

/// Signed: 3 whole bits and 5 fraction bits.
pub type I3F5 = Fixed<i8, 5>;

/// Signed: 2 whole bits and 6 fraction bits.
pub type I2F6 = Fixed<i8, 6>;

/// Signed: 1 whole bit and 7 fraction bits.
pub type I1F7 = Fixed<i8, 7>;

/// Signed: 0 whole bits and 8 fraction bits.
pub type I0F8 = Fixed<i8, 8>;

/// Unsigned: 16 whole bits and 0 fraction bits.
pub type U16F0 = Fixed<u16, 0>;

/// Unsigned: 15 whole bits and 1 fraction bit.
pub type U15F1 = Fixed<u16, 1>;

/// Unsigned: 14 whole bits and 2 fraction bits.
pub type U14F2 = Fixed<u16, 2>;

/// Unsigned: 13 whole bits and 3 fraction bits.
pub type U13F3 = Fixed<u16, 3>;

/// Unsigned: 12 whole bits and 4 fraction bits.
pub type U12F4 = Fixed<u16, 4>;

/// Unsigned: 11 whole bits and 5 fraction bits.
pub type U11F5 = Fixed<u16, 5>;

/// Unsigned: 10 whole bits and 6 fraction bits.
pub type U10F6 = Fixed<u16, 6>;

/// Unsigned: 9 whole bits and 7 fraction bits.
pub type U9F7 = Fixed<u16, 7>;

/// Unsigned: 8 whole bits and 8 fraction bits.
pub type U8F8 = Fixed<u16, 8>;

/// Unsigned: 7 whole bits and 9 fraction bits.
pub type U7F9 = Fixed<u16, 9>;

/// Unsigned: 6 whole bits and 10 fraction bits.
pub type U6F10 = Fixed<u16, 10>;

/// Unsigned: 5 whole bits and 11 fraction bits.
pub type U5F11 = Fixed<u16, 11>;

/// Unsigned: 4 whole bits and 12 fraction bits.
pub type U4F12 = Fixed<u16, 12>;

/// Unsigned: 3 whole bits and 13 fraction bits.
pub type U3F13 = Fixed<u16, 13>;

/// Unsigned: 2 whole bits and 14 fraction bits.
pub type U2F14 = Fixed<u16, 14>;

/// Unsigned: 1 whole bit and 15 fraction bits.
pub type U1F15 = Fixed<u16, 15>;

/// Unsigned: 0 whole bits and 16 fraction bits.
pub type U0F16 = Fixed<u16, 16>;

/// Signed: 16 whole bits and 0 fraction bits.
pub type I16F0 = Fixed<i16, 0>;

/// Signed: 15 whole bits and 1 fraction bit.
pub type I15F1 = Fixed<i16, 1>;

/// Signed: 14 whole bits and 2 fraction bits.
pub type I14F2 = Fixed<i16, 2>;

/// Signed: 13 whole bits and 3 fraction bits.
pub type I13F3 = Fixed<i16, 3>;

/// Signed: 12 whole bits and 4 fraction bits.
pub type I12F4 = Fixed<i16, 4>;

/// Signed: 11 whole bits and 5 fraction bits.
pub type I11F5 = Fixed<i16, 5>;

/// Signed: 10 whole bits and 6 fraction bits.
pub type I10F6 = Fixed<i16, 6>;

/// Signed: 9 whole bits and 7 fraction bits.
pub type I9F7 = Fixed<i16, 7>;

/// Signed: 8 whole bits and 8 fraction bits.
pub type I8F8 = Fixed<i16, 8>;

/// Signed: 7 whole bits and 9 fraction bits.
pub type I7F9 = Fixed<i16, 9>;

/// Signed: 6 whole bits and 10 fraction bits.
pub type I6F10 = Fixed<i16, 10>;

/// Signed: 5 whole bits and 11 fraction bits.
pub type I5F11 = Fixed<i16, 11>;

/// Signed: 4 whole bits and 12 fraction bits.
pub type I4F12 = Fixed<i16, 12>;

/// Signed: 3 whole bits and 13 fraction bits.
pub type I3F13 = Fixed<i16, 13>;

/// Signed: 2 whole bits and 14 fraction bits.
pub type I2F14 = Fixed<i16, 14>;

/// Signed: 1 whole bit and 15 fraction bits.
pub type I1F15 = Fixed<i16, 15>;

/// Signed: 0 whole bits and 16 fraction bits.
pub type I0F16 = Fixed<i16, 16>;

/// Unsigned: 32 whole bits and 0 fraction bits.
pub type U32F0 = Fixed<u32, 0>;

/// Unsigned: 31 whole bits and 1 fraction bit.
pub type U31F1 = Fixed<u32, 1>;

/// Unsigned: 30 whole bits and 2 fraction bits.
pub type U30F2 = Fixed<u32, 2>;

/// Unsigned: 29 whole bits and 3 fraction bits.
pub type U29F3 = Fixed<u32, 3>;

/// Unsigned: 28 whole bits and 4 fraction bits.
pub type U28F4 = Fixed<u32, 4>;

/// Unsigned: 27 whole bits and 5 fraction bits.
pub type U27F5 = Fixed<u32, 5>;

/// Unsigned: 26 whole bits and 6 fraction bits.
pub type U26F6 = Fixed<u32, 6>;

/// Unsigned: 25 whole bits and 7 fraction bits.
pub type U25F7 = Fixed<u32, 7>;

/// Unsigned: 24 whole bits and 8 fraction bits.
pub type U24F8 = Fixed<u32, 8>;

/// Unsigned: 23 whole bits and 9 fraction bits.
pub type U23F9 = Fixed<u32, 9>;

/// Unsigned: 22 whole bits and 10 fraction bits.
pub type U22F10 = Fixed<u32, 10>;

/// Unsigned: 21 whole bits and 11 fraction bits.
pub type U21F11 = Fixed<u32, 11>;

/// Unsigned: 20 whole bits and 12 fraction bits.
pub type U20F12 = Fixed<u32, 12>;

/// Unsigned: 19 whole bits and 13 fraction bits.
pub type U19F13 = Fixed<u32, 13>;

/// Unsigned: 18 whole bits and 14 fraction bits.
pub type U18F14 = Fixed<u32, 14>;

/// Unsigned: 17 whole bits and 15 fraction bits.
pub type U17F15 = Fixed<u32, 15>;

/// Unsigned: 16 whole bits and 16 fraction bits.
pub type U16F16 = Fixed<u32, 16>;

/// Unsigned: 15 whole bits and 17 fraction bits.
pub type U15F17 = Fixed<u32, 17>;

/// Unsigned: 14 whole bits and 18 fraction bits.
pub type U14F18 = Fixed<u32, 18>;

/// Unsigned: 13 whole bits and 19 fraction bits.
pub type U13F19 = Fixed<u32, 19>;

/// Unsigned: 12 whole bits and 20 fraction bits.
pub type U12F20 = Fixed<u32, 20>;

/// Unsigned: 11 whole bits and 21 fraction bits.
pub type U11F21 = Fixed<u32, 21>;

/// Unsigned: 10 whole bits and 22 fraction bits.
pub type U10F22 = Fixed<u32, 22>;

/// Unsigned: 9 whole bits and 23 fraction bits.
pub type U9F23 = Fixed<u32, 23>;

/// Unsigned: 8 whole bits and 24 fraction bits.
pub type U8F24 = Fixed<u32, 24>;

/// Unsigned: 7 whole bits and 25 fraction bits.
pub type U7F25 = Fixed<u32, 25>;

/// Unsigned: 6 whole bits and 26 fraction bits.
pub type U6F26 = Fixed<u32, 26>;

/// Unsigned: 5 whole bits and 27 fraction bits.
pub type U5F27 = Fixed<u32, 27>;

/// Unsigned: 4 whole bits and 28 fraction bits.
pub type U4F28 = Fixed<u32, 28>;

/// Unsigned: 3 whole bits and 29 fraction bits.
pub type U3F29 = Fixed<u32, 29>;

/// Unsigned: 2 whole bits and 30 fraction bits.
pub type U2F30 = Fixed<u32, 30>;

/// Unsigned: 1 whole bit and 31 fraction bits.
pub type U1F31 = Fixed<u32, 31>;

/// Unsigned: 0 whole bits and 32 fraction bits.
pub type U0F32 = Fixed<u32, 32>;

/// Signed: 32 whole bits and 0 fraction bits.
pub type I32F0 = Fixed<i32, 0>;

/// Signed: 31 whole bits and 1 fraction bit.
pub type I31F1 = Fixed<i32, 1>;

/// Signed: 30 whole bits and 2 fraction bits.
pub type I30F2 = Fixed<i32, 2>;

/// Signed: 29 whole bits and 3 fraction bits.
pub type I29F3 = Fixed<i32, 3>;

/// Signed: 28 whole bits and 4 fraction bits.
pub type I28F4 = Fixed<i32, 4>;

/// Signed: 27 whole bits and 5 fraction bits.
pub type I27F5 = Fixed<i32, 5>;

/// Signed: 26 whole bits and 6 fraction bits.
pub type I26F6 = Fixed<i32, 6>;

/// Signed: 25 whole bits and 7 fraction bits.
pub type I25F7 = Fixed<i32, 7>;

/// Signed: 24 whole bits and 8 fraction bits.
pub type I24F8 = Fixed<i32, 8>;

/// Signed: 23 whole bits and 9 fraction bits.
pub type I23F9 = Fixed<i32, 9>;

/// Signed: 22 whole bits and 10 fraction bits.
pub type I22F10 = Fixed<i32, 10>;

/// Signed: 21 whole bits and 11 fraction bits.
pub type I21F11 = Fixed<i32, 11>;

/// Signed: 20 whole bits and 12 fraction bits.
pub type I20F12 = Fixed<i32, 12>;

/// Signed: 19 whole bits and 13 fraction bits.
pub type I19F13 = Fixed<i32, 13>;

/// Signed: 18 whole bits and 14 fraction bits.
pub type I18F14 = Fixed<i32, 14>;

/// Signed: 17 whole bits and 15 fraction bits.
pub type I17F15 = Fixed<i32, 15>;

/// Signed: 16 whole bits and 16 fraction bits.
pub type I16F16 = Fixed<i32, 16>;

/// Signed: 15 whole bits and 17 fraction bits.
pub type I15F17 = Fixed<i32, 17>;

/// Signed: 14 whole bits and 18 fraction bits.
pub type I14F18 = Fixed<i32, 18>;

/// Signed: 13 whole bits and 19 fraction bits.
pub type I13F19 = Fixed<i32, 19>;

/// Signed: 12 whole bits and 20 fraction bits.
pub type I12F20 = Fixed<i32, 20>;

/// Signed: 11 whole bits and 21 fraction bits.
pub type I11F21 = Fixed<i32, 21>;

/// Signed: 10 whole bits and 22 fraction bits.
pub type I10F22 = Fixed<i32, 22>;

/// Signed: 9 whole bits and 23 fraction bits.
pub type I9F23 = Fixed<i32, 23>;

/// Signed: 8 whole bits and 24 fraction bits.
pub type I8F24 = Fixed<i32, 24>;

/// Signed: 7 whole bits and 25 fraction bits.
pub type I7F25 = Fixed<i32, 25>;

/// Signed: 6 whole bits and 26 fraction bits.
pub type I6F26 = Fixed<i32, 26>;

/// Signed: 5 whole bits and 27 fraction bits.
pub type I5F27 = Fixed<i32, 27>;

/// Signed: 4 whole bits and 28 fraction bits.
pub type I4F28 = Fixed<i32, 28>;

/// Signed: 3 whole bits and 29 fraction bits.
pub type I3F29 = Fixed<i32, 29>;

/// Signed: 2 whole bits and 30 fraction bits.
pub type I2F30 = Fixed<i32, 30>;

/// Signed: 1 whole bit and 31 fraction bits.
pub type I1F31 = Fixed<i32, 31>;

/// Signed: 0 whole bits and 32 fraction bits.
pub type I0F32 = Fixed<i32, 32>;

/// Unsigned: 64 whole bits and 0 fraction bits.
pub type U64F0 = Fixed<u64, 0>;

/// Unsigned: 63 whole bits and 1 fraction bit.
pub type U63F1 = Fixed<u64, 1>;

/// Unsigned: 62 whole bits and 2 fraction bits.
pub type U62F2 = Fixed<u64, 2>;

/// Unsigned: 61 whole bits and 3 fraction bits.
pub type U61F3 = Fixed<u64, 3>;

/// Unsigned: 60 whole bits and 4 fraction bits.
pub type U60F4 = Fixed<u64, 4>;

/// Unsigned: 59 whole bits and 5 fraction bits.
pub type U59F5 = Fixed<u64, 5>;

/// Unsigned: 58 whole bits and 6 fraction bits.
pub type U58F6 = Fixed<u64, 6>;

/// Unsigned: 57 whole bits and 7 fraction bits.
pub type U57F7 = Fixed<u64, 7>;

/// Unsigned: 56 whole bits and 8 fraction bits.
pub type U56F8 = Fixed<u64, 8>;

/// Unsigned: 55 whole bits and 9 fraction bits.
pub type U55F9 = Fixed<u64, 9>;

/// Unsigned: 54 whole bits and 10 fraction bits.
pub type U54F10 = Fixed<u64, 10>;

/// Unsigned: 53 whole bits and 11 fraction bits.
pub type U53F11 = Fixed<u64, 11>;

/// Unsigned: 52 whole bits and 12 fraction bits.
pub type U52F12 = Fixed<u64, 12>;

/// Unsigned: 51 whole bits and 13 fraction bits.
pub type U51F13 = Fixed<u64, 13>;

/// Unsigned: 50 whole bits and 14 fraction bits.
pub type U50F14 = Fixed<u64, 14>;

/// Unsigned: 49 whole bits and 15 fraction bits.
pub type U49F15 = Fixed<u64, 15>;

/// Unsigned: 48 whole bits and 16 fraction bits.
pub type U48F16 = Fixed<u64, 16>;

/// Unsigned: 47 whole bits and 17 fraction bits.
pub type U47F17 = Fixed<u64, 17>;

/// Unsigned: 46 whole bits and 18 fraction bits.
pub type U46F18 = Fixed<u64, 18>;

/// Unsigned: 45 whole bits and 19 fraction bits.
pub type U45F19 = Fixed<u64, 19>;

/// Unsigned: 44 whole bits and 20 fraction bits.
pub type U44F20 = Fixed<u64, 20>;

/// Unsigned: 43 whole bits and 21 fraction bits.
pub type U43F21 = Fixed<u64, 21>;

/// Unsigned: 42 whole bits and 22 fraction bits.
pub type U42F22 = Fixed<u64, 22>;

/// Unsigned: 41 whole bits and 23 fraction bits.
pub type U41F23 = Fixed<u64, 23>;

/// Unsigned: 40 whole bits and 24 fraction bits.
pub type U40F24 = Fixed<u64, 24>;

/// Unsigned: 39 whole bits and 25 fraction bits.
pub type U39F25 = Fixed<u64, 25>;

/// Unsigned: 38 whole bits and 26 fraction bits.
pub type U38F26 = Fixed<u64, 26>;

/// Unsigned: 37 whole bits and 27 fraction bits.
pub type U37F27 = Fixed<u64, 27>;

/// Unsigned: 36 whole bits and 28 fraction bits.
pub type U36F28 = Fixed<u64, 28>;

/// Unsigned: 35 whole bits and 29 fraction bits.
pub type U35F29 = Fixed<u64, 29>;

/// Unsigned: 34 whole bits and 30 fraction bits.
pub type U34F30 = Fixed<u64, 30>;

/// Unsigned: 33 whole bits and 31 fraction bits.
pub type U33F31 = Fixed<u64, 31>;

/// Unsigned: 32 whole bits and 32 fraction bits.
pub type U32F32 = Fixed<u64, 32>;

/// Unsigned: 31 whole bits and 33 fraction bits.
pub type U31F33 = Fixed<u64, 33>;

/// Unsigned: 30 whole bits and 34 fraction bits.
pub type U30F34 = Fixed<u64, 34>;

/// Unsigned: 29 whole bits and 35 fraction bits.
pub type U29F35 = Fixed<u64, 35>;

/// Unsigned: 28 whole bits and 36 fraction bits.
pub type U28F36 = Fixed<u64, 36>;

/// Unsigned: 27 whole bits and 37 fraction bits.
pub type U27F37 = Fixed<u64, 37>;

/// Unsigned: 26 whole bits and 38 fraction bits.
pub type U26F38 = Fixed<u64, 38>;

/// Unsigned: 25 whole bits and 39 fraction bits.
pub type U25F39 = Fixed<u64, 39>;

/// Unsigned: 24 whole bits and 40 fraction bits.
pub type U24F40 = Fixed<u64, 40>;

/// Unsigned: 23 whole bits and 41 fraction bits.
pub type U23F41 = Fixed<u64, 41>;

/// Unsigned: 22 whole bits and 42 fraction bits.
pub type U22F42 = Fixed<u64, 42>;

/// Unsigned: 21 whole bits and 43 fraction bits.
pub type U21F43 = Fixed<u64, 43>;

/// Unsigned: 20 whole bits and 44 fraction bits.
pub type U20F44 = Fixed<u64, 44>;

/// Unsigned: 19 whole bits and 45 fraction bits.
pub type U19F45 = Fixed<u64, 45>;

/// Unsigned: 18 whole bits and 46 fraction bits.
pub type U18F46 = Fixed<u64, 46>;

/// Unsigned: 17 whole bits and 47 fraction bits.
pub type U17F47 = Fixed<u64, 47>;

/// Unsigned: 16 whole bits and 48 fraction bits.
pub type U16F48 = Fixed<u64, 48>;

/// Unsigned: 15 whole bits and 49 fraction bits.
pub type U15F49 = Fixed<u64, 49>;

/// Unsigned: 14 whole bits and 50 fraction bits.
pub type U14F50 = Fixed<u64, 50>;

/// Unsigned: 13 whole bits and 51 fraction bits.
pub type U13F51 = Fixed<u64, 51>;

/// Unsigned: 12 whole bits and 52 fraction bits.
pub type U12F52 = Fixed<u64, 52>;

/// Unsigned: 11 whole bits and 53 fraction bits.
pub type U11F53 = Fixed<u64, 53>;

/// Unsigned: 10 whole bits and 54 fraction bits.
pub type U10F54 = Fixed<u64, 54>;

/// Unsigned: 9 whole bits and 55 fraction bits.
pub type U9F55 = Fixed<u64, 55>;

/// Unsigned: 8 whole bits and 56 fraction bits.
pub type U8F56 = Fixed<u64, 56>;

/// Unsigned: 7 whole bits and 57 fraction bits.
pub type U7F57 = Fixed<u64, 57>;

/// Unsigned: 6 whole bits and 58 fraction bits.
pub type U6F58 = Fixed<u64, 58>;

/// Unsigned: 5 whole bits and 59 fraction bits.
pub type U5F59 = Fixed<u64, 59>;

/// Unsigned: 4 whole bits and 60 fraction bits.
pub type U4F60 = Fixed<u64, 60>;

/// Unsigned: 3 whole bits and 61 fraction bits.
pub type U3F61 = Fixed<u64, 61>;

/// Unsigned: 2 whole bits and 62 fraction bits.
pub type U2F62 = Fixed<u64, 62>;

/// Unsigned: 1 whole bit and 63 fraction bits.
pub type U1F63 = Fixed<u64, 63>;

/// Unsigned: 0 whole bits and 64 fraction bits.
pub type U0F64 = Fixed<u64, 64>;

/// Signed: 64 whole bits and 0 fraction bits.
pub type I64F0 = Fixed<i64, 0>;

/// Signed: 63 whole bits and 1 fraction bit.
pub type I63F1 = Fixed<i64, 1>;

/// Signed: 62 whole bits and 2 fraction bits.
pub type I62F2 = Fixed<i64, 2>;

/// Signed: 61 whole bits and 3 fraction bits.
pub type I61F3 = Fixed<i64, 3>;

/// Signed: 60 whole bits and 4 fraction bits.
pub type I60F4 = Fixed<i64, 4>;

/// Signed: 59 whole bits and 5 fraction bits.
pub type I59F5 = Fixed<i64, 5>;

/// Signed: 58 whole bits and 6 fraction bits.
pub type I58F6 = Fixed<i64, 6>;

/// Signed: 57 whole bits and 7 fraction bits.
pub type I57F7 = Fixed<i64, 7>;

/// Signed: 56 whole bits and 8 fraction bits.
pub type I56F8 = Fixed<i64, 8>;

/// Signed: 55 whole bits and 9 fraction bits.
pub type I55F9 = Fixed<i64, 9>;

/// Signed: 54 whole bits and 10 fraction bits.
pub type I54F10 = Fixed<i64, 10>;

/// Signed: 53 whole bits and 11 fraction bits.
pub type I53F11 = Fixed<i64, 11>;

/// Signed: 52 whole bits and 12 fraction bits.
pub type I52F12 = Fixed<i64, 12>;

/// Signed: 51 whole bits and 13 fraction bits.
pub type I51F13 = Fixed<i64, 13>;

/// Signed: 50 whole bits and 14 fraction bits.
pub type I50F14 = Fixed<i64, 14>;

/// Signed: 49 whole bits and 15 fraction bits.
pub type I49F15 = Fixed<i64, 15>;

/// Signed: 48 whole bits and 16 fraction bits.
pub type I48F16 = Fixed<i64, 16>;

/// Signed: 47 whole bits and 17 fraction bits.
pub type I47F17 = Fixed<i64, 17>;

/// Signed: 46 whole bits and 18 fraction bits.
pub type I46F18 = Fixed<i64, 18>;

/// Signed: 45 whole bits and 19 fraction bits.
pub type I45F19 = Fixed<i64, 19>;

/// Signed: 44 whole bits and 20 fraction bits.
pub type I44F20 = Fixed<i64, 20>;

/// Signed: 43 whole bits and 21 fraction bits.
pub type I43F21 = Fixed<i64, 21>;

/// Signed: 42 whole bits and 22 fraction bits.
pub type I42F22 = Fixed<i64, 22>;

/// Signed: 41 whole bits and 23 fraction bits.
pub type I41F23 = Fixed<i64, 23>;

/// Signed: 40 whole bits and 24 fraction bits.
pub type I40F24 = Fixed<i64, 24>;

/// Signed: 39 whole bits and 25 fraction bits.
pub type I39F25 = Fixed<i64, 25>;

/// Signed: 38 whole bits and 26 fraction bits.
pub type I38F26 = Fixed<i64, 26>;

/// Signed: 37 whole bits and 27 fraction bits.
pub type I37F27 = Fixed<i64, 27>;

/// Signed: 36 whole bits and 28 fraction bits.
pub type I36F28 = Fixed<i64, 28>;

/// Signed: 35 whole bits and 29 fraction bits.
pub type I35F29 = Fixed<i64, 29>;

/// Signed: 34 whole bits and 30 fraction bits.
pub type I34F30 = Fixed<i64, 30>;

/// Signed: 33 whole bits and 31 fraction bits.
pub type I33F31 = Fixed<i64, 31>;

/// Signed: 32 whole bits and 32 fraction bits.
pub type I32F32 = Fixed<i64, 32>;

/// Signed: 31 whole bits and 33 fraction bits.
pub type I31F33 = Fixed<i64, 33>;

/// Signed: 30 whole bits and 34 fraction bits.
pub type I30F34 = Fixed<i64, 34>;

/// Signed: 29 whole bits and 35 fraction bits.
pub type I29F35 = Fixed<i64, 35>;

/// Signed: 28 whole bits and 36 fraction bits.
pub type I28F36 = Fixed<i64, 36>;

/// Signed: 27 whole bits and 37 fraction bits.
pub type I27F37 = Fixed<i64, 37>;

/// Signed: 26 whole bits and 38 fraction bits.
pub type I26F38 = Fixed<i64, 38>;

/// Signed: 25 whole bits and 39 fraction bits.
pub type I25F39 = Fixed<i64, 39>;

/// Signed: 24 whole bits and 40 fraction bits.
pub type I24F40 = Fixed<i64, 40>;

/// Signed: 23 whole bits and 41 fraction bits.
pub type I23F41 = Fixed<i64, 41>;

/// Signed: 22 whole bits and 42 fraction bits.
pub type I22F42 = Fixed<i64, 42>;

/// Signed: 21 whole bits and 43 fraction bits.
pub type I21F43 = Fixed<i64, 43>;

/// Signed: 20 whole bits and 44 fraction bits.
pub type I20F44 = Fixed<i64, 44>;

/// Signed: 19 whole bits and 45 fraction bits.
pub type I19F45 = Fixed<i64, 45>;

/// Signed: 18 whole bits and 46 fraction bits.
pub type I18F46 = Fixed<i64, 46>;

/// Signed: 17 whole bits and 47 fraction bits.
pub type I17F47 = Fixed<i64, 47>;

/// Signed: 16 whole bits and 48 fraction bits.
pub type I16F48 = Fixed<i64, 48>;

/// Signed: 15 whole bits and 49 fraction bits.
pub type I15F49 = Fixed<i64, 49>;

/// Signed: 14 whole bits and 50 fraction bits.
pub type I14F50 = Fixed<i64, 50>;

/// Signed: 13 whole bits and 51 fraction bits.
pub type I13F51 = Fixed<i64, 51>;

/// Signed: 12 whole bits and 52 fraction bits.
pub type I12F52 = Fixed<i64, 52>;

/// Signed: 11 whole bits and 53 fraction bits.
pub type I11F53 = Fixed<i64, 53>;

/// Signed: 10 whole bits and 54 fraction bits.
pub type I10F54 = Fixed<i64, 54>;

/// Signed: 9 whole bits and 55 fraction bits.
pub type I9F55 = Fixed<i64, 55>;

/// Signed: 8 whole bits and 56 fraction bits.
pub type I8F56 = Fixed<i64, 56>;

/// Signed: 7 whole bits and 57 fraction bits.
pub type I7F57 = Fixed<i64, 57>;

/// Signed: 6 whole bits and 58 fraction bits.
pub type I6F58 = Fixed<i64, 58>;

/// Signed: 5 whole bits and 59 fraction bits.
pub type I5F59 = Fixed<i64, 59>;

/// Signed: 4 whole bits and 60 fraction bits.
pub type I4F60 = Fixed<i64, 60>;

/// Signed: 3 whole bits and 61 fraction bits.
pub type I3F61 = Fixed<i64, 61>;

/// Signed: 2 whole bits and 62 fraction bits.
pub type I2F62 = Fixed<i64, 62>;

/// Signed: 1 whole bit and 63 fraction bits.
pub type I1F63 = Fixed<i64, 63>;

/// Signed: 0 whole bits and 64 fraction bits.
pub type I0F64 = Fixed<i64, 64>;
