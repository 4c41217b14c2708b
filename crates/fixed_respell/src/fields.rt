//! The fields of a line: one before each of its first four spaces, and all bytes after the fourth.
//!
//! In nearly every line the four spaces are among the first 32 bytes. They are compared with a space at once, which
//! makes a mask with a bit for each byte; each lowest bit of it ends a field. If the mask has only three, the fourth
//! space is searched for. Other lines are split at one space after another.

ghost use Rattle.std.specs.Prelude.{◌≡◌, ◌<◌, ◌≤◌, ◌/◌, ◌==◌, [], ◌∷◌, length, map, take, MatchOption, IfSome};
ghost use lib.Lanes.{mask_l};
ghost use Rattle.fixed_respell.specs.Inner.Spaces.{HasSpaces, IsFirstSpace};
ghost use Rattle.fixed_respell.specs.LineWords.{HasWords, space};
ghost use Rattle.fixed_respell.specs.Split.{IsSplit, count_of};

use crate::split::split_once;
use std::simd::prelude::*;

/// The bytes before each of a line's first four spaces, and all bytes after the fourth.
#[derive(Drop)]
pub(crate) struct Fields<'a> {
    pub radix: &'a [u8],
    pub source: &'a [u8],
    pub target: &'a [u8],
    pub policy: &'a [u8],
    pub numeral: &'a [u8],
}

/// The number of bytes compared together.
const LANES: usize = 16;

/// Returns which of the first 16 bytes are spaces, as a bit for each byte.
#[inline(always)]
fn spaces_of_sixteen(bytes: &[u8]) -> u64
    requires { LANES ≤ length bytes.now }
    ensures mask { result ≡ mask_l (map (λ x. x == space) (take 16 bytes.now)) }
    ensures below { result < 65536 }
{
    u8x16::from_slice(bytes)
        .simd_eq(u8x16::splat(b' '))
        .to_bitmask()
}

/// Returns which of a line's first 32 bytes are spaces, or of all bytes if there are fewer.
#[inline(always)]
fn spaces_of_prefix(line: &[u8]) -> u64
    requires { LANES ≤ length line.now }
    ensures { HasSpaces line.now result }
{
    let at = (line.len() - LANES).min(LANES);
    let low = spaces_of_sixteen(line);
    let high = spaces_of_sixteen(&line[at..]);
    low + (high >> (LANES - at)) * 65536
}

/// Returns the index of the first space in a mask that has one, and the mask of the bytes after it.
#[inline(always)]
fn first_space(line: &[u8], spaces: u64) -> (usize, u64)
    requires has { HasSpaces line.now spaces }
    requires some { 0 < spaces }
    ensures { IsFirstSpace line.now spaces result.0 result.1 }
{
    let place = spaces.trailing_zeros() as usize;
    (place, (spaces >> place) >> 1)
}

/// Returns the bytes before the first space, those after it, and their mask. `None`: the mask has no space.
#[inline(always)]
fn split_at_space(line: &[u8], spaces: u64) -> Option<(&[u8], &[u8], u64)>
    requires { HasSpaces line.now spaces }
    ensures split { IfSome result (λ r. IsSplit space line.now r.0.now r.1.now) }
    ensures after { IfSome result (λ r. HasSpaces r.1.now r.2) }
{
    if spaces == 0 {
        return None;
    }
    let (place, after) = first_space(line, spaces);
    Some((&line[..place], &line[place + 1..], after))
}

/// Splits a line into its fields by a mask of its first bytes. `None`: the mask has fewer than four spaces.
#[inline(always)]
fn split_at_spaces(line: &[u8], spaces: u64) -> Option<Fields<'_>>
    requires { HasSpaces line.now spaces }
    ensures { IfSome result (λ f. HasWords line.now (f.radix.now ∷ f.source.now ∷ f.target.now ∷ f.policy.now ∷ [])
        f.numeral.now) }
{
    let Some((radix, rest, spaces)) = split_at_space(line, spaces) else {
        return None;
    };
    let Some((source, rest, spaces)) = split_at_space(rest, spaces) else {
        return None;
    };
    let Some((target, rest, spaces)) = split_at_space(rest, spaces) else {
        return None;
    };
    let Some((policy, numeral, _spaces)) = split_at_space(rest, spaces) else {
        return None;
    };
    Some(Fields {
        radix,
        source,
        target,
        policy,
        numeral,
    })
}

/// Splits a line into its fields by a mask of its first bytes that has three spaces or more, and a search for the
/// fourth. `None`: either has fewer.
#[inline(always)]
fn split_past_mask(line: &[u8], spaces: u64) -> Option<Fields<'_>>
    requires { HasSpaces line.now spaces }
    ensures { IfSome result (λ f. HasWords line.now (f.radix.now ∷ f.source.now ∷ f.target.now ∷ f.policy.now ∷ [])
        f.numeral.now) }
{
    let Some((radix, rest, spaces)) = split_at_space(line, spaces) else {
        return None;
    };
    let Some((source, rest, spaces)) = split_at_space(rest, spaces) else {
        return None;
    };
    let Some((target, rest, _spaces)) = split_at_space(rest, spaces) else {
        return None;
    };
    let Some((policy, numeral)) = split_once(rest, b' ') else {
        return None;
    };
    Some(Fields {
        radix,
        source,
        target,
        policy,
        numeral,
    })
}

/// Splits a line into its fields at one space after another. `None`: it has fewer than four.
fn split_one_by_one(line: &[u8]) -> Option<Fields<'_>>
    ensures { MatchOption result (count_of space line.now < 4)
        (λ f. HasWords line.now (f.radix.now ∷ f.source.now ∷ f.target.now ∷ f.policy.now ∷ []) f.numeral.now) }
{
    let Some((radix, rest)) = split_once(line, b' ') else {
        return None;
    };
    let Some((source, rest)) = split_once(rest, b' ') else {
        return None;
    };
    let Some((target, rest)) = split_once(rest, b' ') else {
        return None;
    };
    let Some((policy, numeral)) = split_once(rest, b' ') else {
        return None;
    };
    Some(Fields {
        radix,
        source,
        target,
        policy,
        numeral,
    })
}

/// Splits a line whose fourth space is not among its first 32 bytes into its fields. `None`: it has fewer than four.
#[inline(never)]
fn split_late(line: &[u8]) -> Option<Fields<'_>>
    ensures { MatchOption result (count_of space line.now < 4)
        (λ f. HasWords line.now (f.radix.now ∷ f.source.now ∷ f.target.now ∷ f.policy.now ∷ []) f.numeral.now) }
{
    if line.len() >= LANES {
        if let Some(fields) = split_past_mask(line, spaces_of_prefix(line)) {
            return Some(fields);
        }
    }
    split_one_by_one(line)
}

/// Splits a line into its fields. `None`: it has fewer than four spaces.
#[inline(always)]
pub(crate) fn split_line(line: &[u8]) -> Option<Fields<'_>>
    ensures { MatchOption result (count_of space line.now < 4)
        (λ f. HasWords line.now (f.radix.now ∷ f.source.now ∷ f.target.now ∷ f.policy.now ∷ []) f.numeral.now) }
{
    if line.len() >= LANES {
        if let Some(fields) = split_at_spaces(line, spaces_of_prefix(line)) {
            return Some(fields);
        }
    }
    split_late(line)
}
