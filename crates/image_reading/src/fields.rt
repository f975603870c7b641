//! Fields: numbers at an offset of the file, each with its test.

ghost use Rattle.std.specs.Prelude.{◌≡◌, IfOk, ◌≤◌, ◌+◌, ◌*◌, ◌^◌, ◌<◌, ◌==◌, ◌&&◌, ◌||◌, nat_le, nat_lt, length};
ghost use Rattle.std.specs.Int.{w32, w64};
ghost use Rattle.model.specs.declared.refusals.Refusal.TheVariants.{Magic, Version};
ghost use Rattle.model.specs.Images.Format.{field, number, number_or, only_if, signed_number};
ghost use Rattle.model.specs.Images.Image.{anything, below, between, has_buffers, has_promises, is_constant};
ghost use Rattle.model.specs.Images.Image.{latest_version, magic, no_buffer, no_parent, not_zero, pair_key};

use crate::versions::{has_buffers, has_promises, is_known_version};
use byteorder::{ByteOrder, LittleEndian};
use model::{MOST_PROMISES, Refusal};

/// The number for no object.
const NO_OBJECT: u32 = u32::MAX;

/// Where item `number` of a list from `start` is, in a file of so many bytes. Each item has `size`.
pub(crate) fn item_offset(length: usize, start: usize, size: usize, number: u32) -> usize
    requires { start + size * number ≤ length }
    ensures { result ≡ start + size * number }
{
    start + size * number as usize
}

/// The 4 bytes at `at` as a number, and the offset after them.
pub(crate) fn any_word(bytes: &[u8], at: usize) -> Result<(u32, usize), Refusal>
    ensures { result ≡ (field anything).reads bytes.now at }
{
    if bytes.len().saturating_sub(at) < 4 {
        return Err(Refusal::Truncated { offset: at as u64 });
    }
    Ok((LittleEndian::read_u32(&bytes[at..]), at + 4))
}

/// The 4 bytes at `at`, which every image begins with, and the offset after them.
pub(crate) fn magic(bytes: &[u8], at: usize) -> Result<(u32, usize), Refusal>
    ensures { result ≡ (number_or (λ _. Magic) w32 (λ n. n == magic)).reads bytes.now at }
{
    let (word, next) = any_word(bytes, at)?;
    if word == 0x5359_534d {
        Ok((word, next))
    } else {
        Err(Refusal::Magic)
    }
}

/// The 4 bytes at `at` as the version of the format, and the offset after them.
pub(crate) fn version(bytes: &[u8], at: usize) -> Result<(u32, usize), Refusal>
    ensures { result ≡ (number_or (λ _. Version) w32 (between 1 latest_version)).reads bytes.now at }
{
    let (word, next) = any_word(bytes, at)?;
    if is_known_version(word) {
        Ok((word, next))
    } else {
        Err(Refusal::Version)
    }
}

/// The 4 bytes at `at` as a number below `limit`, and the offset after them.
pub(crate) fn word_below(bytes: &[u8], at: usize, limit: u32) -> Result<(u32, usize), Refusal>
    ensures reads { result ≡ (field (below limit)).reads bytes.now at }
    ensures small { IfOk result (λ x. x.0 < limit) }
{
    let (word, next) = any_word(bytes, at)?;
    if word < limit {
        Ok((word, next))
    } else {
        Err(Refusal::Limit { offset: at as u64 })
    }
}

/// The 4 bytes at `at` as a number from `low` to `high`, and the offset after them.
pub(crate) fn word_between(
    bytes: &[u8],
    at: usize,
    low: u64,
    high: u32,
) -> Result<(u32, usize), Refusal>
    ensures { result ≡ (field (between low high)).reads bytes.now at }
{
    let (word, next) = any_word(bytes, at)?;
    if low <= u64::from(word) && word <= high {
        Ok((word, next))
    } else {
        Err(Refusal::Limit { offset: at as u64 })
    }
}

/// How many promises there are, at `at`, and the offset after the field: versions before 2 have no such field, and none.
pub(crate) fn promise_count(bytes: &[u8], at: usize, version: u32) -> Result<(u32, usize), Refusal>
    ensures { result ≡ (only_if (has_promises version) 0 (field (between 0 4096))).reads bytes.now at }
{
    if !has_promises(version) {
        return Ok((0, at));
    }
    word_between(bytes, at, 0, MOST_PROMISES)
}

/// The 4 bytes at `at` as the number of an object, or `u32::MAX` for none, and the offset after them.
pub(crate) fn object_or_none(bytes: &[u8], at: usize, objects: u32) -> Result<(u32, usize), Refusal>
    ensures { result ≡ (field (λ n. nat_lt n objects || (n == no_parent))).reads bytes.now at }
{
    let (word, next) = any_word(bytes, at)?;
    if word < objects || word == NO_OBJECT {
        Ok((word, next))
    } else {
        Err(Refusal::Limit { offset: at as u64 })
    }
}

/// The frame object of a thread's buffer at `at`, or `u32::MAX` for none, and the offset after the field: versions before 3 have no
/// such field, and no buffers.
pub(crate) fn buffer(
    bytes: &[u8],
    at: usize,
    version: u32,
    objects: u32,
) -> Result<(u32, usize), Refusal>
    ensures { result ≡ (only_if (has_buffers version) no_buffer (field (λ n. nat_lt n objects || (n == no_buffer)))).reads bytes.now at }
{
    if !has_buffers(version) {
        return Ok((NO_OBJECT, at));
    }
    object_or_none(bytes, at, objects)
}

/// The 4 bytes at `at` as a number from `least` on and below `limit`, and the offset after them.
pub(crate) fn rising_word(
    bytes: &[u8],
    at: usize,
    least: u64,
    limit: u32,
) -> Result<(u32, usize), Refusal>
    ensures reads { result ≡ (field (λ n. nat_le least n && nat_lt n limit)).reads bytes.now at }
    ensures small { IfOk result (λ x. x.0 < limit) }
{
    let (word, next) = any_word(bytes, at)?;
    if least <= u64::from(word) && word < limit {
        Ok((word, next))
    } else {
        Err(Refusal::Limit { offset: at as u64 })
    }
}

/// A key of two parts, in the order of the first and then of the second.
pub fn pair_key(first: u32, second: u32) -> u64
    ensures { result ≡ pair_key first second }
{
    u64::from(first) * 0x1_0000_0000 + u64::from(second)
}

/// The 4 bytes at `at` as the second part of a key that is not below `least`, and the offset after
/// them.
pub(crate) fn second_part(
    bytes: &[u8],
    at: usize,
    first: u32,
    least: u64,
) -> Result<(u32, usize), Refusal>
    ensures { result ≡ (field (λ second. nat_le least (pair_key first second))).reads bytes.now at }
{
    let (word, next) = any_word(bytes, at)?;
    if least <= pair_key(first, word) {
        Ok((word, next))
    } else {
        Err(Refusal::Limit { offset: at as u64 })
    }
}

/// The 8 bytes at `at` as a number from `low` to `high`, and the offset after them.
pub(crate) fn double_between(
    bytes: &[u8],
    at: usize,
    low: u64,
    high: u64,
) -> Result<(u64, usize), Refusal>
    ensures { result ≡ (number w64 (between low high)).reads bytes.now at }
{
    if bytes.len().saturating_sub(at) < 8 {
        return Err(Refusal::Truncated { offset: at as u64 });
    }
    let number = LittleEndian::read_u64(&bytes[at..]);
    if low <= number && number <= high {
        Ok((number, at + 8))
    } else {
        Err(Refusal::Limit { offset: at as u64 })
    }
}

/// Whether a number may be the constant of a measure.
fn is_constant(number: i64) -> bool
    ensures { result ≡ is_constant number }
{
    -(1 << 62) <= number && number <= 1 << 62
}

/// The 8 bytes at `at` as the constant of a measure, and the offset after them.
pub(crate) fn constant(bytes: &[u8], at: usize) -> Result<(i64, usize), Refusal>
    ensures { result ≡ (signed_number w64 is_constant).reads bytes.now at }
{
    if bytes.len().saturating_sub(at) < 8 {
        return Err(Refusal::Truncated { offset: at as u64 });
    }
    let number = LittleEndian::read_u64(&bytes[at..]).cast_signed();
    if is_constant(number) {
        Ok((number, at + 8))
    } else {
        Err(Refusal::Limit { offset: at as u64 })
    }
}

/// The 4 bytes at `at` as the coefficient of a term, and the offset after them.
pub(crate) fn coefficient(bytes: &[u8], at: usize) -> Result<(i32, usize), Refusal>
    ensures { result ≡ (signed_number w32 not_zero).reads bytes.now at }
{
    let (word, next) = any_word(bytes, at)?;
    let coefficient = word.cast_signed();
    if coefficient != 0 {
        Ok((coefficient, next))
    } else {
        Err(Refusal::Limit { offset: at as u64 })
    }
}
