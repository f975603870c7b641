//! Words one after another: contents and programs.

ghost use Rattle.std.specs.Prelude.{◌≡◌, ◌<◌, true, is_ok, slice_index};
ghost use Rattle.model.specs.Images.Fills.{bytes_of};
ghost use Rattle.model.specs.Images.Format.{end_of, values_of};
ghost use Rattle.model.specs.Images.Image.{words_format};

use crate::fields::{any_word, item_offset};
use model::Refusal;

/// The offset after `count` words from `start`.
pub(crate) fn words_end(bytes: &[u8], start: usize, count: u32) -> Result<usize, Refusal>
    ensures { result ≡ end_of ((words_format count).reads bytes.now start) }
{
    let mut at = start;
    for _ in 0..count {
        let (_word, next) = any_word(bytes, at)?;
        at = next;
    }
    Ok(at)
}

/// Word `index` of the `count` words from `start`.
pub(crate) fn word_of(bytes: &[u8], start: usize, count: u32, index: u32) -> u32
    requires inside { index < count }
    requires readable { is_ok (end_of ((words_format count).reads bytes.now start)) ≡ true }
    ensures { result ≡ slice_index (values_of ((words_format count).reads bytes.now start)) index }
{
    let at = item_offset(bytes.len(), start, 4, index);
    match any_word(bytes, at) {
        Ok((word, _)) => word,
        Err(_) => unreachable!(),
    }
}

/// The bytes of the `count` words from `start`.
pub(crate) fn bytes_of_words(bytes: &[u8], start: usize, count: u32) -> &[u8]
    requires some { 0 < count }
    requires readable { is_ok (end_of ((words_format count).reads bytes.now start)) ≡ true }
    ensures { result.now ≡ bytes_of (values_of ((words_format count).reads bytes.now start)) }
{
    let end = item_offset(bytes.len(), start, 4, count);
    &bytes[start..end]
}
