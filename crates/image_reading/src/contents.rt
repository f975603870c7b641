//! The contents of frames.

ghost use Rattle.std.specs.Prelude.{◌≡◌, ◌+◌, ◌<◌, ◌^◌, IfOk, length, slice_index};
ghost use Rattle.std.specs.Iterator.{YieldsFirst, item_count};
ghost use Rattle.model.specs.Images.Fills.{bytes_of};
ghost use Rattle.model.specs.Images.Format.{end_of, ordered};
ghost use Rattle.model.specs.Images.Image.{content_format};

use crate::fields::{rising_word, word_between};
use crate::word_lists::{bytes_of_words, word_of, words_end};
use model::{ContentHeader, MOST_CONTENT_WORDS, Refusal};
use std::marker::Model;

/// The words that a frame begins with, lent from the file.
#[derive(Drop)]
pub struct ContentRef<'a> {
    bytes: &'a [u8],
    header: ContentHeader,
    words_at: usize,
}

impl<'a> Model for ContentRef<'a> {
    ghost use Rattle.std.specs.Prelude.{◌≡◌, ◌<◌, true, is_ok};
    ghost use Rattle.model.specs.Images.Format.{end_of, values_of};
    ghost use Rattle.model.specs.Images.Image.{ImageContent, words_format};

    ghost Value = { ImageContent };

    ghost view = { λ c. record {
      header = c.header;
      words = values_of ((words_format c.header.words).reads c.bytes.now c.words_at);
    } };

    ghost invariant = { λ c. (0 < c.header.words) × (is_ok (end_of ((words_format c.header.words).reads c.bytes.now c.words_at)) ≡ true) };
}

/// The content at `at` of an image with so many objects, and the offset after it. Its frame's number
/// is not below `least`.
#[tactic(auto, unfolding(model::specs::Images::Image::content_format, model::specs::Images::Image::words_format))]
pub(crate) fn content_at<'a>(
    bytes: &'a [u8],
    at: usize,
    objects: u32,
    least: u64,
) -> Result<(ContentRef<'a>, usize), Refusal>
    ensures { result ≡ (content_format objects least).reads bytes.now at }
{
    let (frame, at) = rising_word(bytes, at, least, objects)?;
    let (words, words_at) = word_between(bytes, at, 1, MOST_CONTENT_WORDS)?;
    let end = words_end(bytes, words_at, words)?;
    let content = ContentRef {
        bytes,
        header: ContentHeader { frame, words },
        words_at,
    };
    Ok((content, end))
}

impl<'a> ContentRef<'a> {
    /// The content's fixed part.
    pub fn header(&self) -> ContentHeader
        ensures { result ≡ self.now.header }
    {
        self.header
    }

    /// How many words the frame begins with.
    pub fn word_count(&self) -> u32
        ensures value { result ≡ self.now.header.words }
        ensures length { length self.now.words ≡ result }
    {
        self.header.words
    }

    /// Word `index` of the frame.
    pub fn word(&self, index: u32) -> u32
        requires { index < self.now.header.words }
        ensures { result ≡ slice_index self.now.words index }
    {
        word_of(self.bytes, self.words_at, self.header.words, index)
    }

    /// The bytes that the frame begins with, lent.
    pub fn bytes(&self) -> &'a [u8]
        ensures { result.now ≡ bytes_of self.now.words }
    {
        bytes_of_words(self.bytes, self.words_at, self.header.words)
    }
}

/// The offset after `count` contents from `start` of an image with so many objects.
pub(crate) fn contents_end(
    bytes: &[u8],
    start: usize,
    objects: u32,
    count: u32,
) -> Result<usize, Refusal>
    ensures { result ≡ end_of ((ordered 0 (content_format objects) (λ c. c.header.frame + 1) count).reads bytes.now start) }
{
    let mut at = start;
    let mut least = 0;
    for _ in 0..count {
        let (content, next) = content_at(bytes, at, objects, least)?;
        least = u64::from(content.header().frame) + 1;
        at = next;
    }
    Ok(at)
}

/// The contents of frames, in rising order of the frames.
#[derive(Drop)]
pub struct Contents<'a> {
    pub(crate) bytes: &'a [u8],
    pub(crate) at: usize,
    pub(crate) objects: u32,
    pub(crate) least: u64,
    pub(crate) left: u32,
}

impl<'a> Model for Contents<'a> {
    ghost use Rattle.std.specs.Prelude.{◌≡◌, List, true, is_ok, ◌+◌};
    ghost use Rattle.model.specs.Images.Format.{many_read, values_of};
    ghost use Rattle.model.specs.Images.Image.{ImageContent, content_format};

    ghost Value = { List ImageContent };

    ghost view = { λ r. values_of (many_read (content_format r.objects) (λ c. c.header.frame + 1) r.least r.left r.bytes.now r.at) };

    ghost invariant = { λ r. is_ok (many_read (content_format r.objects) (λ c. c.header.frame + 1) r.least r.left r.bytes.now r.at) ≡ true };
}

impl<'a> Iterator for Contents<'a> {
    type Item = ContentRef<'a>;

    ghost next_gives = { YieldsFirst (λ s. s) };

    ghost remaining = { item_count (λ s. s) };

    fn next(&mut self) -> Option<ContentRef<'a>> {
        if self.left == 0 {
            return None;
        }
        match content_at(self.bytes, self.at, self.objects, self.least) {
            Ok((content, next)) => {
                self.least = u64::from(content.header().frame) + 1;
                self.at = next;
                self.left -= 1;
                Some(content)
            }
            Err(_) => unreachable!(),
        }
    }
}
