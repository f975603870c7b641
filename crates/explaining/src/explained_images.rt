//! Images whose programs are explained.

ghost use Rattle.model.specs.Acceptance.Accepted.{IsWellFormed};

use image::ImageRef;
use source_gaps::Text;
use source_texts::SourceText;
use std::alloc::Global;

/// A well-formed image whose programs are explained, with its text and what that declares.
#[derive(Clone, Copy)]
pub(crate) struct ExplainedImage<'a, 's, 'm, 'f, 't, 'x> {
    pub(crate) image: &'s ImageRef<'a>,
    pub(crate) source: &'m SourceText<'x>,
    pub(crate) text: Text<'f, 't>,
    pub(crate) alloc: Global,
    ghost formed: { IsWellFormed image.now },
}
