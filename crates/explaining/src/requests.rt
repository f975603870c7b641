//! What is wrong with a text: with its lines, its declarations, and each of its threads.

use crate::builds::{Build, build_text};
use crate::explained_images::ExplainedImage;
use crate::faults::ExplainFault;
use crate::faulty_lines::{are_in_threads, faults_of, has_fault};
use crate::programs::{Subject, point_of};
use crate::texts::{Block, blocks_of, thread_alone};
use asm::SourceFault;
use certified_texts::bare_text;
use certifying::{ThreadFindings, Unfit, findings_in};
use image::{ImageRef, read};
use model::{Point, Refusal};
use source_gaps::{Text, report_fault, report_item};
use source_texts::{SourceText, TextFault, with_budgets};
use std::alloc::{AllocError, Global};
use verify::verify;
use wellformed::well_formed;

/// Which certificates are taken.
#[derive(Clone, Copy, Debug, PartialEq, Eq)]
pub enum Certificates {
    /// Those in the text; for threads with the budget `auto` or without a record those that are found.
    Written,
    /// Those that are found, for all threads.
    Found,
}

/// Why an image is refused: for a declaration, for a point of a program, or for what is found of its threads.
#[derive(Clone, Copy)]
enum Cause<'k> {
    Item(Refusal),
    Point { at: Point, refusal: Refusal },
    Findings(&'k [ThreadFindings]),
}

/// The cause that a refusal names.
fn cause_of<'k>(refusal: Refusal) -> Cause<'k> {
    match point_of(refusal) {
        Some(at) => Cause::Point { at, refusal },
        None => Cause::Item(refusal),
    }
}

/// Why memory was refused, or what else an image is refused for.
fn refusal_of(unfit: Unfit) -> Result<Refusal, ExplainFault> {
    match unfit {
        Unfit::Refused(Refusal::OutOfMemory) | Unfit::OutOfMemory => Err(ExplainFault::OutOfMemory),
        Unfit::Refused(refusal) => Ok(refusal),
        Unfit::Thread { .. } => Err(ExplainFault::Disagreement),
    }
}

/// Whether a refusal is one of a thread, so that other threads can be looked at.
fn is_of_thread(refusal: Refusal) -> bool {
    matches!(
        refusal,
        Refusal::SharedCSpace { .. }
            | Refusal::SharedVSpace { .. }
            | Refusal::BadThread { .. }
            | Refusal::BadBuffer { .. }
    )
}

/// Adds a report, unless it is there already.
fn add_new(to: &mut String, report: &str) -> Result<(), AllocError> {
    if to.contains(report) {
        Ok(())
    } else {
        to.push_str(report)
    }
}

/// A text that is explained, and how.
#[derive(Clone, Copy)]
pub(crate) struct Request<'f, 't> {
    pub(crate) alloc: Global,
    pub(crate) text: Text<'f, 't>,
    pub(crate) certificates: Certificates,
}

impl ExplainedImage<'_, '_, '_, '_, '_, '_> {
    /// Reports what is found of the image's threads.
    fn report_threads(
        &self,
        to: &mut String,
        found: &[ThreadFindings],
    ) -> Result<(), ExplainFault> {
        let mut number = 0u32;
        for findings in found {
            self.report_thread(to, number, Subject::Found(findings))?;
            number = number.saturating_add(1);
        }
        Ok(())
    }

    /// Reports why the image is refused.
    fn report_programs(&self, to: &mut String, cause: Cause<'_>) -> Result<(), ExplainFault> {
        match cause {
            Cause::Item(_) => Err(ExplainFault::Disagreement),
            Cause::Point { at, refusal } => {
                let point = at.point;
                self.report_thread(to, at.thread, Subject::Refused { point, refusal })
            }
            Cause::Findings(found) => self.report_threads(to, found),
        }
    }
}

impl Request<'_, '_> {
    /// Reports why an image is refused for its programs.
    fn report_formed(
        &self,
        to: &mut String,
        source: &SourceText<'_>,
        image: &ImageRef<'_>,
        cause: Cause<'_>,
    ) -> Result<(), ExplainFault> {
        match well_formed(self.alloc, image) {
            Ok(()) => {
                let explained = ExplainedImage {
                    image,
                    source,
                    text: self.text,
                    alloc: self.alloc,
                };
                explained.report_programs(to, cause)
            }
            Err(Refusal::OutOfMemory) => Err(ExplainFault::OutOfMemory),
            Err(_) => Err(ExplainFault::Disagreement),
        }
    }

    /// Reports why an image is refused.
    fn report_image(
        &self,
        to: &mut String,
        source: &SourceText<'_>,
        image: &ImageRef<'_>,
        cause: Cause<'_>,
    ) -> Result<(), ExplainFault> {
        match cause {
            Cause::Item(refusal) => {
                Ok(report_item(self.alloc, to, self.text, source, image, refusal)?)
            }
            Cause::Point { .. } | Cause::Findings(_) => {
                self.report_formed(to, source, image, cause)
            }
        }
    }

    /// Reports why an image is refused, by its bytes, with what its text declares.
    fn report_declared(
        &self,
        to: &mut String,
        source: &SourceText<'_>,
        bytes: &[u8],
        cause: Cause<'_>,
    ) -> Result<(), ExplainFault> {
        match read(bytes) {
            Ok(image) => self.report_image(to, source, &image, cause),
            Err(_) => Err(ExplainFault::Disagreement),
        }
    }

    /// Reports why the image of the text is refused. What is assembled may differ from the text in certificates and budgets.
    fn report_cause(
        &self,
        to: &mut String,
        assembled: &str,
        bytes: &[u8],
        cause: Cause<'_>,
    ) -> Result<(), ExplainFault> {
        match source_texts::read(self.alloc, assembled) {
            Ok(source) => self.report_declared(to, &source, bytes, cause),
            Err(TextFault::OutOfMemory) => Err(ExplainFault::OutOfMemory),
            Err(TextFault::Line(_)) => Err(ExplainFault::Disagreement),
        }
    }

    /// Reports a line that makes no image of the text.
    fn report_fault(&self, to: &mut String, fault: SourceFault) -> Result<(), ExplainFault> {
        Ok(report_fault(self.alloc, to, self.text, fault)?)
    }

    /// Reports why the verifier refuses the image of the text, if it does.
    fn report_verdict(&self, to: &mut String, bytes: &[u8]) -> Result<(), ExplainFault> {
        match verify(self.alloc, bytes).err() {
            None => Ok(()),
            Some(Refusal::OutOfMemory) => Err(ExplainFault::OutOfMemory),
            Some(refusal) => self.report_cause(to, self.text.content, bytes, cause_of(refusal)),
        }
    }

    /// Reports why the image of the text is refused, if it is, with the certificates in the text.
    fn report_written(&self, to: &mut String) -> Result<(), ExplainFault> {
        match build_text(self.alloc, self.text.content)? {
            Build::Image(bytes) => self.report_verdict(to, &bytes),
            Build::Fault(fault) => self.report_fault(to, fault),
        }
    }

    /// Reports what is found wrong with the threads of an image without certificates.
    fn report_found(&self, to: &mut String, bare: &str, bytes: &[u8]) -> Result<(), ExplainFault> {
        match findings_in(self.alloc, bytes) {
            Ok(found) => self.report_cause(to, bare, bytes, Cause::Findings(&found)),
            Err(unfit) => {
                let refusal = refusal_of(unfit)?;
                self.report_cause(to, bare, bytes, cause_of(refusal))
            }
        }
    }

    /// Reports what is found wrong with the threads of the text, of which this is left without its certificates.
    fn report_bare(&self, to: &mut String, bare: &str) -> Result<(), ExplainFault> {
        match build_text(self.alloc, bare)? {
            Build::Image(bytes) => self.report_found(to, bare, &bytes),
            Build::Fault(fault) => self.report_fault(to, fault),
        }
    }

    /// Reports why no certificate is found for the threads of the text, if that is so.
    fn report_uncertified(&self, to: &mut String) -> Result<(), ExplainFault> {
        let bare = bare_text(self.alloc, self.text.content)?;
        match std::str::from_utf8(&bare) {
            Ok(bare) => self.report_bare(to, bare),
            Err(_) => Err(ExplainFault::Disagreement),
        }
    }

    /// What is wrong with the text, which has one thread alone.
    fn thread_report(&self, wants_certificate: bool) -> Result<String, ExplainFault> {
        let mut report = String::new(self.alloc);
        if wants_certificate {
            self.report_uncertified(&mut report)?;
        } else {
            self.report_written(&mut report)?;
        }
        Ok(report)
    }

    /// What is wrong with a text in place of this one, which has one of its threads alone.
    fn block_report(&self, alone: &str, block: &Block) -> Result<String, ExplainFault> {
        let request = Request {
            alloc: self.alloc,
            text: Text {
                file: self.text.file,
                content: alone,
            },
            certificates: self.certificates,
        };
        let is_found = self.certificates == Certificates::Found;
        request.thread_report(is_found || block.wants_certificate())
    }

    /// Reports what is wrong with one thread of the text, unless that is reported already.
    fn report_block(
        &self,
        to: &mut String,
        blocks: &[Block],
        block: &Block,
    ) -> Result<(), ExplainFault> {
        let alone = thread_alone(self.alloc, self.text.content, blocks, block)?;
        let report = self.block_report(&alone, block)?;
        Ok(add_new(to, &report)?)
    }

    /// Reports of each thread what is wrong with it, but for those with these lines and those without an end.
    fn report_blocks(
        &self,
        to: &mut String,
        blocks: &[Block],
        faults: &[SourceFault],
    ) -> Result<(), ExplainFault> {
        for block in blocks {
            if !has_fault(block, faults) && !block.is_open() {
                self.report_block(to, blocks, block)?;
            }
        }
        Ok(())
    }

    /// Reports each of some lines that make no image of the text.
    fn report_faults(&self, to: &mut String, faults: &[SourceFault]) -> Result<(), ExplainFault> {
        for fault in faults {
            self.report_fault(to, *fault)?;
        }
        Ok(())
    }

    /// Reports which lines make no image of the text, and then of the other threads what is wrong with them.
    fn report_lines(
        &self,
        to: &mut String,
        blocks: &[Block],
        faults: &[SourceFault],
    ) -> Result<(), ExplainFault> {
        self.report_faults(to, faults)?;
        if are_in_threads(blocks, faults) {
            self.report_blocks(to, blocks, faults)?;
        }
        Ok(())
    }

    /// Reports the first rule on its declarations that the image of the text breaks, and of its threads what is wrong with them where
    /// they can be looked at.
    fn report_refusal(
        &self,
        to: &mut String,
        blocks: &[Block],
        assembled: &str,
        bytes: &[u8],
        refusal: Refusal,
    ) -> Result<(), ExplainFault> {
        self.report_cause(to, assembled, bytes, Cause::Item(refusal))?;
        if is_of_thread(refusal) {
            self.report_blocks(to, blocks, &[])?;
        }
        Ok(())
    }

    /// The rule on its declarations that an image breaks, if it breaks one.
    fn declared_refusal(&self, bytes: &[u8]) -> Result<Option<Refusal>, ExplainFault> {
        match read(bytes) {
            Ok(image) => match well_formed(self.alloc, &image).err() {
                Some(Refusal::OutOfMemory) => Err(ExplainFault::OutOfMemory),
                refusal => Ok(refusal),
            },
            Err(_) => Err(ExplainFault::Disagreement),
        }
    }

    /// Reports what is wrong with the text, which makes an image if its budgets are given.
    fn report_built(
        &self,
        to: &mut String,
        blocks: &[Block],
        assembled: &str,
        bytes: &[u8],
    ) -> Result<(), ExplainFault> {
        match self.declared_refusal(bytes)? {
            None => self.report_blocks(to, blocks, &[]),
            Some(refusal) => self.report_refusal(to, blocks, assembled, bytes, refusal),
        }
    }

    /// Reports what is wrong with the text, of which this is assembled, with the threads that it has.
    fn report_threads_of(
        &self,
        to: &mut String,
        blocks: &[Block],
        assembled: &str,
    ) -> Result<(), ExplainFault> {
        match build_text(self.alloc, assembled)? {
            Build::Image(bytes) => self.report_built(to, blocks, assembled, &bytes),
            Build::Fault(fault) => {
                let faults = faults_of(self.alloc, assembled, fault)?;
                self.report_lines(to, blocks, &faults)
            }
        }
    }

    /// Reports what is wrong with the text, of which this is assembled.
    fn report_assembled(&self, to: &mut String, assembled: &str) -> Result<(), ExplainFault> {
        let blocks = blocks_of(self.alloc, self.text.content)?;
        self.report_threads_of(to, &blocks, assembled)
    }

    /// Reports what is wrong with the text, with the certificates in it.
    fn report_as_written(&self, to: &mut String) -> Result<(), ExplainFault> {
        let budgets = with_budgets(self.alloc, self.text.content)?;
        self.report_assembled(to, budgets.text.as_str())
    }

    /// Reports what is wrong with the text without the certificates in it.
    fn report_without(&self, to: &mut String) -> Result<(), ExplainFault> {
        let bare = bare_text(self.alloc, self.text.content)?;
        match std::str::from_utf8(&bare) {
            Ok(bare) => self.report_assembled(to, bare),
            Err(_) => Err(ExplainFault::Disagreement),
        }
    }

    /// Reports what is wrong with the text.
    pub(crate) fn report(&self, to: &mut String) -> Result<(), ExplainFault> {
        match self.certificates {
            Certificates::Written => self.report_as_written(to),
            Certificates::Found => self.report_without(to),
        }
    }
}
