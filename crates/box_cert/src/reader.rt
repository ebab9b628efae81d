//! The lines of a text that comes in pieces.

ghost use Rattle.std.specs.Prelude.{◌≡◌, ◌+◌, ◌≤◌, ◌++◌, ◌∷◌, [], IfOk, ℕ, List, length, None, take};
ghost use Rattle.box_cert.specs.Spelling.{content};
ghost use Rattle.box_cert.specs.Feeding.{IsReader, Reads, reader_gives, reader_size};
ghost use Rattle.box_cert.specs.Lines.{cut_at};
ghost use Rattle.box_cert.specs.Reading.{Gives};
ghost use Rattle.box_cert.specs.Text.{IsCertFor, cert_of};

use crate::draft::Draft;
use crate::fault::CertError;
use crate::number::{cut_at, put_bytes};
use arrayvec::ArrayVec;
use box_core::Cert;
use std::alloc::Global;

/// The lines that have come, and the beginning of the line that has not ended.
#[derive(Drop)]
pub(crate) struct Reader {
    draft: Draft,
    /// The first 80 bytes of the line. No line of 80 bytes or more has a spelling.
    line: ArrayVec<u8, 80>,
}

/// Appends the bytes as far as they fit.
fn put_fitting(bytes: &[u8], into: &mut ArrayVec<u8, 80>)
    ensures { into.new.items ≡ take 80 (into.old.items ++ bytes.now) }
{
    let room = 80 - into.len();
    let size = room.min(bytes.len());
    put_bytes(&bytes[..size], into);
}

impl Reader {
    /// A reader of a certificate for recipes of `dims` dyes, before its first byte.
    pub(crate) fn new(alloc: Global, dims: usize) -> Reader
        requires some { 1 ≤ dims }
        requires few { dims ≤ 12 }
        ensures reader { IsReader result }
        ensures dims { result.draft.dims ≡ dims }
        ensures size { reader_size result ≡ 2 }
        ensures gives { (text : List ℕ) → reader_gives result text ≡ cert_of dims text }
    {
        Reader {
            draft: Draft::new(alloc, dims),
            line: ArrayVec::new(),
        }
    }

    /// Takes the rest of the line, and its line feed.
    fn end_line(&mut self, rest: &[u8]) -> Result<(), CertError>
        requires reader { IsReader self.old }
        requires one { cut_at 10 rest.now ≡ None }
        requires short { reader_size self.old + length rest.now ≤ 64000001 }
        ensures { Reads self.old (rest.now ++ 10 ∷ []) result self.new }
    {
        put_fitting(rest, &mut self.line);
        match self.draft.take(&self.line) {
            Ok(()) => {
                self.line.clear();
                Ok(())
            }
            Err(e) => Err(e),
        }
    }

    /// Takes bytes of the line, before others or the end of the text.
    fn begin_line(&mut self, bytes: &[u8]) -> Result<(), CertError>
        requires reader { IsReader self.old }
        requires one { cut_at 10 bytes.now ≡ None }
        ensures { Reads self.old bytes.now result self.new }
    {
        put_fitting(bytes, &mut self.line);
        if self.draft.is_whole() && !self.line.is_empty() {
            return Err(self.draft.left());
        }
        Ok(())
    }

    /// Takes the next bytes of the text.
    pub(crate) fn take(&mut self, piece: &[u8]) -> Result<(), CertError>
        requires reader { IsReader self.old }
        requires short { reader_size self.old + length piece.now ≤ 64000002 }
        ensures { Reads self.old piece.now result self.new }
    {
        let mut rest = piece;
        while let Some((line, tail)) = cut_at(b'\n', rest) {
            match self.end_line(line) {
                Ok(()) => rest = tail,
                Err(e) => return Err(e),
            }
        }
        self.begin_line(rest)
    }

    /// The certificate, where the text ends here.
    pub(crate) fn finish(self) -> Result<Cert, CertError>
        requires { IsReader self }
        ensures is { Gives (λ cert. content cert) result (reader_gives self []) }
        ensures fits { IfOk result (λ cert. IsCertFor self.draft.dims (content cert)) }
    {
        self.draft.finish()
    }
}
