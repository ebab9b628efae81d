//! Reading a certificate whose text comes in pieces.

ghost use Rattle.std.specs.Prelude.{◌≡◌, ◌+◌, ◌≤◌, [], Err, IfOk, Some, length};
ghost use Rattle.box_cert.specs.Feeding.{Feeds, HasFault, IsFresh, Tells, feed_gives};
ghost use Rattle.box_cert.specs.Reading.{Gives};
ghost use Rattle.box_cert.specs.Spelling.{content};
ghost use Rattle.box_cert.specs.Text.{IsCertFor};
ghost use Rattle.box_cert.specs.declared.read.TheConstants.{CERT_LIMIT};

use crate::fault::CertError;
use crate::read::CERT_LIMIT;
use crate::reader::Reader;
use box_core::Cert;
use std::alloc::{AllocError, Global};
use std::marker::Model;

/// A certificate of which the bytes so far are read.
///
/// The lines are kept, and of the line that has not ended at most 80 bytes.
#[derive(Drop)]
pub struct CertFeed {
    reader: Reader,
    dims: usize,
    taken: u64,
    failed: Option<CertError>,
}

impl Model for CertFeed {
    ghost use Rattle.std.specs.Prelude.{◌≤◌};
    ghost use Rattle.box_cert.specs.Feeding.{FeedState, KeepsReader};

    ghost Value = { FeedState };

    ghost view = { λ f. record {
      dims = f.dims;
      taken = f.taken;
      failed = f.failed;
      reader = f.reader;
    } };

    ghost invariant = { λ f. (f.taken ≤ 64000000) × KeepsReader f.dims f.taken f.failed f.reader };
}

impl CertFeed {
    /// A feed of a certificate for recipes of `dims` dyes, before its first piece.
    pub fn start(alloc: Global, dims: usize) -> Result<CertFeed, AllocError>
        requires some { 1 ≤ dims }
        requires few { dims ≤ 12 }
        ensures { IfOk result (IsFresh dims) }
    {
        Ok(CertFeed {
            reader: Reader::new(alloc, dims),
            dims,
            taken: 0,
            failed: None,
        })
    }

    /// How many more bytes may be fed.
    pub fn room(&self) -> u64
        ensures { self.now.taken + result ≡ CERT_LIMIT }
    {
        CERT_LIMIT - self.taken
    }

    /// Reads the next bytes. The result is the fault that the bytes so far have, if no bytes to come
    /// can mend it. After an error each later call gives that error.
    pub fn feed(&mut self, piece: &[u8]) -> Result<(), CertError>
        requires { self.old.taken + length piece.now ≤ CERT_LIMIT }
        ensures feeds { Feeds piece.now self.old self.new }
        ensures tells { Tells result self.new.failed }
        ensures fault { HasFault result (feed_gives self.new []) }
    {
        self.taken += piece.len() as u64;
        if let Some(e) = self.failed {
            return Err(e);
        }
        match self.reader.take(piece) {
            Ok(()) => Ok(()),
            Err(e) => {
                self.failed = Some(e);
                Err(e)
            }
        }
    }

    /// The certificate that the bytes spell, however they were cut into pieces, or their first fault.
    pub fn finish(self) -> Result<Cert, CertError>
        ensures exact { Gives (λ cert. content cert) result (feed_gives self []) }
        ensures fits { IfOk result (λ cert. IsCertFor self.dims (content cert)) }
        ensures stays { (e : CertError) → self.failed ≡ Some e → result ≡ Err e }
    {
        match self.failed {
            Some(e) => Err(e),
            None => self.reader.finish(),
        }
    }
}
