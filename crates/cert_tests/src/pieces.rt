//! Tests of texts that come in pieces.

use box_cert::{CertError, CertFault, CertFeed, CertRule, TakeCertError, take_cert, write_cert};
use box_core::Cert;
use shelf_io::MemShelf;
use std::alloc::{AllocError, Global};
use std::test::Fail;

// The certificate of a match of two dyes.
const MATCH_CERT: &str = "dye-cert 1\nmatch 0 1\nundecided 0\ns 1 0\ns 2 0\nf 1\np\nd\n";

// Feeds a piece for which there is room.
fn give(feed: &mut CertFeed, piece: &[u8]) -> Result<(), CertError> {
    if piece.len() as u64 > feed.room() {
        return Err(CertError::Memory);
    }
    feed.feed(piece)
}

// Feeds a text byte by byte.
fn by_bytes(alloc: Global, text: &[u8]) -> Result<Cert, CertError> {
    let Ok(mut feed) = CertFeed::start(alloc, 2) else {
        return Err(CertError::Memory);
    };
    for byte in text {
        let _early = give(&mut feed, &[*byte]);
    }
    feed.finish()
}

// The text of a certificate.
fn is_text_of(alloc: Global, cert: &Cert, text: &str) -> Result<bool, AllocError> {
    let mut shelf = MemShelf::empty(alloc, 200, 1)?;
    let _written = write_cert(cert, &mut shelf, "cert");
    Ok(shelf.file("cert") == Some(text.as_bytes()))
}

#[test]
fn reads_bytes_one_by_one(rt: HostRuntime) -> Result<(), Fail> {
    let cert = by_bytes(rt.alloc(), MATCH_CERT.as_bytes())?;
    assert!(rt; is_text_of(rt.alloc(), &cert, MATCH_CERT)?);
    Ok(())
}

// The faults that are reported for two pieces of a text, and at the end of the text.
fn faults_of(
    alloc: Global,
    first: &str,
    second: &str,
) -> Result<(Option<CertFault>, Option<CertFault>, Option<CertFault>), Fail> {
    let mut feed = CertFeed::start(alloc, 2)?;
    let early = fault_in(give(&mut feed, first.as_bytes()))?;
    let late = fault_in(give(&mut feed, second.as_bytes()))?;
    Ok((early, late, fault_in(feed.finish())?))
}

// The fault of a result.
fn fault_in<T: Drop>(read: Result<T, CertError>) -> Result<Option<CertFault>, CertError> {
    match read {
        Ok(_) => Ok(None),
        Err(CertError::Fault(fault)) => Ok(Some(fault)),
        Err(CertError::Memory) => Err(CertError::Memory),
    }
}

#[test]
fn answers_the_same_fault_again(rt: HostRuntime) -> Result<(), Fail> {
    for (first, second, line, rule) in [
        ("dye-cert 2\n", "none\n", 1, CertRule::BadHeader),
        ("dye-cert 1\nnone\nlisted 0\n", "d\n", 3, CertRule::BadClaim),
        (
            "dye-cert 1\nnone\nundecided 0\nq\n",
            "d\n",
            4,
            CertRule::BadLine,
        ),
        (
            "dye-cert 1\nnone\nundecided 0\nd\nd",
            "\n",
            5,
            CertRule::Left,
        ),
    ] {
        let fault = Some(CertFault { line, rule });
        let faults = faults_of(rt.alloc(), first, second)?;
        assert_eq!(rt; faults, (fault, fault, fault), "{first}");
    }
    Ok(())
}

#[test]
fn waits_for_the_end_of_a_line(rt: HostRuntime) -> Result<(), Fail> {
    let long = "dye-cert 1\nnone\nundecided 0\nsssssssssssssssssssssssssssssssssssssssss";
    let fault = Some(CertFault {
        line: 4,
        rule: CertRule::BadLine,
    });
    let missing = Some(CertFault {
        line: 4,
        rule: CertRule::Missing,
    });
    let more = "sssssssssssssssssssssssssssssssssssssssssssssssssssssssssssssssss";
    assert_eq!(rt; faults_of(rt.alloc(), long, more)?, (None, None, missing));
    assert_eq!(rt; faults_of(rt.alloc(), long, "\nd\n")?, (None, fault, fault));
    Ok(())
}

// The result of `take_cert` over a shelf that gives a byte at a time, as a word.
fn word(read: &Result<Cert, TakeCertError>) -> &str {
    match read {
        Ok(_) => "cert",
        Err(TakeCertError::Fault) => "fault",
        Err(TakeCertError::TooLong) => "too long",
        Err(TakeCertError::Grammar(_)) => "grammar",
        Err(TakeCertError::Memory) => "memory",
    }
}

#[test]
fn takes_a_byte_at_a_time(rt: HostRuntime) -> Result<(), Fail> {
    let bad = "dye-cert 1\nnone\nundecided 0\nq\nd\n";
    let mut shelf = MemShelf::empty(rt.alloc(), 0, 0)?;
    shelf.put_file("good", MATCH_CERT.as_bytes())?;
    shelf.put_file("bad", bad.as_bytes())?;
    shelf.read_most(1);
    let cert = take_cert(rt.alloc(), &mut shelf, "good", 2)?;
    assert!(rt; is_text_of(rt.alloc(), &cert, MATCH_CERT)?);
    let read = take_cert(rt.alloc(), &mut shelf, "bad", 2);
    let fault = CertFault {
        line: 4,
        rule: CertRule::BadLine,
    };
    assert!(rt; matches!(&read, Err(TakeCertError::Grammar(f)) if *f == fault));
    // The file was read to its end, past its fault.
    assert_eq!(rt; shelf.handed("bad"), bad.len() as u64);
    let lost = take_cert(rt.alloc(), &mut shelf, "lost", 2);
    assert_eq!(rt; word(&lost), "fault");
    Ok(())
}

// A read that fails after a fault of grammar comes before this fault.
#[test]
fn puts_a_failed_read_before_a_fault(rt: HostRuntime) -> Result<(), Fail> {
    let mut shelf = MemShelf::empty(rt.alloc(), 0, 0)?;
    shelf.put_file("bad", b"\n\n".as_slice())?;
    shelf.read_most(1);
    shelf.fail_at(2)?;
    let read = take_cert(rt.alloc(), &mut shelf, "bad", 2);
    assert_eq!(rt; word(&read), "fault");
    Ok(())
}
