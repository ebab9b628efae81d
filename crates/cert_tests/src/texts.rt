//! Tests of whole texts.

use box_cert::{CERT_LIMIT, CertError, CertFault, CertRule, read_cert, write_cert};
use box_core::{Cert, CertLine, Claim};
use shelf_io::{MemShelf, Shelf};
use std::alloc::{AllocError, Global};
use std::test::Fail;

// The certificate that a text spells, for recipes of two dyes.
fn read(alloc: Global, text: &[u8]) -> Result<Cert, CertError> {
    if text.len() as u64 > CERT_LIMIT {
        return Err(CertError::Memory);
    }
    read_cert(alloc, text, 2)
}

// The first fault of a text, if it has one.
pub(crate) fn fault_of(alloc: Global, text: &[u8]) -> Result<Option<CertFault>, CertError> {
    match read(alloc, text) {
        Ok(_) => Ok(None),
        Err(CertError::Fault(fault)) => Ok(Some(fault)),
        Err(CertError::Memory) => Err(CertError::Memory),
    }
}

// The text of the header and these lines.
fn with_header(alloc: Global, lines: &str) -> Result<String, AllocError> {
    format!(in alloc; "dye-cert 1\n{lines}")
}

#[test]
fn refuses_headers(rt: HostRuntime) -> Result<(), Fail> {
    for (text, line, rule) in [
        (b"".as_slice(), 1, CertRule::Missing),
        (b"dye-cert 1".as_slice(), 1, CertRule::Missing),
        (b"\n".as_slice(), 1, CertRule::BadHeader),
        (b"dye-cert 2\n".as_slice(), 1, CertRule::BadHeader),
        (b"dye-cert 01\n".as_slice(), 1, CertRule::BadHeader),
        (b"dye-cert  1\n".as_slice(), 1, CertRule::BadHeader),
        (b"dye-cert 1 \n".as_slice(), 1, CertRule::BadHeader),
        (b"dye-cert 1\r\n".as_slice(), 1, CertRule::BadHeader),
        (
            b"\xef\xbb\xbfdye-cert 1\n".as_slice(),
            1,
            CertRule::BadHeader,
        ),
        (b"dye-cert 1\nnone\xff\n".as_slice(), 2, CertRule::BadClaim),
        (
            b"dye-cert 1\nnone\nundecided 0\nd\n\x00".as_slice(),
            5,
            CertRule::Left,
        ),
    ] {
        let fault = fault_of(rt.alloc(), text)?;
        assert_eq!(rt; fault, Some(CertFault { line, rule }));
    }
    Ok(())
}

#[test]
fn refuses_lines(rt: HostRuntime) -> Result<(), Fail> {
    for (lines, line, rule) in [
        ("", 2, CertRule::Missing),
        ("none", 2, CertRule::Missing),
        ("none \n", 2, CertRule::BadClaim),
        ("None\n", 2, CertRule::BadClaim),
        ("match\n", 2, CertRule::BadClaim),
        ("match \n", 2, CertRule::BadClaim),
        ("match 0\n", 2, CertRule::BadClaim),
        ("match 0 1 2\n", 2, CertRule::BadClaim),
        ("match 01 1\nundecided 0\nd\n", 2, CertRule::BadClaim),
        ("match  0 1\n", 2, CertRule::BadClaim),
        ("match 0 4001\n", 2, CertRule::BadClaim),
        ("match 0 18446744073709551616\n", 2, CertRule::BadClaim),
        ("floor\n", 2, CertRule::BadClaim),
        ("floor -1\n", 2, CertRule::BadClaim),
        ("floor 007\n", 2, CertRule::BadClaim),
        ("floor 1000000000000001\n", 2, CertRule::BadClaim),
        ("floor 18446744073709551616\n", 2, CertRule::BadClaim),
        ("none\n", 3, CertRule::Missing),
        ("none\nundecided\n", 3, CertRule::BadClaim),
        ("none\nundecided 00\n", 3, CertRule::BadClaim),
        ("none\nundecided 1000001\n", 3, CertRule::BadClaim),
        (
            "none\nundecided 18446744073709551616\n",
            3,
            CertRule::BadClaim,
        ),
        ("none\nundecided 1000000\n", 4, CertRule::Missing),
        ("none\nundecided 2\n0 0\n", 5, CertRule::Missing),
        ("none\nundecided 2\n0 0\nd\n", 5, CertRule::BadLine),
        ("none\nundecided 1\n0\nd\n", 4, CertRule::BadLine),
        ("none\nundecided 1\n0 0\n0 0\nd\n", 5, CertRule::BadLine),
        ("none\nundecided 0\n0 0\nd\n", 4, CertRule::BadLine),
        ("none\nundecided 0\n", 4, CertRule::Missing),
        ("none\nundecided 0\nd", 4, CertRule::Missing),
        ("none\nundecided 0\n\n", 4, CertRule::BadLine),
        ("none\nundecided 0\nx 6\n", 4, CertRule::BadLine),
        ("none\nundecided 0\ns 1 0\nd\n", 6, CertRule::Missing),
        ("none\nundecided 0\ns 1 0\nd\nd", 6, CertRule::Missing),
        (
            "none\nundecided 0\ns 1 0\nd\ns 2 0\nd\n",
            8,
            CertRule::Missing,
        ),
        ("none\nundecided 0\ns 1 0\nd\nd\nd\n", 7, CertRule::Left),
        ("none\nundecided 0\nd\n\n", 5, CertRule::Left),
        ("none\nundecided 0\nd\n ", 5, CertRule::Left),
    ] {
        let text = with_header(rt.alloc(), lines)?;
        let fault = fault_of(rt.alloc(), text.as_bytes())?;
        assert_eq!(rt; fault, Some(CertFault { line, rule }), "{lines}");
    }
    Ok(())
}

#[test]
fn writes_what_it_reads(rt: HostRuntime) -> Result<(), Fail> {
    for lines in [
        "none\nundecided 0\nx 5\n",
        "floor 0\nundecided 0\nd\n",
        "floor 1000000000000000\nundecided 0\nf 4\n",
        "match 0 1\nundecided 0\ns 1 0\ns 2 0\nf 1\np\nd\n",
        "none\nundecided 2\n0 0\n4000 4000\ns 12 4000\nu\nx 1\n",
    ] {
        let text = with_header(rt.alloc(), lines)?;
        let cert = read(rt.alloc(), text.as_bytes())?;
        let mut shelf = MemShelf::empty(rt.alloc(), 200, 1)?;
        assert_eq!(rt; write_cert(&cert, &mut shelf, "cert"), Ok(()), "{lines}");
        assert_eq!(rt; shelf.file("cert"), Some(text.as_bytes()), "{lines}");
    }
    Ok(())
}

#[test]
fn reads_each_part(rt: HostRuntime) -> Result<(), Fail> {
    let lines = "match 7 10\nundecided 1\n4000 0\ns 2 10\nx 5\ns 1 0\nf 4\np\n";
    let cert = read(rt.alloc(), with_header(rt.alloc(), lines)?.as_bytes())?;
    assert!(rt;
        matches!(&cert.claim, Claim::Match(steps) if steps.as_slice() == [7, 10].as_slice())
    );
    assert_eq!(rt; cert.undecided.as_slice().len(), 1);
    for steps in cert.undecided.as_slice() {
        assert_eq!(rt; steps.as_slice(), [4000, 0].as_slice());
    }
    assert_eq!(rt;
        cert.lines.as_slice(),
        [
            CertLine::Split { dye: 2, mid: 10 },
            CertLine::Limit(5),
            CertLine::Split { dye: 1, mid: 0 },
            CertLine::Fail(4),
            CertLine::Pass,
        ]
        .as_slice()
    );
    Ok(())
}
