//! Tests of long texts.

use crate::texts::fault_of;
use box_cert::{CERT_LIMIT, CertFault, CertRule, read_cert};
use box_core::Evals;
use box_tests::Ladder;
use cert_check::{Checked, check};
use std::alloc::{AllocError, Global};
use std::test::Fail;

// The first lines of a certificate, which claims that nothing passes, and then `count` bytes `s`.
fn long_line(alloc: Global, count: u32) -> Result<Vec<u8>, AllocError> {
    let mut text = Vec::new(alloc);
    text.extend_from_slice(b"dye-cert 1\nnone\nundecided 0\n")?;
    for _ in 0..count {
        text.push(b's')?;
    }
    Ok(text)
}

#[test]
fn refuses_a_long_line(rt: HostRuntime) -> Result<(), Fail> {
    let mut text = long_line(rt.alloc(), 10_000_000)?;
    for (end, rule) in [("", CertRule::Missing), ("\n", CertRule::BadLine)] {
        text.extend_from_slice(end.as_bytes())?;
        let fault = fault_of(rt.alloc(), text.as_slice())?;
        assert_eq!(rt; fault, Some(CertFault { line: 4, rule }));
    }
    Ok(())
}

// A certificate with a floor of 0, and a tree in which each split separates one recipe.
fn deep_tree(alloc: Global) -> Result<String, AllocError> {
    let mut text = format!(in alloc; "dye-cert 1\nfloor 0\nundecided 0\n")?;
    for i in 0..4000u32 {
        write!(text, "s 1 {}\n", 3999 - i)?;
    }
    for _ in 0..4001 {
        text.push_str("d\n")?;
    }
    Ok(text)
}

#[test]
fn accepts_a_deep_tree(rt: HostRuntime) -> Result<(), Fail> {
    let text = deep_tree(rt.alloc())?;
    if text.len() as u64 > CERT_LIMIT {
        return Ok(());
    }
    let cert = read_cert(rt.alloc(), text.as_bytes(), 1)?;
    assert_eq!(rt; cert.lines.as_slice().len(), 8001);
    let land = Ladder {
        most: 4000,
        first: 0,
        last: 4000,
    };
    let checked = check(rt.alloc(), &land, &cert, &mut Evals::default())?;
    assert_eq!(rt; checked, Checked::Accepted);
    Ok(())
}
