//! The refusals of commands, and their texts.

ghost use Rattle.std.specs.Prelude.{◌≡◌, ◌≤◌, ◌+◌, ◌++◌, length};
ghost use Rattle.arrayvec.specs.ArrayVec.{array_vec_len};
ghost use Rattle.shelf_io.specs.Taking.{Puts};
ghost use Rattle.shade_report.specs.Refusals.{cert_text, fault_text, job_fault_text, refusal_text, refused_text, steps_text};

use crate::pieces::put_all;
use crate::rules::{cert_rule_name, job_rule_name, part_name, rule_name, why_name};
use crate::text::USAGE;
use arrayvec::ArrayVec;
use box_core::{CertFault, Why};
use itoa::Buffer;
use job_file::JobFault;
use price_grid::LimitNo;
use shelf_io::{Failed, Sink};
use spectral_tables::TableFault;

/// Why a command prints no report. A text in it is the name of a file, or a word of the command
/// line.
#[derive(Clone, Copy, Debug)]
pub enum Refusal<'a> {
    /// The words are none of the forms of a command.
    Usage,
    /// This file could not be read.
    Unreadable(&'a str),
    /// This file has more bytes than its limit.
    TooLong(&'a str),
    /// This curve file or weights file breaks a rule of tables.
    Table(&'a str, TableFault),
    /// This job file breaks a rule of jobs.
    Job(&'a str, JobFault),
    /// This file has no column of this name.
    NoColumn(&'a str, &'a str),
    /// The steps are no recipe of the grid, or are a recipe that breaks this limit.
    Steps(Option<LimitNo>),
    /// The certificate could not be written into this file.
    NotWritten(&'a str),
    /// The text of the certificate breaks a rule of its grammar.
    CertGrammar(CertFault),
    /// This line of the certificate, counted from 1, does not hold, for this reason.
    CertWrong(u32, Why),
}

/// Puts the text of a refusal into the sink. It allocates no memory, and fails only where a put
/// failed.
pub fn put_refusal<O: Sink>(out: &mut O, refusal: &Refusal) -> Result<(), Failed>
    ensures { Puts (refusal_text refusal.now) result (O.view out.old) (O.view out.new) }
{
    match *refusal {
        Refusal::Usage => put_all(out, &[USAGE.as_bytes()]),
        Refusal::Unreadable(name) => put_all(out, &[b"unreadable ", name.as_bytes(), b"\n"]),
        Refusal::TooLong(name) => put_all(out, &[b"refused ", name.as_bytes(), b" TooLong\n"]),
        Refusal::Table(name, fault) => put_refused(out, name, fault_text(fault).as_slice()),
        Refusal::Job(name, fault) => put_refused(out, name, job_fault_text(fault).as_slice()),
        Refusal::NoColumn(name, column) => put_all(
            out,
            &[
                b"refused ",
                name.as_bytes(),
                b" no column ",
                column.as_bytes(),
                b"\n",
            ],
        ),
        Refusal::Steps(limit) => put_steps(out, limit),
        Refusal::NotWritten(name) => put_all(out, &[b"not written ", name.as_bytes(), b"\n"]),
        Refusal::CertGrammar(fault) => put_cert(out, fault.line, cert_rule_name(fault.rule)),
        Refusal::CertWrong(line, why) => put_cert(out, line, why_name(why)),
    }
}

/// Appends a piece to a text.
fn push_all(text: &mut ArrayVec<u8, 128>, piece: &[u8])
    requires { array_vec_len text.old + length piece.now ≤ 128 }
    ensures is { text.new.items ≡ text.old.items ++ piece.now }
    ensures len { array_vec_len text.new ≡ array_vec_len text.old + length piece.now }
{
    text.try_extend_from_slice(piece).unwrap();
}

/// The cell and the rule of a table's fault.
fn fault_text(fault: TableFault) -> ArrayVec<u8, 128>
    ensures { result.items ≡ fault_text fault }
{
    let mut text = ArrayVec::new();
    push_all(&mut text, b"row ");
    push_all(&mut text, Buffer::new().format(fault.row).as_bytes());
    push_all(&mut text, b" column ");
    push_all(&mut text, Buffer::new().format(fault.column).as_bytes());
    push_all(&mut text, b" ");
    push_all(&mut text, rule_name(fault.rule).as_bytes());
    text
}

/// The part of the job, the numbers of the item and of its dyeing, and the rule of a job's fault.
fn job_fault_text(fault: JobFault) -> ArrayVec<u8, 128>
    ensures { result.items ≡ job_fault_text fault }
{
    let mut text = ArrayVec::new();
    push_all(&mut text, part_name(fault.part).as_bytes());
    push_all(&mut text, b" ");
    push_all(&mut text, Buffer::new().format(fault.item).as_bytes());
    push_all(&mut text, b" ");
    push_all(&mut text, Buffer::new().format(fault.sub).as_bytes());
    push_all(&mut text, b" ");
    push_all(&mut text, job_rule_name(fault.rule).as_bytes());
    text
}

/// Puts the refusal of a file, with the reason.
fn put_refused<O: Sink>(out: &mut O, name: &str, why: &[u8]) -> Result<(), Failed>
    ensures { Puts (refused_text name.now why.now) result (O.view out.old) (O.view out.new) }
{
    let Ok(()) = put_all(out, &[b"refused ", name.as_bytes(), b" "]) else {
        return Err(Failed);
    };
    put_all(out, &[why, b"\n"])
}

/// Puts the refusal of a word for steps.
fn put_steps<O: Sink>(out: &mut O, limit: Option<LimitNo>) -> Result<(), Failed>
    ensures { Puts (steps_text limit) result (O.view out.old) (O.view out.new) }
{
    match limit {
        None => put_all(out, &[b"steps refused\n"]),
        Some(LimitNo(number)) => {
            let mut buffer = Buffer::new();
            let digits = buffer.format(number).as_bytes();
            put_all(out, &[b"steps refused limit ", digits, b"\n"])
        }
    }
}

/// Puts the refusal of a certificate: the line, and the rule that it breaks or the reason why it
/// does not hold.
fn put_cert<O: Sink>(out: &mut O, line: u32, rule: &str) -> Result<(), Failed>
    ensures { Puts (cert_text line rule.now) result (O.view out.old) (O.view out.new) }
{
    let mut buffer = Buffer::new();
    let digits = buffer.format(line).as_bytes();
    put_all(
        out,
        &[
            b"certificate refused line ",
            digits,
            b" ",
            rule.as_bytes(),
            b"\n",
        ],
    )
}
