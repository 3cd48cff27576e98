//! `read_report`: the report of bytes, or their first faulty line.

ghost use Rattle.std.specs.Prelude.{MatchResult};
ghost use Rattle.spec_core.specs.Declarations.{IsDeclared};
ghost use Rattle.proof_script.specs.Texts.{IsReportText};
ghost use Rattle.report_reader.specs.Answers.{TellsFault};

use crate::claims::read_claim;
use crate::errors::ReportError;
use crate::first_lines::read_first_line;
use crate::headers::read_header;
use clause_core::Report;
use spec_core::Signature;
use std::alloc::Global;
use term_core::Seq;

/// The report whose text the bytes are. The names of symbols in it are the signature's. What its
/// claims say isn't tested, nor whether the specification has their goals.
pub fn read_report(alloc: Global, sig: &Signature, bytes: &[u8]) -> Result<Report, ReportError>
    requires { IsDeclared sig.now }
    ensures { MatchResult result (λ report. IsReportText sig.now bytes.now report)
        (λ e. TellsFault sig.now bytes.now e) }
{
    let (steps, mut lines) = read_header(bytes)?;
    let mut claims = Seq::new(alloc);
    loop {
        let (line, behind) = lines.next_line()?;
        if line == b"done".as_slice() {
            if behind.rest.is_empty() {
                return Ok(Report { steps, claims });
            }
            return Err(behind.fault());
        }
        let Some(first) = read_first_line(alloc, line)? else {
            return Err(lines.fault());
        };
        let (claim, next) = read_claim(alloc, sig, lines.read, first, behind)?;
        claims.push(claim)?;
        lines = next;
    }
}
