//! The agency at the other end of two files, and whether they are such as one can be spoken with by.
ghost use Rattle.std.specs.Prelude.{◌≡◌, IfOk, vec_len};

use crate::option::PipeFiles;
use crate::{print_fault, print_reason};
use agency_pipe::{Patient, PipeAgency, PipeSink, PipeSource, Unfit, unfit_files};
use parties::Nif;
use ports::NoMemory;
use report::{Detail, Ended};
use std::time::{SystemTime, UNIX_EPOCH};
use verify_link::Host;

/// The agency at the other end of two files, with a pause before a call that follows failed ones.
pub type Link<'a> = Patient<
    'a,
    HostRuntime,
    PipeAgency<PipeSource<'a, HostRuntime>, PipeSink<'a, HostRuntime>>,
>;

// The number of the first begin, the microseconds since 1970, which is below 2^53 until 2255. It rises from run to run: answers
// that an earlier run left are passed over. 0 where the clock can't be read.
fn first_number(rt: &HostRuntime) -> u64 {
    let Ok(now) = SystemTime::now(rt) else {
        return 0;
    };
    match now.duration_since(UNIX_EPOCH) {
        Ok(since) => u64::try_from(since.as_micros()).unwrap_or(0),
        Err(_) => 0,
    }
}

/// The agency that these files lead to. Nothing is opened yet.
pub fn agency_behind<'a>(
    rt: &'a HostRuntime,
    files: PipeFiles<'_>,
    issuer: Nif,
) -> Result<Link<'a>, NoMemory> {
    let alloc = rt.alloc();
    let source = PipeSource::at(rt, String::from_str(alloc, files.from)?);
    let sink = PipeSink::at(rt, String::from_str(alloc, files.to)?);
    let agency = PipeAgency::new(alloc, source, sink, issuer, Host::Real, first_number(rt))?;
    Ok(Patient::new(rt, agency))
}

/// This many of them, for the further files. They are never asked.
pub fn agencies_behind<'a>(
    rt: &'a HostRuntime,
    count: u16,
    files: PipeFiles<'_>,
    issuer: Nif,
) -> Result<Vec<Link<'a>>, NoMemory>
    ensures { IfOk result (λ spares. vec_len spares ≡ count) }
{
    let mut spares = Vec::new(rt.alloc());
    for made in 0..count {
        spares.push(agency_behind(rt, files, issuer)?)?;
    }
    Ok(spares)
}

// Says that no agency can be spoken with by these files.
fn print_unfit(rt: &HostRuntime, files: PipeFiles<'_>, unfit: Unfit) {
    print_fault(rt, &Detail::Usage);
    let path = match unfit {
        Unfit::To => files.to,
        Unfit::From => files.from,
        Unfit::Same => return print_reason(rt, "the agency", Some("TO and FROM are one file")),
    };
    let _ = eprintln!(rt; "verifactu: the agency: {path} is no FIFO");
}

/// The status where these files can't be an agency's, once that is said; None where they can. Neither is opened.
pub fn status_of_unfit(rt: &HostRuntime, files: Option<PipeFiles<'_>>) -> Option<u8> {
    let files = files?;
    let unfit = unfit_files(rt, files.to, files.from)?;
    print_unfit(rt, files, unfit);
    Some(Ended::of(Detail::Usage).status)
}
