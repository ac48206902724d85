//! An agency over streams in memory. Lines as long as may be, and files that are no FIFOs, are shown by `.ci/fifos`.
use crate::sales::{CONSULTATION_9, OPENING_6, SUBMISSION, batch, nif, with_huella};
use agency_pipe::{
    Deaf, MOST_EARLIER, PipeAgency, PipeSink, PipeSource, Quiet, Unheard, may_cross_threads,
    unfit_files,
};
use agency_port::{Agency, AgencyFault, ReplyLine, Seen};
use agency_rules::Plan;
use batches::Huellas;
use ports::{MemSink, MemSource};
use record_fields::Line;
use std::alloc::Global;
use std::test::Fail;
use test_rows::holds;
use verify_link::Host;

type MemAgency = PipeAgency<MemSource, MemSink>;

const REPLY_7: &str = "{\"lines\":[[\"H\",\"correcto\",0]],\"n\":7,\"wait\":60}\n";

const BEGUN_6: &str = "{\"begun\":true,\"n\":6}\n";

const OPENING_8: &str =
    "\n{\"issuer\":\"89890001K\",\"n\":8,\"noted\":0,\"protocol\":2,\"t\":\"begin\"}\n";

const OPENING_10: &str =
    "\n{\"issuer\":\"89890001K\",\"n\":10,\"noted\":0,\"protocol\":2,\"t\":\"begin\"}\n";

const CONSULTATION_11: &str =
    "{\"huellas\":[\"0A0A0A0A0A0A0A0A0A0A0A0A0A0A0A0A0A0A0A0A0A0A0A0A0A0A0A0A0A0A0A0A\"],\"ids\":[[\"A-1\",\"01-01-2025\",\"alta\"]],\"n\":11,\"t\":\"consult\"}\n";

// An agency in a session without noted records, which reads these answers. The calls of these numbers fail.
fn agency(alloc: Global, answers: &str, read: u64, write: u64) -> Result<MemAgency, Fail> {
    let answers = with_huella(alloc, answers)?.into_bytes();
    let source = MemSource::new(alloc, answers, Vec::from_slice(alloc, &[read])?);
    let sink = MemSink::new(alloc, Vec::from_slice(alloc, &[write])?);
    let mut agency = PipeAgency::new(alloc, source, sink, nif()?, Host::Real, 6)?;
    agency.begin(alloc, &Plan::plain(alloc), &[])?;
    Ok(agency)
}

// What came of a message.
#[derive(Clone, Copy, PartialEq, Eq)]
enum Came {
    Accepted,
    NotSeen,
    Other,
    Failed(Quiet),
}

fn why(agency: &MemAgency, fault: AgencyFault) -> Came {
    match (fault, agency.trouble()) {
        (AgencyFault::Failed, Some(why)) => Came::Failed(why),
        _ => Came::Other,
    }
}

fn submit(alloc: Global, agency: &mut MemAgency) -> Result<Came, Fail> {
    let batch = batch(alloc)?;
    match agency.submit(alloc, &batch) {
        Ok(reply) => Ok(match reply.lines().as_slice() {
            [ReplyLine::First(Line::Correcto)] => Came::Accepted,
            _ => Came::Other,
        }),
        Err(fault) => Ok(why(agency, fault)),
    }
}

fn consult(alloc: Global, agency: &mut MemAgency) -> Result<Came, Fail> {
    let huellas = Huellas::of(alloc, batch(alloc)?.as_slice())?;
    match agency.consult(alloc, &huellas) {
        Ok(seen) => Ok(match seen.as_slice() {
            [Seen::Was(Line::Correcto)] => Came::Accepted,
            [Seen::NotSeen] => Came::NotSeen,
            _ => Came::Other,
        }),
        Err(fault) => Ok(why(agency, fault)),
    }
}

// Whether the bytes are these texts, one after another.
fn are(bytes: &[u8], texts: &[&str]) -> bool {
    let mut rest = bytes;
    for text in texts {
        match rest.strip_prefix(text.as_bytes()) {
            Some(behind) => rest = behind,
            None => return false,
        }
    }
    rest.is_empty()
}

// What came of a submission and two consultations.
type Talk = (Came, Came, Came);

fn talk(alloc: Global, agency: &mut MemAgency) -> Result<Talk, Fail> {
    let first = submit(alloc, agency)?;
    let second = consult(alloc, agency)?;
    let third = consult(alloc, agency)?;
    Ok((first, second, third))
}

// Whether this comes of a submission and two consultations, and this is said.
fn goes(alloc: Global, agency: MemAgency, came: &Talk, said: &[&str]) -> Result<bool, Fail> {
    let mut agency = agency;
    let is_so = talk(alloc, &mut agency)? == *came;
    Ok(is_so && are(agency.sink().bytes(), said))
}

const ALL: &str = "{\"begun\":true,\"n\":6}\n\
    {\"lines\":[[\"H\",\"correcto\",0]],\"n\":7,\"wait\":60}\n\
    {\"begun\":true,\"n\":8}\n\
    {\"n\":9,\"seen\":[[\"H\",\"correcto\",0]]}\n\
    {\"begun\":true,\"n\":10}\n\
    {\"n\":11,\"seen\":[[\"H\",\"not-seen\",0]]}\n";

// Answers to earlier messages, a fault, and an end in the middle of a line.
const OTHERS: &str = "{\"fault\":\"of before\",\"n\":2}\n{\"begun\":true,\"n\":6}\n\
    {\"lines\":[[\"H\",\"correcto\",0]],\"n\":7,\"wait\":60}\n\
    {\"n\":7,\"seen\":[]}\n{\"begun\":true,\"n\":8}\n\n{\"begun\":true,\"n\":8}\n\
    {\"fault\":\"no\",\"n\":9}\n{\"begun\":true,\"n\":10}\n{\"n\":11";

// An end in the middle of the second answer: both files are opened again for the next call.
const ENDED: &str = "{\"begun\":true,\"n\":6}\n\
    {\"lines\":[[\"H\",\"correcto\",0]],\"n\":7,\"wait\":60}\n\
    {\"begun\":true,\"n\":8}\n{\"n\":9";

const FAULT: Came = Came::Failed(Quiet::Deaf(Deaf::Line(Unheard::Fault)));

const END: Came = Came::Failed(Quiet::Deaf(Deaf::End));

const UNBEGUN: Came = Came::Failed(Quiet::Unbegun(Deaf::End));

const MISSED: Came = Came::Failed(Quiet::Sink);

const SAID: [&str; 6] = [
    OPENING_6,
    SUBMISSION,
    OPENING_8,
    CONSULTATION_9,
    OPENING_10,
    CONSULTATION_11,
];

const SAID_BEFORE_AN_END: [&str; 5] = [
    OPENING_6,
    SUBMISSION,
    OPENING_8,
    CONSULTATION_9,
    OPENING_10,
];

const SAID_LATER: [&str; 4] = [OPENING_8, CONSULTATION_9, OPENING_10, CONSULTATION_11];

const AS_ALL: Talk = (Came::Accepted, Came::Accepted, Came::NotSeen);

const FIRST_MISSED: Talk = (MISSED, Came::Accepted, Came::NotSeen);

const SECOND_MISSED: Talk = (Came::Accepted, MISSED, Came::NotSeen);

const THIRD_MISSED: Talk = (Came::Accepted, Came::Accepted, MISSED);

// What is heard, which write fails (0: none), what comes of the messages, and what is said.
type Written = (
    &'static str,
    &'static str,
    u64,
    Talk,
    &'static [&'static str],
);

const TALKS: [Written; 10] = [
    ("all", ALL, 0, AS_ALL, &SAID),
    ("others", OTHERS, 0, (Came::Accepted, FAULT, END), &SAID),
    (
        "an end",
        ENDED,
        0,
        (Came::Accepted, END, UNBEGUN),
        &SAID_BEFORE_AN_END,
    ),
    ("write 1", ALL, 1, FIRST_MISSED, &SAID_LATER),
    ("write 2", ALL, 2, FIRST_MISSED, &SAID_LATER),
    (
        "write 3",
        ALL,
        3,
        FIRST_MISSED,
        &[
            OPENING_6,
            OPENING_8,
            CONSULTATION_9,
            OPENING_10,
            CONSULTATION_11,
        ],
    ),
    (
        "write 4",
        ALL,
        4,
        SECOND_MISSED,
        &[OPENING_6, SUBMISSION, OPENING_10, CONSULTATION_11],
    ),
    (
        "write 5",
        ALL,
        5,
        SECOND_MISSED,
        &[
            OPENING_6,
            SUBMISSION,
            OPENING_8,
            OPENING_10,
            CONSULTATION_11,
        ],
    ),
    (
        "write 6",
        ALL,
        6,
        THIRD_MISSED,
        &[OPENING_6, SUBMISSION, OPENING_8, CONSULTATION_9],
    ),
    ("write 7", ALL, 7, THIRD_MISSED, &SAID_BEFORE_AN_END),
];

fn is_said(alloc: Global, row: &Written) -> Result<(), Fail> {
    let agency = agency(alloc, row.1, 0, row.2)?;
    holds(goes(alloc, agency, &row.3, row.4)?, row.0)
}

#[test]
fn an_agency_speaks_over_streams(rt: HostRuntime) -> Result<(), Fail> {
    for row in &TALKS {
        is_said(rt.alloc(), row)?;
    }
    Ok(())
}

// Which reads fail, from a first one up to another, and what comes of the submission then. The reads are the empty one of the opening, one for
// each of the 21 bytes of the begin's answer, and one for each of the 110 of the reply.
type Read = (&'static str, u64, u64, Quiet);

const READS: [Read; 3] = [
    ("the opening", 1, 2, Quiet::Closed),
    ("the begin's answer", 2, 23, Quiet::Unbegun(Deaf::Source)),
    ("the reply", 23, 133, Quiet::Deaf(Deaf::Source)),
];

fn fails_at(alloc: Global, read: u64, row: &Read) -> Result<(), Fail> {
    let mut agency = agency(alloc, ALL, read, 0)?;
    let wanted = (Came::Failed(row.3), Came::Accepted, Came::NotSeen);
    holds(talk(alloc, &mut agency)? == wanted, row.0)
}

#[test]
fn each_read_of_an_answer_fails_in_turn(rt: HostRuntime) -> Result<(), Fail> {
    for row in &READS {
        for read in row.1..row.2 {
            fails_at(rt.alloc(), read, row)?;
        }
    }
    Ok(())
}

const NOT_BEGUN: [&str; 1] = [OPENING_6];

const BEGUN: [&str; 2] = [OPENING_6, SUBMISSION];

const BEGUN_TWICE: [&str; 3] = [OPENING_6, OPENING_6, SUBMISSION];

const UNBEGUN_BY_A_FAULT: Came = Came::Failed(Quiet::Unbegun(Deaf::Line(Unheard::Fault)));

// What comes first, what comes of a submission where its begin and it are answered then, and what was written. In each row where the begin
// isn't answered nothing of the message was.
type Beginning = (&'static str, &'static str, Came, &'static [&'static str]);

const BEGINNINGS: [Beginning; 9] = [
    ("nothing", "", Came::Accepted, &BEGUN),
    (
        "answers to other calls",
        "{\"begun\":true,\"n\":5}\n{\"begun\":true,\"n\":7}\n{\"n\":6}\n{\"begun\":false,\"n\":6}\n{\"begun\":1,\"n\":6}\n",
        Came::Accepted,
        &BEGUN,
    ),
    (
        "faults of other calls",
        "{\"fault\":\"no\",\"n\":5}\n{\"fault\":\"no\",\"n\":7}\n{\"fault\":\"no\"}\n",
        Came::Accepted,
        &BEGUN,
    ),
    (
        "junk",
        "\n\n{\"begun\":true,\"n\":6\n\u{e9}\n[]\n7\n{\"t\":\"Hello\"}\n",
        Came::Accepted,
        &BEGUN,
    ),
    (
        "a hello",
        "\n{\"t\":\"hello\"}\n",
        Came::Accepted,
        &BEGUN_TWICE,
    ),
    (
        "a fault",
        "{\"fault\":null,\"n\":6}\n",
        UNBEGUN_BY_A_FAULT,
        &NOT_BEGUN,
    ),
    (
        "a fault and a begun",
        "{\"begun\":true,\"fault\":1,\"n\":6}\n",
        UNBEGUN_BY_A_FAULT,
        &NOT_BEGUN,
    ),
    (
        "a begun given twice",
        "{\"begun\":true,\"n\":6}\n",
        Came::Accepted,
        &BEGUN,
    ),
    (
        "a hello in place of the answer",
        "{\"begun\":true,\"n\":6}\n\n{\"t\":\"hello\"}\n",
        Came::Failed(Quiet::Deaf(Deaf::Line(Unheard::Hello))),
        &BEGUN,
    ),
];

// Whether this comes of a submission over these answers, and this is said.
fn submits(alloc: Global, answers: &str, came: Came, said: &[&str]) -> Result<bool, Fail> {
    let mut agency = agency(alloc, answers, 0, 0)?;
    let is_so = submit(alloc, &mut agency)? == came;
    Ok(is_so && are(agency.sink().bytes(), said))
}

fn begins(alloc: Global, row: &Beginning) -> Result<(), Fail> {
    let first = row.1;
    let answers = format!(in alloc; "{first}{BEGUN_6}{REPLY_7}")?;
    holds(submits(alloc, &answers, row.2, row.3)?, row.0)
}

#[test]
fn a_message_waits_until_its_begin_is_answered(rt: HostRuntime) -> Result<(), Fail> {
    for row in &BEGINNINGS {
        begins(rt.alloc(), row)?;
    }
    holds(
        submits(rt.alloc(), REPLY_7, UNBEGUN, &NOT_BEGUN)?,
        "no begun",
    )
}

// What comes before this many lines, these lines, what comes before the rest of the answers, and the rest; what comes of a submission, and what
// is said.
type Many = (
    &'static str,
    &'static str,
    &'static str,
    usize,
    &'static str,
    Came,
    &'static [&'static str],
);

const MANY: [Many; 4] = [
    (
        "1023 lines, and the begun",
        "",
        "junk\n",
        1023,
        "{\"begun\":true,\"n\":6}\n",
        Came::Accepted,
        &BEGUN,
    ),
    (
        "1024 lines before the begun",
        "",
        "junk\n",
        1024,
        "{\"begun\":true,\"n\":6}\n",
        Came::Failed(Quiet::Unbegun(Deaf::Earlier)),
        &NOT_BEGUN,
    ),
    (
        "1023 lines, and the answer",
        "{\"begun\":true,\"n\":6}\n",
        "{\"n\":6}\n\n{\"n\":0}\n",
        341,
        "",
        Came::Accepted,
        &BEGUN,
    ),
    (
        "1024 lines before the answer",
        "{\"begun\":true,\"n\":6}\n\n",
        "{\"n\":6}\n\n{\"n\":0}\n",
        341,
        "",
        Came::Failed(Quiet::Deaf(Deaf::Earlier)),
        &BEGUN,
    ),
];

fn passes_many(alloc: Global, row: &Many) -> Result<(), Fail> {
    let (before, behind) = (row.1, row.4);
    let lines = row.2.repeat(alloc, row.3)?;
    let answers = format!(in alloc; "{before}{lines}{behind}{REPLY_7}")?;
    holds(submits(alloc, &answers, row.5, row.6)?, row.0)
}

#[test]
fn so_many_lines_are_passed_over(rt: HostRuntime) -> Result<(), Fail> {
    holds(MOST_EARLIER == 1024, "how many")?;
    for row in &MANY {
        passes_many(rt.alloc(), row)?;
    }
    Ok(())
}

// What the fault of a submission is said to be in this answer, and how it is told.
type Words = (&'static str, Option<&'static str>);

const FAULTS: [Words; 3] = [
    (
        "\"late\\u0007 \u{f1}\u{202e}\u{9b}\u{2066}\u{ad}\u{20ac}\u{24f}\u{250}\"",
        Some("late? \u{f1}????\u{20ac}\u{24f}?"),
    ),
    ("\"\"", Some("")),
    ("1", None),
];

// Whether a submission fails by this fault, and it is told so.
fn tells(alloc: Global, fault: &str, words: Option<&str>) -> Result<bool, Fail> {
    let answers = format!(in alloc; "{BEGUN_6}{{\"fault\":{fault},\"n\":7}}\n")?;
    let mut agency = agency(alloc, &answers, 0, 0)?;
    Ok(submit(alloc, &mut agency)? == FAULT && agency.told() == words)
}

#[test]
fn a_fault_is_told_in_its_own_words(rt: HostRuntime) -> Result<(), Fail> {
    for row in &FAULTS {
        holds(tells(rt.alloc(), row.0, row.1)?, row.0)?;
    }
    let most = "a".repeat(rt.alloc(), 200)?;
    let fault = format!(in rt.alloc(); "\"{most}a\"")?;
    holds(
        tells(rt.alloc(), &fault, Some(most.as_str()))?,
        "words too long",
    )
}

#[test]
fn a_file_that_is_missing_is_a_fault(rt: HostRuntime) -> Result<(), Fail> {
    let alloc = rt.alloc();
    let unfit = unfit_files(&rt, "no/messages", "no/answers");
    holds(unfit.is_none(), "files that aren't there")?;
    let source = PipeSource::at(&rt, String::from_str(alloc, "no/answers")?);
    let sink = PipeSink::at(&rt, String::from_str(alloc, "no/messages")?);
    let mut agency = PipeAgency::new(alloc, source, sink, nif()?, Host::Real, 6)?;
    may_cross_threads(&agency);
    let failed = matches!(
        agency.submit(alloc, &batch(alloc)?),
        Err(AgencyFault::Failed)
    );
    holds(
        failed && agency.trouble() == Some(Quiet::Sink),
        "a submission",
    )?;
    holds(agency.reason() == Some("no such file"), "its reason")
}
