//! Messages and answers, a line each.
use crate::sales::{CONSULTATION_9, OPENING_6, SUBMISSION, batch, nif, with_huella};
use agency_pipe::{
    Unheard, begin_line, consult_line, opening_of, read_reply, read_seen, submit_line,
};
use agency_port::{Reply, ReplyLine, Seen, State3};
use batches::{Batch, Huellas};
use record_fields::{Cause, Line};
use std::alloc::Global;
use std::test::Fail;
use test_rows::holds;
use verify_link::Host;

#[test]
fn a_begin_is_written(rt: HostRuntime) -> Result<(), Fail> {
    let opening = opening_of(rt.alloc(), &nif()?, 6, 0)?;
    holds(opening.as_slice() == OPENING_6.as_bytes(), "an opening")?;
    let begin = begin_line(rt.alloc(), &nif()?, 6, 0)?;
    let line = OPENING_6.as_bytes().strip_prefix(b"\n".as_slice());
    holds(Some(begin.as_slice()) == line, "its line")
}

#[test]
fn messages_are_written(rt: HostRuntime) -> Result<(), Fail> {
    let batch = batch(rt.alloc())?;
    let submission = submit_line(rt.alloc(), 7, Host::Real, &batch)?;
    holds(
        submission.as_slice() == SUBMISSION.as_bytes(),
        "a submission",
    )?;
    let huellas = Huellas::of(rt.alloc(), batch.as_slice())?;
    let consultation = consult_line(rt.alloc(), 9, &huellas)?;
    holds(
        consultation.as_slice() == CONSULTATION_9.as_bytes(),
        "a consultation",
    )
}

const REPLIES: [(&str, ReplyLine); 9] = [
    ("correcto\",0", ReplyLine::First(Line::Correcto)),
    ("con-errores\",200", ReplyLine::First(Line::ConErrores(200))),
    (
        "vet\",65535",
        ReplyLine::First(Line::Incorrecto(Cause::Vet(65_535))),
    ),
    ("held\",0", ReplyLine::First(Line::Incorrecto(Cause::Held))),
    (
        "not-held\",0",
        ReplyLine::First(Line::Incorrecto(Cause::NotHeld)),
    ),
    ("gone\",0", ReplyLine::First(Line::Incorrecto(Cause::Gone))),
    (
        "duplicado-correcto\",0",
        ReplyLine::Duplicado(State3::Correcto),
    ),
    (
        "duplicado-con-errores\",0",
        ReplyLine::Duplicado(State3::ConErrores),
    ),
    (
        "duplicado-incorrecto\",0",
        ReplyLine::Duplicado(State3::Incorrecto),
    ),
];

// Whether the reply is this line of the sale, and 60 seconds.
fn says(reply: &Reply, batch: &Batch, line: ReplyLine) -> bool {
    reply.lines().as_slice().first() == Some(&line)
        && reply.wait() == 60
        && reply.huellas().are_of(batch.as_slice())
}

fn is_read(alloc: Global, batch: &Batch, row: &(&str, ReplyLine)) -> Result<(), Fail> {
    let words = row.0;
    let text = format!(in alloc; "{{\"lines\":[[\"H\",\"{words}]],\"n\":7,\"wait\":60}}")?;
    let text = with_huella(alloc, &text)?;
    match read_reply(alloc, 7, batch, text.as_bytes()) {
        Ok(reply) => holds(says(&reply, batch, row.1), words),
        Err(_) => holds(false, words),
    }
}

#[test]
fn replies_are_read(rt: HostRuntime) -> Result<(), Fail> {
    let batch = batch(rt.alloc())?;
    for row in &REPLIES {
        is_read(rt.alloc(), &batch, row)?;
    }
    Ok(())
}

const OTHERS: [(&str, Unheard); 26] = [
    ("", Unheard::Json),
    ("{", Unheard::Json),
    (
        "{\"lines\":[[\"H\",\"correcto\",0]],\"n\":7,\"wait\":60} x",
        Unheard::Json,
    ),
    (
        "{\"lines\":[[\"H\",\"correcto\",0]],\"n\":7,\"wait\":1e999}",
        Unheard::Json,
    ),
    ("[]", Unheard::Shape),
    (
        "{\"lines\":[[\"H\",\"correcto\",0]],\"wait\":60}",
        Unheard::Shape,
    ),
    (
        "{\"lines\":[[\"H\",\"correcto\",0]],\"n\":8,\"wait\":60}",
        Unheard::Shape,
    ),
    (
        "{\"lines\":[[\"H\",\"correcto\",0]],\"n\":7.0,\"wait\":60}",
        Unheard::Shape,
    ),
    (
        "{\"lines\":[[\"H\",\"correcto\",0]],\"n\":6,\"wait\":60}",
        Unheard::Earlier,
    ),
    ("{\"fault\":\"late\",\"n\":6}", Unheard::Earlier),
    ("{\"fault\":\"lost\",\"n\":7}", Unheard::Fault),
    (
        "{\"fault\":null,\"lines\":[[\"H\",\"correcto\",0]],\"n\":7,\"wait\":60}",
        Unheard::Fault,
    ),
    ("{\"lines\":[],\"n\":7,\"wait\":60}", Unheard::Shape),
    (
        "{\"lines\":[[\"H\",\"correcto\",0],[\"H\",\"correcto\",0]],\"n\":7,\"wait\":60}",
        Unheard::Shape,
    ),
    (
        "{\"lines\":[[\"0B\",\"correcto\",0]],\"n\":7,\"wait\":60}",
        Unheard::Shape,
    ),
    (
        "{\"lines\":[[\"H\",\"Correcto\",0]],\"n\":7,\"wait\":60}",
        Unheard::Shape,
    ),
    (
        "{\"lines\":[[\"H\",\"held\",1]],\"n\":7,\"wait\":60}",
        Unheard::Shape,
    ),
    (
        "{\"lines\":[[\"H\",\"vet\",65536]],\"n\":7,\"wait\":60}",
        Unheard::Shape,
    ),
    (
        "{\"lines\":[[\"H\",\"vet\"]],\"n\":7,\"wait\":60}",
        Unheard::Shape,
    ),
    (
        "{\"lines\":[[\"H\",\"not-seen\",0]],\"n\":7,\"wait\":60}",
        Unheard::Shape,
    ),
    (
        "{\"lines\":[[\"H\",\"correcto\",0]],\"n\":7}",
        Unheard::Shape,
    ),
    (
        "{\"lines\":[[\"H\",\"correcto\",0]],\"n\":7,\"wait\":4294967296}",
        Unheard::Shape,
    ),
    (
        "{\"n\":7,\"seen\":[[\"H\",\"correcto\",0]]}",
        Unheard::Shape,
    ),
    ("{\"t\":\"hello\"}", Unheard::Hello),
    (
        "{\"lines\":[[\"H\",\"correcto\",0]],\"n\":7,\"t\":\"hello\",\"wait\":60}",
        Unheard::Hello,
    ),
    ("{\"t\":\"Hello\"}", Unheard::Shape),
];

fn is_no_reply(alloc: Global, batch: &Batch, row: &(&str, Unheard)) -> Result<(), Fail> {
    let text = with_huella(alloc, row.0)?;
    let other = read_reply(alloc, 7, batch, text.as_bytes()).err();
    holds(other == Some(row.1), row.0)
}

#[test]
fn other_lines_are_no_replies(rt: HostRuntime) -> Result<(), Fail> {
    let batch = batch(rt.alloc())?;
    for row in &OTHERS {
        is_no_reply(rt.alloc(), &batch, row)?;
    }
    Ok(())
}

const SEEN: [(&str, Seen); 2] = [
    (
        " { \"seen\" : [ [ \"H\" , \"not-seen\" , 0 ] ] , \"x\" : 1 , \"n\" : 7 } ",
        Seen::NotSeen,
    ),
    (
        "{\"n\":1,\"n\":7,\"seen\":[[\"H\",\"vet\",3000]]}",
        Seen::Was(Line::Incorrecto(Cause::Vet(3000))),
    ),
];

fn is_seen(alloc: Global, huellas: &Huellas, row: &(&str, Seen)) -> Result<(), Fail> {
    let text = with_huella(alloc, row.0)?;
    match read_seen(alloc, 7, huellas, text.as_bytes()) {
        Ok(list) => holds(list.as_slice().first() == Some(&row.1), row.0),
        Err(_) => holds(false, row.0),
    }
}

#[test]
fn what_was_seen_is_read(rt: HostRuntime) -> Result<(), Fail> {
    let huellas = Huellas::of(rt.alloc(), batch(rt.alloc())?.as_slice())?;
    for row in &SEEN {
        is_seen(rt.alloc(), &huellas, row)?;
    }
    Ok(())
}
