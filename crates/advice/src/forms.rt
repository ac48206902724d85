//! The forms of the commands, for whoever called one with other words.
use crate::places::Place;

const OF_ISSUER: &[Place] = &[Place::File, Place::Nif];

const OF_FILE: &[Place] = &[Place::File];

const OF_COPY: &[Place] = &[Place::File, Place::New];

const GUARD: &[Place] = &[Place::File, Place::Nif, Place::New];

const LINK: &[Place] = &[Place::File, Place::Num, Place::Host];

const LIST: &[Place] = &[Place::File, Place::Which];

const CHECK: &[Place] = &[Place::File, Place::Workers];

const STATEMENT: &[Place] = &[Place::File, Place::Period];

const GENERATE: &[Place] = &[Place::Count];

/// What the words after this command's name stand for. `many` has pairs of FILE and NIF, and none of its own here.
pub fn places_of(name: &str) -> Option<&'static [Place]> {
    match name {
        "chain" | "day" | "drain" | "serve" => Some(OF_ISSUER),
        "audit" | "export" | "matches" => Some(OF_FILE),
        "migrate" | "follow" => Some(OF_COPY),
        "guard" => Some(GUARD),
        "link" => Some(LINK),
        "list" => Some(LIST),
        "check" => Some(CHECK),
        "statement" => Some(STATEMENT),
        "generate" => Some(GENERATE),
        _ => None,
    }
}

/// The words that the command of this name wants, after `verifactu`; None where there is no such command.
pub fn form_of(name: &str) -> Option<&'static str> {
    match name {
        "chain" => Some("chain FILE NIF"),
        "day" => Some("day FILE NIF"),
        "drain" => Some("drain FILE NIF"),
        "serve" => Some("serve FILE NIF"),
        "audit" => Some("audit FILE"),
        "link" => Some("link FILE NUM HOST, HOST being real or test"),
        "list" => Some("list FILE all|waiting|refused"),
        "check" => Some("check FILE WORKERS, WORKERS being 1 to 16"),
        "migrate" => Some("migrate FILE NEW"),
        "follow" => Some("follow FILE NEW"),
        "guard" => Some("guard FILE NIF NEW"),
        "many" => Some("many FILE NIF FILE NIF .., two to eight pairs"),
        "statement" => Some("statement FILE MM-YYYY or DD-MM-YYYY"),
        "export" => Some("export FILE"),
        "matches" => Some("matches FILE"),
        "generate" => Some("generate N, N being 1 to 100000"),
        "--agency" => Some("--agency TO FROM COMMAND .., the command's words behind two files"),
        _ => None,
    }
}
