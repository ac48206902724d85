//! The lines of the sender's turns.
ghost use Rattle.std.specs.Prelude.{◌≡◌, ◌++◌, OnOk, IfOk};
ghost use Rattle.report.specs.Turns as spec;

use crate::pieces::{put, put_chain_line, put_counted};
use agency_port::{Told, Turns};
use ports::NoMemory;
use record_fields::Text;
use std::alloc::{AllocError, Global};

fn put_told(text: &mut Vec<u8>, told: Told) -> Result<(), AllocError>
    ensures { OnOk result (text.new.items ≡ text.old.items ++ spec.told_text told) }
{
    match told {
        Told::Wait(moment) => put_counted(text, b"wait ", moment),
        Told::Noted(lines) => put_counted(text, b"noted ", u64::from(lines)),
        Told::Cleared => put(text, b"cleared"),
        Told::Doubt(place) => put_counted(text, b"doubt ", u64::from(place)),
        Told::Link => put(text, b"link"),
        Told::Contradiction => put(text, b"contradiction"),
        Told::Disk => put(text, b"fault disk"),
        Told::Stopped(faults) => put_counted(text, b"fault stopped ", faults),
        Told::Memory => put(text, b"fault memory"),
    }
}

fn put_turns(text: &mut Vec<u8>, turns: &[Told]) -> Result<(), AllocError>
    ensures { OnOk result (text.new.items ≡ text.old.items ++ spec.turn_lines turns.now) }
{
    let mut rest = turns;
    while let [told, after @ ..] = rest {
        put_told(text, *told)?;
        put(text, b"\n")?;
        rest = after;
    }
    Ok(())
}

/// A line for each turn that was told, in order, and the chain line of these counts.
pub fn turns_text(alloc: Global, turns: &Turns, records: u32, noted: u32) -> Result<Text, NoMemory>
    //= A drain's text is a line for each turn, in order, and the chain line of the counts of records and noted lines.
    ensures { IfOk result (λ text. text ≡ spec.turns_text turns.now records noted) }
{
    let mut text = Vec::new(alloc);
    put_turns(&mut text, turns.as_slice())?;
    put_chain_line(&mut text, records, noted)?;
    Ok(Text::of(text))
}
