//! The commands of the generator, which are this project's own.
ghost use Rattle.std.specs.Prelude.{◌≡◌, ◌≤◌, IfOk, codes};
ghost use Rattle.std.specs.Int.{IsInRange};
ghost use Rattle.file_commands.specs.Generated as spec;
ghost use Rattle.file_commands.specs.declared.generated.TheConstants.{MAX_GENERATED};

use amounts::Cents;
use invoice_kinds::Kind;
use ports::NoMemory;
use record_fields::{Draft, Refs};
use series::{SeriesName, number};
use shop_core::{Ask, Request};
use std::alloc::Global;
use tax_lines::{Breakdown, Class, LineKey, TaxLine};

/// The most commands. The limit is this project's own.
pub const MAX_GENERATED: u32 = 100_000;

fn series() -> SeriesName
    ensures { result ≡ codes "G" }
{
    match SeriesName::read("G") {
        Some(name) => name,
        None => unreachable!(),
    }
}

fn draft(alloc: Global, i: u32) -> Result<Draft, NoMemory>
    requires { IsInRange 1 MAX_GENERATED i }
    ensures { IfOk result (λ draft. draft ≡ spec.draft i) }
{
    let line = TaxLine {
        key: LineKey::iva(Class::General),
        base: Cents::of(i64::from(i * 7531 % 100_000 + 1)),
    };
    let Ok(lines) = Breakdown::of(alloc, &[line]) else {
        return Err(NoMemory);
    };
    Ok(Draft {
        kind: Kind::F2,
        rect: None,
        customer: None,
        refs: Refs::of(Vec::new(alloc)),
        lines,
    })
}

fn request(alloc: Global, i: u32) -> Result<Request, NoMemory>
    requires { IsInRange 1 MAX_GENERATED i }
    ensures { IfOk result (λ request. request ≡ spec.request i) }
{
    let series = series();
    if i % 10 == 0 {
        let num = number(&series, i - i / 10);
        return Ok(Request::Cancel { num });
    }
    let draft = draft(alloc, i)?;
    Ok(Request::Sale { series, draft })
}

fn command(alloc: Global, i: u32) -> Result<Ask, NoMemory>
    requires { IsInRange 1 MAX_GENERATED i }
    ensures { IfOk result (λ ask. ask ≡ spec.command i) }
{
    let request = request(alloc, i)?;
    let till = 1 + (i - 1) % 4;
    Ok(Ask::new(till as u8, 1 + (i - 1) / 4, request))
}

/// The first n commands.
pub fn commands(alloc: Global, n: u32) -> Result<Vec<Ask>, NoMemory>
    requires { n ≤ MAX_GENERATED }
    ensures { IfOk result (λ asks. spec.AreCommands n asks.items) }
{
    let mut asks = Vec::new(alloc);
    for i in 0..n {
        asks.push(command(alloc, i + 1)?)?;
    }
    Ok(asks)
}
