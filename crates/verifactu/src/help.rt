//! What `--help` and `--version` print.
ghost use Rattle.std.specs.Prelude.{◌≡◌};
ghost use Rattle.verifactu.specs.Help as spec;

const HELP: &[u8] = b"\
The invoicing chain of a shop with many tills, in VERI*FACTU mode.

sell  verifactu chain FILE NIF        answers the script on standard input
      verifactu day FILE NIF          answers it, many tills at once, and sends
      verifactu serve FILE NIF        answers tills line by line, and sends
      verifactu many FILE NIF ..      answers and sends for two to eight issuers
send  verifactu drain FILE NIF        sends the records that wait to the agency
      verifactu guard FILE NIF NEW    the same, noted in the copy NEW too
      verifactu --agency TO FROM ..   day, serve, drain or guard with an adapter
look  verifactu audit FILE            says whether the file is a sound chain
      verifactu link FILE NUM HOST    prints the link of an invoice's QR code
      verifactu list FILE WHICH       lists all, waiting or refused records
      verifactu check FILE WORKERS    answers scanned links on standard input
      verifactu statement FILE WHEN   a month's or day's sums by tax and rate
      verifactu export FILE           prints the chain as lines of JSON
      verifactu matches FILE          compares such lines with the file
      verifactu generate N            prints the sums of N made-up commands
copy  verifactu follow FILE NEW       brings the copy NEW up to FILE
      verifactu migrate FILE NEW      moves a file of version 1 to version 2
      verifactu help COMMAND          what it reads, prints and writes
      verifactu --help                prints this text
      verifactu --version             prints the version
FILE is the shop's chain, NIF the issuer's tax number. Without --agency nothing
is sent to the tax agency: a practice agency answers. OPERATING.md says more.
";

// The second line is the toolchain's own, of the last run in which the repository's gate passed whole.
const VERSION: &[u8] = b"verifactu 0.2.0\nrattle-kit-13f logic dac8208d650f15bf\n";

/// The commands, and where the rest stands.
pub fn help_text() -> &'static [u8]
    ensures { result.now ≡ spec.help_text }
{
    HELP
}

/// The program's name and version, and the toolchain under which its gate last passed.
pub fn version_text() -> &'static [u8]
    ensures { result.now ≡ spec.version_text }
{
    VERSION
}
