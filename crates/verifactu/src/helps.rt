//! What the help of each command prints.
ghost use Rattle.std.specs.Prelude.{◌≡◌};
ghost use Rattle.verifactu.specs.Help as spec;

use crate::topics::Topic;

const CHAIN: &[u8] = b"\
verifactu chain FILE NIF

Answers the commands of a script, one after the other.

Reads   a script on standard input, to its end, and FILE, the shop's chain. NIF
        is the issuer's tax number.
Prints  an answer for each command, a line for each record of the whole chain,
        and the line chain RECORDS noted NOTED.
Writes  FILE, which is begun where it isn't there: each record is on the disk
        before the next command is answered. Nothing is sent. After a crash run
        the same script again: what was taken is answered again, and not made
        twice.

A script has one command a line:
  clock START STEP       a trial's clock, in seconds since 1970; at most once
  customer KEY NIF NAME  a customer, whom the lines below name by KEY
  sale TILL SERIAL SERIES KIND OPTION.. LINE..    an invoice in a series
  fix TILL SERIAL NUM KIND OPTION.. LINE..        the invoice NUM, mended
  cancel TILL SERIAL NUM                          the invoice NUM, cancelled
  vet NUM N CODE, warn NUM N CODE, wait SECONDS, link CALL FATE or late D
                         the practice agency's plan; chain does nothing by it
TILL is 1 to 64, SERIAL the till's own number of the command. KIND is F1, F2, F3
or R1 to R5. OPTION is to=KEY, rect=S, rect=I or ref=NUM@DD-MM-YYYY. LINE is
CLASS:BASE, the base in cents; CLASS is 21, 10, 4, 0, 21+, 10+, 4+, S2, N1, N2
or E1 to E6, under IPSI 02/RATE and under IGIC 03/RATE, RATE in hundredths of a
percent, or 02/ or 03/ ahead of S2, N1, N2 or E1 to E6. Empty lines and lines
that begin with # are skipped. FORMAT.md has every rule.

Statuses
   0  done: each command has its answer
   2  faulty command line
   3  a line of the script is wrong: no command was run
   4  standard input could not be read
   5  standard output could not be written: the file keeps the records
   6  a file could not be read or written
   7  the file is damaged, and was left as it is
  10  out of memory
  12  standard input is longer than 16777216 bytes
  13  the file is another issuer's chain, and was left as it is

Example
  $ echo 'sale 1 1 A F2 21:10000' | verifactu chain shop.chain 89890001K
";

fn on_chain() -> &'static [u8]
    ensures { result.now ≡ spec.help_on_chain }
{
    CHAIN
}

const DAY: &[u8] = b"\
verifactu day FILE NIF
verifactu --agency TO FROM day FILE NIF

Answers the commands of a script by many tills at once, and sends the records.

Reads   a script on standard input, to its end (verifactu help chain has its
        lines), and FILE, the shop's chain. NIF is the issuer's tax number.
Prints  till by till its answers and the line till T saw N, a line for each
        record of the whole chain, and the line chain RECORDS noted NOTED.
Writes  FILE, which is begun where it isn't there: each record, and what the
        agency says of it. With --agency the messages go to TO and the answers
        come from FROM (ADAPTER.md); else a practice agency answers, and nothing
        is sent to the tax agency.

Statuses
   0  done: each command has its answer, and each record its line
   2  faulty command line
   3  a line of the script is wrong: no command was run
   4  standard input could not be read
   5  standard output could not be written: the file keeps the records
   6  a file could not be read or written
   7  the file is damaged, and was left as it is
   8  the agency didn't answer eight times: send again later
  10  out of memory
  11  the agency shows what can't be: nothing more was sent
  12  standard input is longer than 16777216 bytes
  13  the file is another issuer's chain, and was left as it is

Example
  $ echo 'sale 1 1 A F2 21:10000' | verifactu day trial.chain 89890001K
";

fn on_day() -> &'static [u8]
    ensures { result.now ≡ spec.help_on_day }
{
    DAY
}

const SERVE: &[u8] = b"\
verifactu serve FILE NIF
verifactu --agency TO FROM serve FILE NIF

Answers the lines of tills one by one, and sends the records: what till software
starts and speaks to.

Reads   a line on standard input, and the next one once it is answered; FILE,
        the shop's chain. The lines are a script's (verifactu help chain), but
        for vet, warn, wait and link, and questions: ticket NUM HOST, record
        PLACE, serial TILL SERIAL, last TILL, lines CLASS TOTAL and chain. NIF
        is the issuer's tax number.
Prints  an answer for each line, for one that it can't read its number and what
        is wrong; at the end the line chain RECORDS noted NOTED.
Writes  FILE, which is begun where it isn't there: each record is on the disk
        before it is answered. With --agency the messages go to TO and the
        answers come from FROM (ADAPTER.md); else a practice agency answers, and
        nothing is sent to the tax agency. TILLS.md says what a till owes.

Statuses
   0  done: the lines were read to their end, and each record has its line
   2  faulty command line
   4  standard input could not be read: the file keeps the records
   5  standard output could not be written: the file keeps the records
   6  a file could not be read or written
   7  the file is damaged, and was left as it is
   8  the agency didn't answer eight times: send again later
  10  out of memory
  11  the agency shows what can't be: nothing more was sent
  13  the file is another issuer's chain, and was left as it is

Example
  $ echo 'sale 1 1 A F2 21:10000' | verifactu serve trial.chain 89890001K
";

fn on_serve() -> &'static [u8]
    ensures { result.now ≡ spec.help_on_serve }
{
    SERVE
}

const DRAIN: &[u8] = b"\
verifactu drain FILE NIF
verifactu --agency TO FROM drain FILE NIF

Sends the records that wait to the agency, in batches of at most 1000.

Reads   a script without sales, fixes and cancels on standard input, to its end
        (an empty one will do), and FILE, the shop's chain. NIF is the issuer's
        tax number.
Prints  a line for each turn of its sender, and the line chain RECORDS noted
        NOTED.
Writes  FILE: what the agency says of each record. Behind --agency the messages
        go to TO and the answers come from FROM (ADAPTER.md); else a practice
        agency answers, and nothing is sent to the tax agency.

Statuses
   0  done: each record has its line
   2  faulty command line
   3  a line of the script is wrong: no command was run
   4  standard input could not be read
   5  standard output could not be written: the file keeps the lines
   6  a file could not be read or written
   7  the file is damaged, and was left as it is
   8  the agency didn't answer eight times: send again later
  10  out of memory
  11  the agency shows what can't be: nothing more was sent
  12  standard input is longer than 16777216 bytes
  13  the file is another issuer's chain, and was left as it is

Example
  $ verifactu drain trial.chain 89890001K < /dev/null
";

fn on_drain() -> &'static [u8]
    ensures { result.now ≡ spec.help_on_drain }
{
    DRAIN
}

const AUDIT: &[u8] = b"\
verifactu audit FILE

Says whether the file is a sound chain, or where it breaks.

Reads   FILE, also while another program writes it. One that isn't there is
        sound and has no record: standard error says so.
Prints  sound RECORDS noted NOTED last HUELLA, or broken PLACE at BYTE WHAT.
Writes  nothing.

Statuses
   0  done: the file is sound
   2  faulty command line
   5  standard output could not be written
   6  a file could not be read or written
   9  the file is broken: the verdict says where
  10  out of memory

Example
  $ verifactu audit shop.chain
";

fn on_audit() -> &'static [u8]
    ensures { result.now ≡ spec.help_on_audit }
{
    AUDIT
}

const LINK: &[u8] = b"\
verifactu link FILE NUM HOST

Prints the link that an invoice's QR code has.

Reads   FILE, the shop's chain. NUM is the invoice's number; HOST is real, the
        tax agency's service, or test, its service for trials.
Prints  the link of the last alta of that number.
Writes  nothing.

Statuses
   0  done
   2  faulty command line
   5  standard output could not be written
   6  a file could not be read or written
   7  the file is damaged, and was left as it is
  10  out of memory
  14  no invoice has this number

Example
  $ verifactu link shop.chain A-1 real
";

fn on_link() -> &'static [u8]
    ensures { result.now ≡ spec.help_on_link }
{
    LINK
}

const LIST: &[u8] = b"\
verifactu list FILE WHICH

Lists records, and what the agency says of each.

Reads   FILE, the shop's chain. WHICH is all, each record; waiting, those that
        have no line of the agency yet; or refused, those that it refused and
        that no later record of the same invoice answers.
Prints  a line for each of them, and the line chain RECORDS noted NOTED, which
        counts the whole chain.
Writes  nothing.

Statuses
   0  done
   2  faulty command line
   5  standard output could not be written
   6  a file could not be read or written
   7  the file is damaged, and was left as it is
  10  out of memory

Example
  $ verifactu list shop.chain refused
";

fn on_list() -> &'static [u8]
    ensures { result.now ≡ spec.help_on_list }
{
    LIST
}

const CHECK: &[u8] = b"\
verifactu check FILE WORKERS

Says of scanned links whether the shop's chain has their invoices.

Reads   links on standard input, one a line, to their end, and FILE. WORKERS is
        1 to 16: how many work at the same time, with the same answers.
Prints  for each link found PLACE, differs PLACE, cancelled PLACE, refused,
        unknown, other-issuer, or what is bad in it. It is the shop's own
        answer, and not the tax agency's.
Writes  nothing.

Statuses
   0  done
   2  faulty command line
   4  standard input could not be read
   5  standard output could not be written
   6  a file could not be read or written
   7  the file is damaged, and was left as it is
  10  out of memory
  12  standard input is longer than 16777216 bytes

Example
  $ verifactu link shop.chain A-1 real | verifactu check shop.chain 1
";

fn on_check() -> &'static [u8]
    ensures { result.now ≡ spec.help_on_check }
{
    CHECK
}

const STATEMENT: &[u8] = b"\
verifactu statement FILE WHEN

Sums the invoices of a month or of a day by tax, class and rate.

Reads   FILE, the shop's chain. WHEN is MM-YYYY, from 01-2024 to 12-2100, or
        DD-MM-YYYY, a day of one of these months.
Prints  CLASS LINES BASE TAX SURCHARGE for each kind of line, and their sums. An
        invoice counts by its last record that the agency didn't refuse, by its
        own day; a cancelled one doesn't count.
Writes  nothing.

Statuses
   0  done
   2  faulty command line
   5  standard output could not be written
   6  a file could not be read or written
   7  the file is damaged, and was left as it is
  10  out of memory

Example
  $ verifactu statement shop.chain 01-2025
";

fn on_statement() -> &'static [u8]
    ensures { result.now ≡ spec.help_on_statement }
{
    STATEMENT
}

const EXPORT: &[u8] = b"\
verifactu export FILE

Prints the chain as lines of JSON.

Reads   FILE, the shop's chain.
Prints  a line for the issuer and the file's version, then one for each entry,
        in order: FORMAT.md has their keys.
Writes  nothing.

Statuses
   0  done
   2  faulty command line
   5  standard output could not be written
   6  a file could not be read or written
   7  the file is damaged, and was left as it is
  10  out of memory

Example
  $ verifactu export shop.chain
";

fn on_export() -> &'static [u8]
    ensures { result.now ≡ spec.help_on_export }
{
    EXPORT
}

const MATCHES: &[u8] = b"\
verifactu matches FILE

Says whether lines of JSON are those that export prints of the file.

Reads   lines of JSON on standard input, to their end, and FILE.
Prints  matches N, N being the count of entries.
Writes  nothing.

Statuses
   0  done
   2  faulty command line
   4  standard input could not be read
   5  standard output could not be written
   6  a file could not be read or written
   7  the file is damaged, and was left as it is
  10  out of memory
  12  standard input is longer than 16777216 bytes
  18  they are not: standard error names the first line that differs

Example
  $ verifactu export shop.chain | verifactu matches shop.chain
";

fn on_matches() -> &'static [u8]
    ensures { result.now ≡ spec.help_on_matches }
{
    MATCHES
}

const MIGRATE: &[u8] = b"\
verifactu migrate FILE NEW

Moves a chain of version 1, which an earlier program began, to a new file of
version 2, which takes lines of IPSI and IGIC. Go on with NEW alone.

Reads   FILE, which stays as it is. Let no till run on it meanwhile.
Prints  migrated RECORDS noted NOTED.
Writes  NEW: a file that isn't there, or that an earlier call left unfinished.
        A call that was cut off is made again.

Statuses
   0  done
   2  faulty command line
   5  standard output could not be written: NEW is whole
   6  a file could not be read or written
   7  FILE is damaged: nothing was written
  10  out of memory
  15  NEW is something else, and was left as it is
  16  FILE is no file of version 1

Example
  $ verifactu migrate old.chain new.chain
";

fn on_migrate() -> &'static [u8]
    ensures { result.now ≡ spec.help_on_migrate }
{
    MIGRATE
}

const FOLLOW: &[u8] = b"\
verifactu follow FILE NEW

Brings NEW, a copy of FILE, up to it.

Reads   FILE, also while another program writes it.
Prints  followed KEPT entries ENTRIES: how many entries it added, and how many
        NEW then has.
Writes  NEW, which is begun where it isn't there.

Statuses
   0  done
   2  faulty command line
   5  standard output could not be written: NEW keeps its entries
   6  a file could not be read or written
   7  FILE or NEW is damaged, and was left as it is
  10  out of memory
  17  NEW is no copy of FILE, and was left as it is

Example
  $ verifactu follow shop.chain copy.chain
";

fn on_follow() -> &'static [u8]
    ensures { result.now ≡ spec.help_on_follow }
{
    FOLLOW
}

const GUARD: &[u8] = b"\
verifactu guard FILE NIF NEW
verifactu --agency TO FROM guard FILE NIF NEW

Brings the copy NEW up to FILE, then sends the records that wait, as drain does,
and notes what the agency says in both files. So each record that was sent is in
both.

Reads   a script without sales, fixes and cancels on standard input, to its end
        (an empty one will do), FILE, the shop's chain, and NEW. NIF is the
        issuer's tax number.
Prints  a line for each turn of its sender, and the line chain RECORDS noted
        NOTED.
Writes  FILE and NEW. With --agency the messages go to TO and the answers come
        from FROM (ADAPTER.md); else a practice agency answers, and nothing is
        sent to the tax agency.

Statuses
   0  done: each record has its line in both files
   2  faulty command line
   3  a line of the script is wrong: no command was run
   4  standard input could not be read
   5  standard output could not be written: the files keep the lines
   6  a file could not be read or written
   7  FILE or NEW is damaged, and was left as it is
   8  the agency didn't answer eight times: send again later
  10  out of memory
  11  the agency shows what can't be: nothing more was sent
  12  standard input is longer than 16777216 bytes
  13  the file is another issuer's chain, and was left as it is
  17  NEW is no copy of FILE, and was left as it is

Example
  $ verifactu guard trial.chain 89890001K copy.chain < /dev/null
";

fn on_guard() -> &'static [u8]
    ensures { result.now ≡ spec.help_on_guard }
{
    GUARD
}

const MANY: &[u8] = b"\
verifactu many FILE NIF FILE NIF ..

Answers and sends for two to eight issuers at once, each with its own file, its
own part of the script and its own practice agency.

Reads   a script on standard input, to its end (verifactu help chain has its
        lines), and each FILE. What stands after a line issuer NIF is for this
        issuer alone, what stands ahead of the first such line for all.
Prints  a block for each issuer: issuer NIF, what chain prints of it, and the
        line ended STATUS.
Writes  each FILE, which is begun where it isn't there. Nothing is sent to the
        tax agency: it takes no --agency.

Statuses
   0  done: all issuers' commands are answered, and each record has its line
   2  faulty command line
   3  a line of the script is wrong: no command was run
   4  standard input could not be read
   5  standard output could not be written: the files keep the records
   6  a file could not be read or written
   7  the file is damaged, and was left as it is
   8  the agency didn't answer eight times: send again later
  10  out of memory
  11  the agency shows what can't be: nothing more was sent
  12  standard input is longer than 16777216 bytes
  13  the file is another issuer's chain, and was left as it is
That of an issuer is the first one's that isn't 0; its block says more.

Example
  $ verifactu many a.chain 89890001K b.chain 12345678Z < examples/two-shops.txt
";

fn on_many() -> &'static [u8]
    ensures { result.now ≡ spec.help_on_many }
{
    MANY
}

const GENERATE: &[u8] = b"\
verifactu generate N

Runs N made-up sales and cancellations of a shop, to show how fast it works.

Reads   nothing. N is 1 to 100000.
Prints  the sums of the records that were made, and the line chain RECORDS noted
        NOTED last HUELLA.
Writes  nothing: the chain is kept in memory.

Statuses
   0  done
   2  faulty command line
   5  standard output could not be written
  10  out of memory

Example
  $ verifactu generate 1000
";

fn on_generate() -> &'static [u8]
    ensures { result.now ≡ spec.help_on_generate }
{
    GENERATE
}

/// The command's form, what it reads, prints and writes, its statuses and an example.
pub fn help_on(topic: Topic) -> &'static [u8]
    ensures { result.now ≡ spec.help_on topic }
{
    match topic {
        Topic::Chain => on_chain(),
        Topic::Day => on_day(),
        Topic::Serve => on_serve(),
        Topic::Drain => on_drain(),
        Topic::Audit => on_audit(),
        Topic::Link => on_link(),
        Topic::Listing => on_list(),
        Topic::Check => on_check(),
        Topic::Statement => on_statement(),
        Topic::Export => on_export(),
        Topic::Matches => on_matches(),
        Topic::Migrate => on_migrate(),
        Topic::Follow => on_follow(),
        Topic::Guard => on_guard(),
        Topic::Many => on_many(),
        Topic::Generate => on_generate(),
    }
}
