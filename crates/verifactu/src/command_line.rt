//! The words of the command line.
ghost use Rattle.std.specs.Prelude.{◌≡◌, ◌<◌, ◌≤◌, ◌∷◌, [], map, string_bytes, bytes_eq, codes, false, length};
ghost use Rattle.std.specs.List.{list_any};
ghost use Rattle.verifactu.specs.CommandLine.{AsksToSend, IsAskedFor, IsChoice, IsCount, IsHelpAsked, IsHost, IsSaid, IsWorkers};
ghost use Rattle.verifactu.specs.CommandLine as spec;

use crate::nifs::Nifs;
use crate::pairs::read_pairs;
use crate::topics::{Topic, topic_of};
use amounts::read_whole;
use file_commands::MAX_GENERATED;
use link_check::MAX_WORKERS;
use parties::{MAX_ISSUERS, Nif};
use report::Choice;
use series::NumSerie;
use statements::Period;
use verify_link::Host;

/// What the words ask for.
#[derive(Drop)]
pub enum Command {
    /// `chain FILE NIF`, for the issuer with this NIF.
    Chain(Nif),
    /// `day FILE NIF`, for the issuer with this NIF.
    Day(Nif),
    /// `drain FILE NIF`, for the issuer with this NIF.
    Drain(Nif),
    /// `serve FILE NIF`, for the issuer with this NIF.
    Serve(Nif),
    /// `audit FILE`.
    Audit,
    /// `link FILE NUM HOST`, for the invoice of this number.
    Link(NumSerie, Host),
    /// `list FILE WHICH`, of these records.
    Listing(Choice),
    /// `check FILE WORKERS`, by this many workers.
    Check(u8),
    /// `migrate FILE NEW`.
    Migrate,
    /// `follow FILE NEW`.
    Follow,
    /// `guard FILE NIF NEW`, for the issuer with this NIF.
    Guard(Nif),
    /// `many FILE NIF FILE NIF ..`, for the issuers with these NIFs.
    Many(Nifs),
    /// `statement FILE MM-YYYY` or `statement FILE DD-MM-YYYY`, of this month or day.
    Statement(Period),
    /// `export FILE`.
    Export,
    /// `matches FILE`.
    Matches,
    /// `generate N`, for the first N commands of the generator.
    Generate(u32),
    /// `--help`, `-h` or `help`.
    Help,
    /// `COMMAND --help`, `COMMAND -h` or `help COMMAND`.
    HelpOn(Topic),
    /// `--version`.
    Version,
}

fn is_word(word: &str, name: &[u8]) -> bool
    ensures { result ≡ bytes_eq word.now name.now }
{
    word.as_bytes() == name
}

fn version_of(word: &str) -> Option<Command>
    ensures { IsSaid (word.now ∷ []) result }
{
    if is_word(word, b"--version") {
        return Some(Command::Version);
    }
    None
}

fn of_issuer(name: &str, file: &str, nif: &str) -> Option<Command>
    requires file { 0 < length file.now }
    requires other { bytes_eq name.now (codes "check") ≡ false }
    requires neither { bytes_eq name.now (codes "migrate") ≡ false }
    requires no_copy { bytes_eq name.now (codes "follow") ≡ false }
    requires nor { bytes_eq name.now (codes "statement") ≡ false }
    requires no_listing { bytes_eq name.now (codes "list") ≡ false }
    ensures { IsSaid (name.now ∷ (file.now ∷ (nif.now ∷ []))) result }
{
    let Ok(issuer) = Nif::read(nif) else {
        return None;
    };
    if is_word(name, b"chain") {
        return Some(Command::Chain(issuer));
    }
    if is_word(name, b"day") {
        return Some(Command::Day(issuer));
    }
    if is_word(name, b"drain") {
        return Some(Command::Drain(issuer));
    }
    if is_word(name, b"serve") {
        return Some(Command::Serve(issuer));
    }
    None
}

fn workers_of(word: &str) -> Option<u8>
    ensures { IsWorkers word.now result }
{
    let n = count_of(word)?;
    if n > u32::from(MAX_WORKERS) {
        return None;
    }
    Some(n as u8)
}

fn check_of(file: &str, workers: &str) -> Option<Command>
    requires { 0 < length file.now }
    ensures { IsSaid (codes "check" ∷ (file.now ∷ (workers.now ∷ []))) result }
{
    match workers_of(workers) {
        Some(workers) => Some(Command::Check(workers)),
        None => None,
    }
}

fn migrate_of(file: &str, new: &str) -> Option<Command>
    requires { 0 < length file.now }
    ensures { IsSaid (codes "migrate" ∷ (file.now ∷ (new.now ∷ []))) result }
{
    if new.is_empty() {
        return None;
    }
    Some(Command::Migrate)
}

fn follow_of(file: &str, new: &str) -> Option<Command>
    requires { 0 < length file.now }
    ensures { IsSaid (codes "follow" ∷ (file.now ∷ (new.now ∷ []))) result }
{
    if new.is_empty() || is_word(new, file.as_bytes()) {
        return None;
    }
    Some(Command::Follow)
}

fn statement_of(file: &str, period: &str) -> Option<Command>
    requires { 0 < length file.now }
    ensures { IsSaid (codes "statement" ∷ (file.now ∷ (period.now ∷ []))) result }
{
    match Period::read(period) {
        Some(period) => Some(Command::Statement(period)),
        None => None,
    }
}

fn choice_of(word: &str) -> Option<Choice>
    ensures { IsChoice word.now result }
{
    if is_word(word, b"all") {
        return Some(Choice::All);
    }
    if is_word(word, b"waiting") {
        return Some(Choice::Waiting);
    }
    if is_word(word, b"refused") {
        return Some(Choice::Refused);
    }
    None
}

fn list_of(file: &str, which: &str) -> Option<Command>
    requires { 0 < length file.now }
    ensures { IsSaid (codes "list" ∷ (file.now ∷ (which.now ∷ []))) result }
{
    match choice_of(which) {
        Some(choice) => Some(Command::Listing(choice)),
        None => None,
    }
}

fn three_of(name: &str, file: &str, word: &str) -> Option<Command>
    ensures { IsSaid (name.now ∷ (file.now ∷ (word.now ∷ []))) result }
{
    if file.is_empty() {
        return None;
    }
    if is_word(name, b"check") {
        return check_of(file, word);
    }
    if is_word(name, b"migrate") {
        return migrate_of(file, word);
    }
    if is_word(name, b"follow") {
        return follow_of(file, word);
    }
    if is_word(name, b"statement") {
        return statement_of(file, word);
    }
    if is_word(name, b"list") {
        return list_of(file, word);
    }
    of_issuer(name, file, word)
}

fn audit_of(file: &str) -> Option<Command>
    ensures { IsSaid (codes "audit" ∷ (file.now ∷ [])) result }
{
    if file.is_empty() {
        return None;
    }
    Some(Command::Audit)
}

fn export_of(file: &str) -> Option<Command>
    ensures { IsSaid (codes "export" ∷ (file.now ∷ [])) result }
{
    if file.is_empty() {
        return None;
    }
    Some(Command::Export)
}

fn matches_of(file: &str) -> Option<Command>
    ensures { IsSaid (codes "matches" ∷ (file.now ∷ [])) result }
{
    if file.is_empty() {
        return None;
    }
    Some(Command::Matches)
}

fn count_of(word: &str) -> Option<u32>
    ensures { IsCount word.now result }
{
    let n = read_whole(word.as_bytes())?;
    if n < 1 {
        return None;
    }
    if n > u64::from(MAX_GENERATED) {
        return None;
    }
    Some(n as u32)
}

fn generate_of(count: &str) -> Option<Command>
    ensures { IsSaid (codes "generate" ∷ (count.now ∷ [])) result }
{
    match count_of(count) {
        Some(n) => Some(Command::Generate(n)),
        None => None,
    }
}

fn two_of(name: &str, word: &str) -> Option<Command>
    ensures { IsSaid (name.now ∷ (word.now ∷ [])) result }
{
    if is_word(name, b"audit") {
        return audit_of(word);
    }
    if is_word(name, b"export") {
        return export_of(word);
    }
    if is_word(name, b"matches") {
        return matches_of(word);
    }
    if is_word(name, b"generate") {
        return generate_of(word);
    }
    None
}

fn host_of(word: &str) -> Option<Host>
    ensures { IsHost word.now result }
{
    if is_word(word, b"real") {
        return Some(Host::Real);
    }
    if is_word(word, b"test") {
        return Some(Host::Practice);
    }
    None
}

fn link_of(file: &str, num: &str, host: &str) -> Option<Command>
    requires { 0 < length file.now }
    ensures { IsSaid (codes "link" ∷ (file.now ∷ (num.now ∷ (host.now ∷ [])))) result }
{
    let Some(num) = NumSerie::read(num) else {
        return None;
    };
    let Some(host) = host_of(host) else {
        return None;
    };
    Some(Command::Link(num, host))
}

fn guard_of(file: &str, nif: &str, new: &str) -> Option<Command>
    requires { 0 < length file.now }
    ensures { IsSaid (codes "guard" ∷ (file.now ∷ (nif.now ∷ (new.now ∷ [])))) result }
{
    if new.is_empty() || is_word(new, file.as_bytes()) {
        return None;
    }
    match Nif::read(nif) {
        Ok(issuer) => Some(Command::Guard(issuer)),
        Err(_) => None,
    }
}

fn four_of(name: &str, file: &str, word: &str, last: &str) -> Option<Command>
    ensures { IsSaid (name.now ∷ (file.now ∷ (word.now ∷ (last.now ∷ [])))) result }
{
    if file.is_empty() {
        return None;
    }
    if is_word(name, b"link") {
        return link_of(file, word, last);
    }
    if is_word(name, b"guard") {
        return guard_of(file, word, last);
    }
    None
}

// Five words or more: those of `many`, or of no command.
fn many_of(words: &[String]) -> Option<Command>
    requires { 4 < length words.now }
    ensures { IsSaid (map string_bytes words.now) result }
{
    let Some((name, pairs)) = words.split_first() else {
        return None;
    };
    if !is_word(name.as_str(), b"many") {
        return None;
    }
    match read_pairs(pairs) {
        Some(issuers) => Some(Command::Many(issuers)),
        None => None,
    }
}

// How many pairs stand after the first one of `many`.
fn further_pairs(words: &[String]) -> u16
    requires { 4 < length words.now }
    ensures count { result ≡ spec.posts_needed (map string_bytes words.now) }
    ensures few { result ≤ 7 }
{
    let Some((name, pairs)) = words.split_first() else {
        return 0;
    };
    if !is_word(name.as_str(), b"many") {
        return 0;
    }
    if pairs.len() > 2 * MAX_ISSUERS {
        return 0;
    }
    (pairs.len() / 2 - 1) as u16
}

/// How many posts a run by these words needs besides the first one: 1 for those of `migrate`, `follow`
/// and `guard`, whose file is NEW, and for those of `many` one less than its pairs.
pub fn posts_needed(words: &[String]) -> u16
    //= A run is given as many further files as its words name.
    ensures count { result ≡ spec.posts_needed (map string_bytes words.now) }
    ensures few { result ≤ 7 }
{
    if words.len() > 4 {
        return further_pairs(words);
    }
    match words {
        [name, _, _] if is_word(name.as_str(), b"migrate") => 1,
        [name, _, _] if is_word(name.as_str(), b"follow") => 1,
        [name, _, _, _] if is_word(name.as_str(), b"guard") => 1,
        _ => 0,
    }
}

// The command that the words say, where none of them asks for help.
fn said_by(words: &[String]) -> Option<Command>
    ensures { IsSaid (map string_bytes words.now) result }
{
    if words.len() > 4 {
        return many_of(words);
    }
    match words {
        [word] => version_of(word.as_str()),
        [name, word] => two_of(name.as_str(), word.as_str()),
        [name, file, word] => three_of(name.as_str(), file.as_str(), word.as_str()),
        [name, file, num, host] => {
            four_of(name.as_str(), file.as_str(), num.as_str(), host.as_str())
        }
        _ => None,
    }
}

fn asks_help(word: &str) -> bool
    ensures { result ≡ spec.asks_help word.now }
{
    is_word(word, b"--help") || is_word(word, b"-h")
}

// A word asks for help.
fn has_help(words: &[String]) -> bool
    ensures { result ≡ list_any spec.asks_help (map string_bytes words.now) }
{
    let Some((word, others)) = words.split_first() else {
        return false;
    };
    asks_help(word.as_str()) || has_help(others)
}

// The help that one word asks for.
fn help_of(word: &str) -> Option<Command>
    ensures { IsHelpAsked (word.now ∷ []) result }
{
    if asks_help(word) || is_word(word, b"help") {
        return Some(Command::Help);
    }
    None
}

// The help that two words ask for.
fn help_on_of(first: &str, second: &str) -> Option<Command>
    ensures { IsHelpAsked (first.now ∷ (second.now ∷ [])) result }
{
    let name = if asks_help(second) {
        first
    } else if is_word(first, b"help") {
        second
    } else {
        return None;
    };
    match topic_of(name) {
        Some(topic) => Some(Command::HelpOn(topic)),
        None => None,
    }
}

// The help that the words ask for.
fn help_by(words: &[String]) -> Option<Command>
    ensures { IsHelpAsked (map string_bytes words.now) result }
{
    match words {
        [word] => help_of(word.as_str()),
        [first, second] => help_on_of(first.as_str(), second.as_str()),
        _ => None,
    }
}

/// The command that the words ask for, None exactly where they ask for none.
pub fn command_of(words: &[String]) -> Option<Command>
    //= The words ask for one command, or for none: those that hold `--help` or `-h` in another form than that of a
    //= help ask for none.
    ensures { IsAskedFor (map string_bytes words.now) result }
{
    if let Some(help) = help_by(words) {
        return Some(help);
    }
    if has_help(words) {
        return None;
    }
    said_by(words)
}

/// Whether a run by these words hands what waits to its agency: those of `day`, `serve`, `drain`, `guard` and `many` do.
pub fn asks_to_send(words: &[String]) -> bool
    //= It is told exactly whether the words ask for `day`, `serve`, `drain`, `guard` or `many`.
    ensures { AsksToSend (map string_bytes words.now) result }
{
    match command_of(words) {
        Some(Command::Day(_)) | Some(Command::Serve(_)) | Some(Command::Drain(_)) => true,
        Some(Command::Guard(_)) | Some(Command::Many(_)) => true,
        _ => false,
    }
}
