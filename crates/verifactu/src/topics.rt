//! The commands that have a help of their own.
ghost use Rattle.verifactu.specs.Topics.{IsTopic};

/// A command, by its name.
#[derive(Clone, Copy, Debug, PartialEq, Eq)]
pub enum Topic {
    Chain,
    Day,
    Serve,
    Drain,
    Audit,
    Link,
    Listing,
    Check,
    Statement,
    Export,
    Matches,
    Migrate,
    Follow,
    Guard,
    Many,
    Generate,
}

/// The command of this name, None exactly where there is none.
pub fn topic_of(name: &str) -> Option<Topic>
    ensures { IsTopic name.now result }
{
    match name {
        "chain" => Some(Topic::Chain),
        "day" => Some(Topic::Day),
        "serve" => Some(Topic::Serve),
        "drain" => Some(Topic::Drain),
        "audit" => Some(Topic::Audit),
        "link" => Some(Topic::Link),
        "list" => Some(Topic::Listing),
        "check" => Some(Topic::Check),
        "statement" => Some(Topic::Statement),
        "export" => Some(Topic::Export),
        "matches" => Some(Topic::Matches),
        "migrate" => Some(Topic::Migrate),
        "follow" => Some(Topic::Follow),
        "guard" => Some(Topic::Guard),
        "many" => Some(Topic::Many),
        "generate" => Some(Topic::Generate),
        _ => None,
    }
}
