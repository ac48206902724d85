//! What the first line of a file says.

use parties::Nif;
use record_codec::Version;

/// The issuer and the version of a history's file.
#[derive(Clone, Copy, Debug, PartialEq, Eq)]
pub struct Head {
    pub issuer: Nif,
    pub version: Version,
}
