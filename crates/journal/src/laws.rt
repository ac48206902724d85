//! What holds of the file's definitions alone.
ghost use Rattle.journal.specs.Laws.{OneChain, NoChain, OneHeader, OneVersion};
ghost use Rattle.journal.specs.Laws.{WalkBegins, WalkGoesOn, WalkEnds, OneWalk, WalksAgree};

/// A file stands for at most one chain.
pub fn a_file_stands_for_one_chain()
    //= A file stands for one chain.
    //= No body: a law over definitions, which has no body
    ensures { OneChain }
{}

/// A file that isn't begun stands for no chain.
pub fn a_file_not_begun_is_no_chain()
    //= A file that isn't begun is no chain.
    //= No body: a law over definitions, which has no body
    ensures { NoChain }
{}

/// A file has one header, of one version.
pub fn a_file_has_one_header()
    //= A file has one header.
    //= No body: a law over definitions, which has no body
    ensures header { OneHeader }
    ensures version { OneVersion }
{}

/// How a file is read frame by frame: where that begins, goes on and ends.
pub fn a_file_is_walked()
    ensures begins { WalkBegins }
    ensures goes_on { WalkGoesOn }
    ensures ends { WalkEnds }
    //= A file is walked frame by frame in one way.
    //= No body: a law over definitions, which has no body
    ensures one { OneWalk }
{}

/// Of two walks over a file one is a front of the other.
pub fn walks_over_a_file_agree()
    //= Of two walks over a file's frames one is a prefix of the other.
    //= No body: a law over definitions, which has no body
    ensures { WalksAgree }
{}
