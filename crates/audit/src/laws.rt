//! What holds of verdicts by their definition alone.
ghost use Rattle.audit.specs.Laws.{OneVerdict, VerdictTells};

use frames::bytes_begin_with_one_frame;
use journal::a_file_has_one_header;
use record_codec::encodings_are_apart;
use shop_core::{a_broken_file_is_damaged, a_file_stops_at_one_place};

/// A file has one verdict.
pub fn a_file_has_one_verdict()
    //= A file has one verdict.
    //= No body: a law over definitions, which has no body
    ensures { OneVerdict }
{
    bytes_begin_with_one_frame();
    encodings_are_apart();
    a_file_has_one_header();
    a_file_stops_at_one_place();
}

/// What a verdict tells: a sound file isn't begun or stands for a history, a broken one is damaged at that byte.
pub fn a_verdict_tells_what_a_file_is()
    //= A verdict agrees with `load` on what the file stands for and on the damaged byte.
    //= No body: a law over definitions, which has no body
    ensures { VerdictTells }
{
    a_broken_file_is_damaged();
}
