//! What holds of the file's definitions alone.
ghost use Rattle.shop_core.specs.File.Laws.{CutIsDamaged, NotBegunIsNeither, OneDamage, OneHistory, OneStop, SoundBegins};
ghost use Rattle.shop_core.specs.File.Laws.{SoundEnds, SoundGoesOn, SoundOrDamaged, StopsAtItsGate};

use crate::a_legal_history_goes_on;
use frames::bytes_begin_with_one_frame;
use journal::{a_file_has_one_header, a_file_is_walked, walks_over_a_file_agree};
use record_codec::encodings_are_apart;

/// A file has one meaning: it stands for one history at most, at one version, is damaged at one byte at most, never both, and
/// neither where it isn't begun.
pub fn a_file_has_one_meaning()
    //= A file stands for one history of one issuer in one version at most.
    //= No body: a law over definitions, which has no body
    ensures history { OneHistory }
    //= A file is damaged at one byte at most.
    //= No body: a law over definitions, which has no body
    ensures damage { OneDamage }
    //= No file both stands for a history and is damaged.
    //= No body: a law over definitions, which has no body
    ensures sound { SoundOrDamaged }
    ensures not_begun { NotBegunIsNeither }
{
    bytes_begin_with_one_frame();
    encodings_are_apart();
    a_file_has_one_header();
    a_file_stops_at_one_place();
}

/// A reader of the frames stops at one place: where no entry that continues the history follows.
pub fn a_file_stops_at_one_place()
    //= Each reader of a file's frames stops at one place.
    //= No body: a law over definitions, which has no body
    ensures one { OneStop }
    ensures sound { StopsAtItsGate }
{
    encodings_are_apart();
    a_file_has_one_header();
    a_file_is_walked();
    walks_over_a_file_agree();
}

/// How a history is read frame by frame: where that begins, goes on and ends.
pub fn a_history_is_read_by_frames()
    ensures begins { SoundBegins }
    //= A history is read frame by frame.
    //= No body: a law over definitions, which has no body
    ensures goes_on { SoundGoesOn }
    ensures ends { SoundEnds }
{
    a_legal_history_goes_on();
    a_file_is_walked();
}

/// A file that ends in its closing gate is damaged by each cut that leaves 2 bytes or more: at the cut where that leaves no
/// more than the header, else at the gate of the last frame that it left a part of.
pub fn a_cut_file_is_damaged()
    //= Each proper prefix, of 2 bytes or more, of a file that stands for a history and ends in its closing gate is
    //= damaged: at the cut where that leaves no byte after the header, else at the gate of the frame that it leaves
    //= without the next gate.
    //= No body: a law over definitions, which has no body
    ensures { CutIsDamaged }
{
    bytes_begin_with_one_frame();
    a_file_is_walked();
    a_history_is_read_by_frames();
}
