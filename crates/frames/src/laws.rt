//! What holds of the frames' definitions alone.
ghost use Rattle.frames.specs.Laws.{ReadsAsWritten, IsFiveLonger, OneFrame};

/// After a gate that is 1 a frame reads as it was written.
pub fn a_frame_reads_as_written()
    //= A frame reads as it was written.
    //= No body: a law over definitions, which has no body
    ensures { ReadsAsWritten }
{}

/// A frame is five bytes longer than its body: four of the length and the next gate.
pub fn a_frame_is_five_longer()
    //= A frame is five bytes longer than its body.
    //= No body: a law over definitions, which has no body
    ensures { IsFiveLonger }
{}

/// The bytes from a gate on begin with one frame and no other.
pub fn bytes_begin_with_one_frame()
    //= Bytes begin with one frame.
    //= No body: a law over definitions, which has no body
    ensures { OneFrame }
{}
