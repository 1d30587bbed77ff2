//! What holds of frames, apart from any code.

ghost use Rattle.wire_frames.specs.Laws.{OneForm, MarksByBit, NoneBelowOne, CutIsShort, MoreIsTrailing};

/// No frame begins another, and no two envelopes have one frame: a frame, in either edition, that
/// begins with a whole frame is that frame, of the same envelope in the same edition.
pub fn one_form()
    ensures { OneForm }
{}

/// What the marks of a client say in a frame: each bit of their bytes, the least significant of the
/// first byte being bit 0, is the same bit of their words, and none of a number below 1 is set.
pub fn marks_by_bit()
    ensures bits { MarksByBit }
    ensures below_one { NoneBelowOne }
{}

/// Frames that are cut off or go on. Read from left to right, each beginning of a frame is too short,
/// and a frame with bytes behind it is refused where the frame ends.
pub fn cut_or_more()
    ensures cut { CutIsShort }
    ensures more { MoreIsTrailing }
{}
