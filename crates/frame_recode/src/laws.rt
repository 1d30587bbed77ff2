//! What holds of lines that are brought over, in the words of the form of a frame.

ghost use Rattle.frame_recode.specs.Laws.{IsTextOf, OneIsBroughtOver, OnlyFrames, OnlyTexts, OthersAreRefused, TwoStays};

/// Frames, and nothing else, are brought over: what is written is the frame in edition Two of the same
/// envelope, with its window widened where it was one of edition One. Every envelope that fits in edition
/// One fits in edition Two then, so there always is such a frame. Other bytes are refused with their first
/// offence.
pub fn frames_are_brought_over()
    ensures one { OneIsBroughtOver }
    ensures two { TwoStays }
    ensures only { OnlyFrames }
    ensures others { OthersAreRefused }
{}

/// The bytes of a line are those whose hexadecimal text it is, with lower-case letters alone, and a line is
/// bad only where it is no such text.
pub fn lines_are_hexadecimal()
    ensures text { IsTextOf }
    ensures only { OnlyTexts }
{}
