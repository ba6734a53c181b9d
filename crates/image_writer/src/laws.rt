//! Laws of files that are made of a frame and parts. The functions do nothing; each `ensures` a law.

ghost use Rattle.image_writer.specs.Laws.{FilesAreRead, FramesHoldTheParts, LinkableDraftsHaveFrames, PartsLieInPlace};

/// A draft that can be linked has a frame, whatever bytes its parts have.
pub fn linkable_drafts_have_frames()
    ensures { LinkableDraftsHaveFrames }
{}

/// The file of its image is its parts in that frame.
pub fn frames_hold_the_parts()
    ensures { FramesHoldTheParts }
{}

/// And that file is read as that very image.
pub fn files_are_read()
    ensures { FilesAreRead }
{}

/// The bytes of a file with parts at their offsets and zeros between are those parts, one after the other.
pub fn parts_lie_in_place()
    ensures { PartsLieInPlace }
{}
