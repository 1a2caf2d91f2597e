//! Laws over the definitions alone: functions with nothing to do, whose contracts are the laws.

ghost use Rattle.copy_law.specs.Course.{EveryCourseIsLawful};

/// In every course of two hosts over a link that gives a side only frames of the other, and none after 700,000 later ones, with frames lost,
/// repeated and in any order: what was read at b begins what was written at a, and its end was told only where a's side was closed and all that
/// was written was read.
pub fn every_course_is_lawful()
    ensures { EveryCourseIsLawful }
{}
