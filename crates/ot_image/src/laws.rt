//! What is refused.

ghost use Rattle.ot_image.specs.Fields.{RefusalsAgree};

/// A field is refused exactly where `load` gives a fault other than `Memory`, or would if there were memory, and it is that fault's.
pub fn faults_are_those_of_the_layout()
    ensures { RefusalsAgree }
{}
