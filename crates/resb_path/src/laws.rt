//! The law of paths in files, the contract of a call that does nothing. What is said of a path is
//! found in `file`.
ghost use Rattle.resb_path.specs.InFiles.{OneAnswerOfAPath};

/// A path in a file is never both followed and refused: where each place on its way holds, none of
/// them fails.
pub fn one_answer_of_a_path()
    ensures { OneAnswerOfAPath }
{}
