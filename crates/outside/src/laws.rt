//! A law on what real folders answer.

ghost use Rattle.outside.specs.AlikeAnswers.{AlikeAnswersHold};

/// Where a folder answers each read of one file alike, there are files that agree with all of its answers.
pub fn alike_answers_law()
    ensures { AlikeAnswersHold }
{}
