//! What holds of every list of lines.
ghost use Rattle.link_check.specs.Checking.{AnswersAreOne};

use verify_link::text_determines_reading;

/// Lines have one list of answers. So one worker and sixteen give the same.
pub fn answers_are_one()
    //= Lines have one list of answers, so all numbers of workers give the same.
    //= No body: a law over definitions, which has no body
    ensures { AnswersAreOne }
{
    text_determines_reading();
}
