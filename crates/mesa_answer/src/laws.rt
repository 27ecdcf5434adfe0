// What holds of every answer, whichever function made it.
ghost use Rattle.mesa_answer.specs.Answering.{AnswersParts};
ghost use Rattle.mesa_answer.specs.Gathering.{JoinsFirst};

/// A query over parts that were loaded one after the other needs no fold of them: the answer over the fold is the answer over the parts' rows in that order, and rows may be filtered anywhere.
pub fn answer_over_parts()
    ensures { AnswersParts }
{}

/// Of a whole, as many first groups are made of the first groups of its parts: what is among the first of the whole is so in its part.
pub fn first_groups_join()
    ensures { JoinsFirst }
{}
