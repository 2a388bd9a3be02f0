// Answers as C has them.
ghost use Rattle.std.specs.Prelude.{◌≡◌, pos};
ghost use Rattle.crossing.specs.Answers.{answered};
ghost use Rattle.runs.specs.Runs.{handed};
ghost use Rattle.runs.specs.declared.call.Answer.TheVariants as answers;

use crate::memory::CAnswer;
use fault::Fault;
use report::Report;
use runs::Answer;

const ACCEPTED: CAnswer = CAnswer {
    refusal: 0,
    place: 0,
    number: 0,
    middle: 0,
    margin: 0,
};

pub(crate) fn answer(answer: Result<Answer, Fault>) -> CAnswer
    ensures { result ≡ answered answer }
{
    match answer {
        Ok(Answer::Accepted) => ACCEPTED,
        Ok(Answer::Line(number)) | Ok(Answer::Length(number)) => CAnswer { number, ..ACCEPTED },
        Ok(Answer::Report(Report { middle, margin })) => CAnswer {
            middle,
            margin,
            ..ACCEPTED
        },
        Err(Fault { cause, place }) => CAnswer {
            refusal: cause.number(),
            place,
            ..ACCEPTED
        },
    }
}

// What a report answers.
pub(crate) fn reported(report: Result<Report, Fault>) -> CAnswer
    ensures { result ≡ answered (handed answers.Report report) }
{
    answer(report.map(|r| Answer::Report(r)))
}
