//! Laws of known answers, proved for all worlds and keys.

ghost use Rattle.pyc_known_answers.specs.CarryLaws.{KnownCarriesOver};
ghost use Rattle.pyc_known_answers.specs.KnownAnswersLaws.{StayWithMoreKeys, StayWithFewerKeys, StayWithoutOne};

/// Known answers stay those of their keys: where more keys are held; where fewer are, if the answers of the numbers
/// that are not held are forgotten; and where a number is let go, if its answer is.
pub fn known_answers_stay()
    ensures more { StayWithMoreKeys }
    ensures fewer { StayWithFewerKeys }
    ensures one { StayWithoutOne }
{}

/// A known answer stays that of other files, where answers are the same there for which nothing flagged is looked at,
/// and nothing flagged was looked at for it.
pub fn carry_over()
    ensures { KnownCarriesOver }
{}
