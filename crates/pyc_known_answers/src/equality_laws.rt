//! Laws of when two answers are one, proved for all answers.

ghost use Rattle.pyc_known_answers.specs.SameAnswers.{SameAnswersAreEqual, SameTypesAreEqual};

/// Two types are of one form with the same parts in the same order just where they are equal.
pub fn same_types_are_equal()
    ensures { SameTypesAreEqual }
{}

/// Two answers are one just where they are equal.
pub fn same_answers_are_equal()
    ensures { SameAnswersAreEqual }
{}
