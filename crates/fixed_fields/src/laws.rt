//! Laws of answers about fields, each the contract of a function that does nothing.

ghost use Rattle.fixed_fields.specs.Laws.{FieldsAnswerIsTheOne};

/// A word has one answer to a question about its fields: their numbers, or why it lacks the first that it lacks.
pub fn fields_answer_is_the_one()
    ensures { FieldsAnswerIsTheOne }
{}
