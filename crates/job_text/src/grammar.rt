//! Laws of the language.

ghost use Rattle.job_text.specs.Tokens.{TakesTheLongest};
ghost use Rattle.job_text.specs.Laws.{ReadsTheGrammar, HasOneMeaning, ReadsThePrinted};

/// Tokens are read as a job exactly where the grammar has them as that job.
pub fn tokens_are_read_by_grammar()
    ensures { ReadsTheGrammar }
{}

/// The grammar has a list of tokens as one job at most.
pub fn tokens_have_one_meaning()
    ensures { HasOneMeaning }
{}

/// The printed tokens of a job are read as that job.
pub fn printed_tokens_are_read()
    ensures { ReadsThePrinted }
{}

/// The token that is read at the front of bytes is the longest one there.
pub fn the_longest_token_is_taken()
    ensures { TakesTheLongest }
{}
