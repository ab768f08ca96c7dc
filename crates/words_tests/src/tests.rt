// What lists of words say, and what an audit says of a journal.
mod audit_calls;
mod cut_journals;
mod drawn_journals;
mod drawn_words;
mod fields;
mod growing_journals;
mod journal_lines;
mod listed_words;
mod told_journals;
mod told_words;
mod worked_journals;
