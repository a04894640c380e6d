// What holds of all formulas and lines that are read.
ghost use Rattle.grammar.specs.Laws.{SentencesRead, SentencesMean};
ghost use Rattle.grammar.specs.Lines.{SettingsRead, CallsRead};
ghost use Rattle.grammar.specs.Faults.{LinesEnd, FormulasBreak, LinesByPieces, LinesBreak, RefusalsBreak};

// Just the sentences of the grammar are read, and their nodes stand for what they mean.
pub fn sentences_are_read()
    ensures reads_just_the_sentences { SentencesRead }
    ensures writes_what_they_mean { SentencesMean }
{}

// Just the lines of the grammar are accepted, each for what it says.
pub fn lines_are_read()
    ensures reads_just_the_settings { SettingsRead }
    ensures reads_just_the_calls { CallsRead }
{}

// What stands before a fault can be completed, and together with the token there it cannot.
pub fn faults_stand_where_it_breaks()
    ensures ends_lines { LinesEnd }
    ensures breaks_formulas { FormulasBreak }
    ensures reads_by_pieces { LinesByPieces }
    ensures breaks_lines { LinesBreak }
    ensures refuses_what_breaks { RefusalsBreak }
{}
