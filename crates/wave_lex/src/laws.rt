//! Laws of the definitions.
ghost use Rattle.wave_lex.specs.LexerRuns.{TokensTokenize};
ghost use Rattle.wave_lex.specs.LabelWords.{LabelTokensAreLabels, LabelsAreWords};
ghost use Rattle.wave_lex.specs.Tokenization.{NoLongerLabel, OneTokenization, ThroughFirstQuotes};
ghost use Rattle.wave_lex.specs.Multiline.{FaultsRefuse, DecodingFunctional};
ghost use Rattle.wave_lex.specs.Parts.{LinesJoin, OneLineJoins, PartsJoin};

/// No text is tokenized in two ways.
pub fn one_cut()
    ensures { OneTokenization }
{}

/// The tokens that a lexer gives are those into which the source is tokenized; where it refuses one,
/// the source isn't tokenized.
pub fn tokens_cut()
    ensures { TokensTokenize }
{}

/// The parts of a string join to what it decodes to; a refusal reports its first bad escape.
pub fn parts_join()
    ensures { PartsJoin }
{}

/// The parts of a multiline string join to what it decodes to; a refusal reports what is wrong with it.
pub fn lines_join()
    ensures { LinesJoin }
{}

/// The parts of one line, by an iterator of either kind, join to what it decodes to; a refusal reports
/// its first bad escape.
pub fn one_line_joins()
    ensures { OneLineJoins }
{}

/// A token stands for one scalar or text at most.
pub fn decoding_functional()
    ensures { DecodingFunctional }
{}

/// A string or multiline string with a fault stands for nothing.
pub fn faults_refuse()
    ensures { FaultsRefuse }
{}

/// A multiline token goes from three quotes through the first later three quotes.
pub fn through_first_quotes()
    ensures { ThroughFirstQuotes }
{}

/// A label is words joined by hyphens, each of lower-case letters and digits or of upper-case letters
/// and digits, and begins with a letter; a token of its class is a label, or `%` and a label.
pub fn labels_are_words()
    ensures words { LabelsAreWords }
    ensures tokens { LabelTokensAreLabels }
{}

/// No label at the place of a token is longer than the token.
pub fn no_longer_label()
    ensures { NoLongerLabel }
{}
