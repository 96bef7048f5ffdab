//! Laws of JSON.
ghost use Rattle.wave_json.specs.Laws.{OneTextEach, ReadsBack, TextReadsBack};

/// At a type whose names are distinct the JSON of a value is read as the merged value.
pub fn reads_back()
    ensures { ReadsBack }
{}

/// So is its text, where its JSON nests no deeper than 128 arrays and objects.
pub fn text_reads_back()
    ensures { TextReadsBack }
{}

/// Two values of a type whose names are distinct have one text exactly where they are equal after merging.
pub fn one_text_each()
    ensures { OneTextEach }
{}
