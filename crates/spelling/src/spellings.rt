// The law of spellings.
ghost use Rattle.spelling.specs.OneSpelling.{OneSpelling, WritingReadsBack};

// A step that is written is read back as the same step.
pub fn writing_is_undone()
    ensures { WritingReadsBack }
{}

// Bytes that are read as a step are what is written of that step.
pub fn spelling_is_one()
    ensures { OneSpelling }
{}
