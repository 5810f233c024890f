//! The language of properties: which property a text spells, its canonical text, and the laws that tie the two.
#![tactic(auto)]

ghost use Rattle.language.specs.Laws.{CanonicalReadsBack, ReadingIsDecided, ReadingIsWellFormed, ShownShowsItself};

// The first line at fault decides about a text, and a property is read exactly when every line is taken and the end stands last.
pub fn reading_is_decided()
    ensures { ReadingIsDecided }
{}

// Every property that a text spells is well formed.
pub fn reading_is_well_formed()
    ensures { ReadingIsWellFormed }
{}

// The canonical text of a well-formed property reads back as that property.
pub fn canonical_reads_back()
    ensures { CanonicalReadsBack }
{}

// The canonical text of a text that is read shows as itself.
pub fn shown_shows_itself()
    ensures { ShownShowsItself }
{}
