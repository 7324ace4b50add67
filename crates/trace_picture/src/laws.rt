//! Laws of pictures. The function has an empty body; its contract is these laws.

ghost use Rattle.trace_picture.specs.Laws.{BoxesAreInOrder, BoxesTellSegments, EachBoxHasALane, EachClaimHasOneBox, EachMarkedEntryHasOneMark, LineTellsProgress, MarksTellEntries};

/// The picture of a journal shows the journal: each claim has one box, from it to the first give or
/// back of its operation and seat, each copy and back one mark, and the line rises and falls with
/// the operations in progress.
pub fn pictures_tell_journals()
    ensures one_box { EachClaimHasOneBox }
    ensures order { BoxesAreInOrder }
    ensures segments { BoxesTellSegments }
    ensures one_mark { EachMarkedEntryHasOneMark }
    ensures marks { MarksTellEntries }
    ensures lanes { EachBoxHasALane }
    ensures line { LineTellsProgress }
{}
