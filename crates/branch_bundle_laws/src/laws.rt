// The laws of bundles. Each stands on a function with an empty body, whose contract is the law.
ghost use Rattle.branch_bundle_laws.specs.Laws.{ReadsBundles, TellsLayouts, HasBundleLength, SendsBundles, ReceivesAllInOneWay, ReceivesBytesInOneWay, AnswersBytes, ReceivesMoves, HasRowLength, HasLowClocks, HasSameValues, MatchesShared, ReceivesNext, AddsItems, AddsAllItems, PlacesBranches, HoldsWhatItNames, AcceptsBundles, TakesBundles, TakesBytes, ReceivesHeld, AnswersBundles, PlacesFreeNames};

use mrdt_model::Mrdt;

/// The bytes of a bundle are read in one way, and nothing else begins with them.
pub fn reads_bundles()
    ensures { ReadsBundles }
{}

/// What begins with a bundle of one layout begins with none of another.
pub fn tells_layouts()
    ensures { TellsLayouts }
{}

/// A bundle has 52 bytes, and those of its items.
pub fn has_bundle_length()
    ensures { HasBundleLength }
{}

/// One item whose objects have 161 and 132 bytes make a bundle of 345. One of a commit's object of 100 alone makes one
/// of 152.
pub fn has_row_length()
    ensures { HasRowLength }
{}

/// What is sent is a bundle, if it is shorter than 2^64 bytes.
pub fn sends_bundles<T: Mrdt>()
    ensures { SendsBundles T.meaning }
{}

/// Items shorter than 2^64 bytes, one after another, have one list of answers at most.
pub fn receives_all_in_one_way<T: Mrdt>()
    ensures { ReceivesAllInOneWay T.meaning }
{}

/// Bytes shorter than 2^64 have one answer at most under a name, and make one list of moves.
pub fn receives_bytes_in_one_way<T: Mrdt>()
    ensures { ReceivesBytesInOneWay T.meaning }
{}

/// No bytes are without an answer.
pub fn answers_bytes<T: Mrdt>()
    ensures { AnswersBytes T.meaning }
{}

/// What the receiving of bytes makes is commits that are received, and then maybe a branch that is placed.
pub fn receives_moves<T: Mrdt>()
    ensures { ReceivesMoves T.meaning }
{}

/// A commit's clock is at most its number, so no clock comes near 2^64.
pub fn has_low_clocks<T: Mrdt>()
    ensures { HasLowClocks T.meaning }
{}

/// Commits of two valid histories that see the same events, in whatever order, have values of the same bytes.
pub fn has_same_values<T: Mrdt>()
    ensures { HasSameValues T.meaning }
{}

/// Commits that two valid histories share, by their objects, have the same parents, the same event and see the same
/// events in both.
pub fn matches_shared<T: Mrdt>()
    ensures { MatchesShared T.meaning }
{}

/// A commit whose parents two valid histories share is received by some step of the second one, with its own objects.
pub fn receives_next<T: Mrdt>()
    ensures { ReceivesNext T.meaning }
{}

/// Behind a new item the history is valid, the item's objects are those of its last commit, and all else stays.
pub fn adds_items<T: Mrdt>()
    ensures { AddsItems T.meaning }
{}

/// Behind items the history is valid, old commits and branches stay, and each item is that of a commit where all
/// were taken.
pub fn adds_all_items<T: Mrdt>()
    ensures { AddsAllItems T.meaning }
{}

/// A branch that is placed at the tip of a bundle stands there, under its name.
pub fn places_branches<T: Mrdt>()
    ensures { PlacesBranches T.meaning }
{}

/// With no addresses nothing is left out of a bundle, and with addresses of commits of another history that history
/// holds what is left out, if the objects of the two are told apart by their addresses.
pub fn holds_what_it_names<T: Mrdt>()
    ensures { HoldsWhatItNames T.meaning }
{}

/// A bundle of a valid history is accepted by every valid history that holds what was left out of it.
pub fn accepts_bundles<T: Mrdt>()
    ensures { AcceptsBundles T.meaning }
{}

/// Where no item is refused, the name is free and there is room for a branch, the bundle is received whole, and
/// the branch stands at a commit with the objects of the tip.
pub fn takes_bundles<T: Mrdt>()
    ensures { TakesBundles T.meaning }
{}

/// And so are its bytes, and answered by how many commits were new, the branch's number and its head.
pub fn takes_bytes<T: Mrdt>()
    ensures { TakesBytes T.meaning }
{}

/// Items that are all here are taken, and nothing is made.
pub fn receives_held<T: Mrdt>()
    ensures { ReceivesHeld T.meaning }
{}

/// The items of such a bundle have answers.
pub fn answers_bundles<T: Mrdt>()
    ensures { AnswersBundles T.meaning }
{}

/// A branch of a free name is placed, if there is room for it.
pub fn places_free_names<T: Mrdt>()
    ensures { PlacesFreeNames T.meaning }
{}
