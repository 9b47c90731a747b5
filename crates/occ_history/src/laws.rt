//! The laws. Each function computes nothing: its contract is the law, and the check proves it.

ghost use Rattle.occ_history.specs.Laws.{HappeningStands, SeenIsHistory, HistoriesAreSerial, AnswersAreOfTheirPlace, AnswersStandInOneHistory};

/// What happens behind the lock, in a world that the story led to, stands in the history, and the story leads to the new world.
pub fn what_happens_stands()
    ensures { HappeningStands }
{}

/// What a front has seen once its event stands is a history of the store.
pub fn what_is_seen_is_a_history()
    ensures { SeenIsHistory }
{}

/// Every history has a serial order of all its transactions, those too that were folded, from the empty store or from any base: they
/// stand in it as they entered, and what each committed one read, which is what its client was given, is what serial replay of those
/// before it answers.
pub fn every_history_has_a_serial_order()
    ensures { HistoriesAreSerial }
{}

/// Where a request committed, the answers that its client was given are those of serial replay at the place of its entry, as far as it had
/// come then.
pub fn answers_are_of_their_place()
    ensures { AnswersAreOfTheirPlace }
{}

/// Whatever two clients were answered stands in one history, and one serial order explains both.
pub fn answers_stand_in_one_history()
    ensures { AnswersStandInOneHistory }
{}
