//! Laws of an engine whose journal is handed down. The functions do nothing when they run: their
//! contracts are the laws.
ghost use Rattle.ocp_flight.specs.Entries.{EntriesAreReadBack};
ghost use Rattle.ocp_flight.specs.Laws.{ReplaysReleasedAndHeld, ReleasesKeepTheLog, SameEntriesSameWorld};

/// The octets of a journal entry determine the entry.
pub fn entries_are_read_back()
    ensures { EntriesAreReadBack }
{}

/// The state is the replay of the entries that were released, followed by those that are held. A
/// release leaves it as it is.
pub fn the_state_is_the_replay_of_all_entries()
    ensures replay { ReplaysReleasedAndHeld }
    ensures release { ReleasesKeepTheLog }
{}

/// An engine on ground that gets all entries, those that were released and those that are held,
/// has the same world. So a mission of any length can be replayed in pieces.
pub fn the_same_entries_make_the_same_world()
    ensures { SameEntriesSameWorld }
{}
