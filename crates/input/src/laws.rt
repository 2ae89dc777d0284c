ghost use Rattle.input.specs.Errata.{LatestShows};

/// A law: whatever the errata, the latest one that covers a place shows there, and the list below where none does.
pub fn latest_shows()
    ensures { LatestShows }
{}
