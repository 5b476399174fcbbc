//! Laws of places, on a function of their own.
ghost use Rattle.wp_watch.specs.Laws.{PlacesFollow, OneMoreIsTold, OneMoreCanBeTold, TextsAreSaid};

/// Told one after another, all events leave each watcher at its place after them. One more event keeps it so, and can be
/// told while the sums stay small; and the places give the texts of what each watcher wants.
pub fn places_follow()
    ensures follow { PlacesFollow }
    ensures more { OneMoreIsTold }
    ensures can { OneMoreCanBeTold }
    ensures texts { TextsAreSaid }
{}
