// Laws over the definitions: what the look-ups of a store answer. Each is the contract of a function with an empty
// body. Their premise, that no two entries are of the same labels and moment, is a clause of `Store::len`.
ghost use Rattle.srv_store.specs.StoreLaws.{NewestAreLatest, SelectedAreTheWindow};

/// The entries that are selected are those of the window, each once, by labels and then by moments.
pub fn selected_are_the_window()
    ensures { SelectedAreTheWindow }
{}

/// The newest entries are those of the window that aren't stale and that none of their labels exceeds in moment,
/// by labels.
pub fn newest_are_latest()
    ensures { NewestAreLatest }
{}
