//! Laws of programs of words that are selected for programs with frames.

ghost use Rattle.selection_runs.specs.Laws.{SelectedKeepsStamped, SelectedKeeps};

/// The run of the words keeps the run of the frames, with its stamps and without, as long as there is room.
pub fn selected_words_keep()
    ensures stamped { SelectedKeepsStamped }
    ensures plain { SelectedKeeps }
{}
