//! Laws of forms that are in the relations of the passes, as contracts of functions that do nothing else.

ghost use Rattle.chain_laws.specs.Laws.{SelectedIsKept, EmittedIsKept, PassedKeepsMeaning};

use lap_entries::laws::emitted_items_keep;
use layout_laws::laid_out_is_on_heap;
use layout_relation::laid_out_is_small;
use passes_keep::laws::passes_keep_meaning;
use selection_runs::laws::selected_words_keep;
use trace_regs::laws::homes_keep_meaning;

/// Words that are selected for whole frames, which are small and plain, keep them in the room of any sizes.
pub fn selection_is_kept()
    ensures { SelectedIsKept }
{
    selected_words_keep();
}

/// Items that are emitted for words with homes outside the stack keep them at any sizes.
pub fn emission_is_kept()
    ensures { EmittedIsKept }
{
    emitted_items_keep();
}

/// Where each form is in the relation of its pass to the form before it, the image that is made of the items keeps the meaning of the unit
/// with every LAMBDA counted as escaping, in the room of any sizes.
pub fn passed_keeps_meaning()
    ensures { PassedKeepsMeaning }
{
    selection_is_kept();
    emission_is_kept();
    laid_out_is_small();
    laid_out_is_on_heap();
    homes_keep_meaning();
    passes_keep_meaning();
}
