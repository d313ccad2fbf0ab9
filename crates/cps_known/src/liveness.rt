// The variables that are free in each term.
use t_base::Vars;

/// The variables that are free in the term at each place: each once, the `k` of a Join or of a procedure being none of them. Where a
/// term isn't reached there are none.
#[derive(Drop)]
pub struct Live {
    pub at: Vec<Vars>,
}
