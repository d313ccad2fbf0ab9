//! Ways of the run of items: from a state at some items to one at the items behind them, or at a label.
#![tactic(auto)]
