use source_state::control::Pending;

/// How a statement is left.
#[derive(Drop)]
pub enum Exit {
    /// At its end.
    End,
    /// By a break.
    Break,
    /// By a continue.
    Next,
    /// By what ends the turn.
    Ends(Pending),
}
