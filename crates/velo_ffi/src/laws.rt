//! What holds of the pieces of a log, whoever asks for them.
ghost use Rattle.std.specs.Prelude.{◌≡◌, ◌≤◌, ◌++◌, ℕ, List, length};
ghost use Rattle.velo_events.specs.declared.config.Bounds.{Bounds};
ghost use Rattle.velo_events.specs.declared.event.Event.{Event};
ghost use Rattle.velo_logtext.specs.Text.{log_text};
ghost use Rattle.velo_ffi.specs.Pieces.{LeadToEnd, joined, piece};

/// The pieces of a log from its first event on, each from where the one before it ended, are the
/// text of the log once the last ends with it. A piece stays the same where the log grows.
pub fn pieces_make_the_log()
    ensures whole { (bounds : Bounds) (log : List Event) (ends : List ℕ) → LeadToEnd log 0 ends → joined bounds log 0 ends ≡ log_text bounds log }
    ensures stays { (bounds : Bounds) (log more : List Event) (from next : ℕ) → from ≤ next → next ≤ length log
        → piece bounds (log ++ more) from next ≡ piece bounds log from next }
{}
