//! What holds of texts and logs, whoever reads or writes them.
ghost use Rattle.std.specs.Prelude.{◌≡◌, ℕ, Bool, List};
ghost use Rattle.velo_events.specs.declared.config.Bounds.{Bounds};
ghost use Rattle.velo_events.specs.declared.event.Event.{Event};
ghost use Rattle.velo_logtext.specs.Text.{IsLogText, IsTextIn};
ghost use Rattle.velo_logtext.specs.Finding.{Finding, Stands};

/// A text is that of one pair of bounds and events, and each pair has one text of a version.
pub fn one_text()
    ensures pair { (bytes : List ℕ) (b c : Bounds) (es fs : List Event) → IsLogText bytes b es →
        IsLogText bytes c fs → (b ≡ c) × (es ≡ fs) }
    ensures text { (bytes others : List ℕ) (shares : Bool) (b : Bounds) (es : List Event) →
        IsTextIn bytes shares b es → IsTextIn others shares b es → bytes ≡ others }
{}

/// One thing stands in an input: the text of a log, or one wrong line.
pub fn one_finding()
    ensures { (limit : ℕ) (bytes : List ℕ) (f g : Finding) → Stands limit bytes f → Stands limit bytes g → f ≡ g }
{}
