//! Laws of the model. These functions do nothing: each one's contract is a law over all worlds and all events.
ghost use Rattle.std.specs.Prelude.{ℕ, List};
ghost use Rattle.tag_layout.specs.Layout.{Layout};
ghost use Rattle.tag_model.specs.declared.event.Event.{Event};
ghost use Rattle.tag_model.specs.World.{World};
ghost use Rattle.tag_model.specs.Laws.{RunsBalance, RunsJoin, HeldTagsStay};

/// After every run from an opened world each tag won was given back, is held or is posted.
pub fn runs_balance()
    ensures { RunsBalance }
{}

/// A run of two lists is a run of the second from where the first leads, faults included.
pub fn runs_join()
    ensures { (l : Layout) (callers : ℕ) (w : World) (first second : List Event) → RunsJoin l callers w first second }
{}

/// No event by one caller moves a tag that another holds.
pub fn held_tags_stay()
    ensures { HeldTagsStay }
{}
