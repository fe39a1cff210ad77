// Laws of effects, apart from any call.
ghost use Rattle.std.specs.Prelude.{◌≡◌, ◌++◌, ◌∷◌, [], List};
ghost use Rattle.mrdt_model.specs.declared.time.Time.{Time as SpecTime};
ghost use Rattle.live_set.specs.declared.kept.Kept.{Kept as SpecKept};
ghost use Rattle.live_set.specs.Effects.{replacing, removing, adding, apart, live_after};

/// What an operation that has seen all leaves of what is live, by its effect.
pub fn effects_leave<V>()
    ensures replacing { (v : V) (t : SpecTime) (live : List (SpecKept V))
        → live_after (replacing v) t live ≡ record { time = t; payload = v } ∷ [] }
    ensures removing { (t : SpecTime) (live : List (SpecKept V)) → live_after removing t live ≡ [] }
    ensures adding { (v : V) (t : SpecTime) (live : List (SpecKept V))
        → live_after (adding v) t live ≡ live ++ record { time = t; payload = v } ∷ [] }
    ensures apart { (t : SpecTime) (live : List (SpecKept V)) → live_after apart t live ≡ live }
{}
