//! The law on which a certificate that is made rests. This function does no work: what it promises
//! is the law.

ghost use Rattle.std.specs.Prelude.{ℕ, ◌+◌, unwrap_or};
ghost use Rattle.std.specs.List.{AllByRecursion};
ghost use Rattle.ace_event.specs.Range.{FitsFields};
ghost use Rattle.ace_event.specs.declared.header.Header.{Header};
ghost use Rattle.ace_model.specs.Accepted.{IsAccepted};
ghost use Rattle.ace_model.specs.ReadsFollow.{FollowsAt};
ghost use Rattle.ace_model.specs.Trace.{Trace};
ghost use Rattle.ace_cert_make.specs.Places.{place_given};

/// In an accepted trace all reads follow the stores at the places that they get as the trace grows.
pub fn given_places_follow()
    ensures { (h : Header) (past : Trace) → IsAccepted h past → AllByRecursion FitsFields past
        → FollowsAt past (λ n. unwrap_or (place_given past (n + 1)) 0) }
{}
