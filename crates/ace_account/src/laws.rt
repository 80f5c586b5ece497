//! Facts about accounts, as contracts of functions that do nothing.

ghost use Rattle.std.specs.Prelude.{List, ℕ};
ghost use Rattle.std.specs.List.{AllByRecursion};
ghost use Rattle.ace_event.specs.Range.{FitsFields};
ghost use Rattle.ace_event.specs.declared.header.Header.{Header};
ghost use Rattle.ace_model.specs.Accepted.{IsAccepted};
ghost use Rattle.ace_model.specs.Trace.{Trace};
ghost use Rattle.ace_account.specs.Accounts.{IsAccount};
ghost use Rattle.ace_account.specs.declared.listener.Account.{Account};

/// Each accepted trace of events that a program can hold has each account: as its reads follow one
/// order of its stores, it has a certificate.
pub fn each_accepted_trace_has_an_account()
    ensures { (account : Account) (h : Header) (past : Trace)
        → IsAccepted h past → AllByRecursion FitsFields past
        → (text : List ℕ) × IsAccount account h past text }
{}
