//! What the rules of the answers to reads ask, K19, K20 and K23.

ghost use Rattle.std.specs.Prelude.{◌≡◌, ◌==◌, ◌&&◌, ◌||◌, not, Option, Some, None};
ghost use Rattle.ace_codes.specs.Responses.{passes_dirty, is_shared};
ghost use Rattle.ace_codes.specs.declared.state.LineState.{LineState};
ghost use Rattle.ace_event.specs.declared.header.Header.{Header};
ghost use Rattle.ace_model.specs.Trace.{implies};
ghost use Rattle.ace_tables.specs.EndStates.{ends_read};
ghost use Rattle.ace_model.specs.Kinds.{may_be_shared, is_read_not_shared_dirty, is_make_unique, takes_passed_data};
ghost use Rattle.ace_model.specs.Copies.{word_of};
ghost use Rattle.ace_model.specs.Transactions.{is_ace};
ghost use Rattle.ace_model.specs.ReadRules.{same_upper_bits};
ghost use Rattle.ace_lineck.specs.Kept.{reply_kept, fits_shared, is_shared_under};

use crate::grant::Grant;
use crate::kinds::{is_make_unique_kind, is_taker};
use ace_codes::{ArKind, LineState, is_shared, passes_dirty};
use ace_event::{Header, Line};
use ace_model::Transaction;
use ace_model::kinds::is_ace;
use ace_portck::Progress;
use ace_tables::end_read;

/// The reply of the granted read: memory, as long as it isn't settled.
#[inline(always)]
pub fn reply_kept(grant: &Option<Grant>, memory: &Line) -> Line
    ensures { result ≡ reply_kept grant.now memory.now }
{
    match grant {
        None => *memory,
        Some(g) => match g.reply {
            None => *memory,
            Some(line) => line,
        },
    }
}

/// The same, where it stands.
#[inline(always)]
pub fn reply_in<'a>(grant: &'a Option<Grant>, memory: &'a Line) -> &'a Line
    ensures { result.now ≡ reply_kept grant.now memory.now }
{
    match grant {
        None => memory,
        Some(g) => match &g.reply {
            None => memory,
            Some(line) => line,
        },
    }
}

/// Word k of a line, from 0; 0 where k is above 3.
#[inline(always)]
pub fn word_at(line: &Line, k: u8) -> u128
    ensures { result ≡ word_of line.now k }
{
    match line.words.get(usize::from(k)) {
        None => 0,
        Some(word) => *word,
    }
}

#[inline(always)]
fn may_be_shared(kind: ArKind) -> bool
    ensures { result ≡ may_be_shared kind }
{
    matches!(
        kind,
        ArKind::ReadOnce
            | ArKind::ReadShared
            | ArKind::ReadClean
            | ArKind::ReadNotSharedDirty
            | ArKind::CleanShared
    )
}

#[inline(always)]
fn is_read_not_shared_dirty(kind: ArKind) -> bool
    ensures { result ≡ is_read_not_shared_dirty kind }
{
    matches!(kind, ArKind::ReadNotSharedDirty)
}

/// An answer has IsShared, and the read is one that can be told.
#[inline(always)]
pub fn must_be_shared(header: &Header, shared: bool, x: &Transaction, kind: ArKind) -> bool
    ensures { result ≡ (is_ace header.now x.now.port && may_be_shared kind && shared) }
{
    shared && may_be_shared(kind) && is_ace(header, x.port)
}

/// A read of this kind can take passed data, beside an answer with IsShared or without: its
/// response may say PassDirty.
#[inline(always)]
pub fn can_take(kind: ArKind, shared: bool) -> bool
    ensures { result ≡ (takes_passed_data kind && not (is_read_not_shared_dirty kind && shared)) }
{
    is_taker(kind) && !(is_read_not_shared_dirty(kind) && shared)
}

/// The kind may have these upper bits, with an answer that has IsShared or without.
#[inline(always)]
pub fn fits_shared(header: &Header, shared: bool, resp: u8, x: &Transaction, kind: ArKind) -> bool
    ensures { result ≡ fits_shared header.now shared resp x.now kind }
{
    (!is_shared(resp) || may_be_shared(kind))
        && !(is_read_not_shared_dirty(kind) && passes_dirty(resp) && is_shared(resp))
        && (!must_be_shared(header, shared, x, kind) || is_shared(resp))
}

#[inline(always)]
pub fn same_upper_bits(resp: u8, first: u8) -> bool
    ensures { result ≡ same_upper_bits resp first }
{
    passes_dirty(resp) == passes_dirty(first) && is_shared(resp) == is_shared(first)
}

/// An answer under the grant has IsShared.
#[inline(always)]
pub fn is_shared_under(grant: &Option<Grant>) -> bool
    ensures { result ≡ is_shared_under grant.now }
{
    match grant {
        None => false,
        Some(g) => g.shared,
    }
}

/// The state is an end state of a read of this kind, at whose end its port holds `held` of its
/// line, and a MakeUnique has had its D.
#[inline(always)]
pub fn ends_as(kind: ArKind, held: LineState, failed: bool, st: LineState, x: &Progress) -> bool
    ensures { result ≡ (ends_read kind held (is_shared x.now.response)
        (passes_dirty x.now.response) failed st && implies (is_make_unique kind) x.now.stored) }
{
    let shared = is_shared(x.response);
    let pass = passes_dirty(x.response);
    end_read(kind, held, shared, pass, failed).has(st) && (!is_make_unique_kind(kind) || x.stored)
}
