//! Lanes: each takes what one session hands in, and brings it to its end.
ghost use Rattle.std.specs.Prelude.{◌≡◌, ℕ, [], None, IfSome, IfNone};
ghost use mathlib.Core.List.{IsPrefix};
ghost use Rattle.boxcar.specs.Table.{Shows};
ghost use Rattle.occ_model.specs.Event.{Item as PlainItem};
ghost use Rattle.occ_queue.specs.Items.{item_of, number_of};
ghost use Rattle.occ_queue.specs.Lanes.{taking};
ghost use Rattle.occ_history.specs.History.{Lane as LaneParty};
ghost use Rattle.occ_store.specs.Names.{lane_of};
ghost use Rattle.occ_store.specs.Lanes.{Nothing, Kept, number_left, token_left, unused, is_closed, is_open, keeps_alone};

use crate::names::{FrontOf, Name};
use crate::unfinished::Left;
use occ_case::{CaseFile, Judged, judge};
use occ_queue::{Item, Receiver};
use std::alloc::Allocator;
use std::marker::Model;
use std::sync::Wait;
use std::sync::ledger::Share;

/// The lane of a session: it takes what the session hands in, one item after another, and brings each to its end. Between two calls it
/// keeps what it has not ended.
#[derive(Drop)]
pub struct Lane<N: Name, A: Allocator + Copy> {
    pub(crate) session: usize,
    pub(crate) receiver: Receiver<A>,
    pub(crate) left: Left<A>,
    pub(crate) judged: u64,
    pub(crate) entered: u64,
    pub(crate) files: bool,
    pub(crate) serial: bool,
    pub(crate) front: FrontOf<N>,
    pub(crate) share: Share<N>,
}

impl<N: Name, A: Allocator + Copy> Model for Lane<N, A> {
    ghost use Rattle.std.specs.Prelude.{◌≡◌, ◌+◌, ◌≤◌, ℕ, Some, IfSome};
    ghost use Rattle.std.specs.Coded.{codes};
    ghost use Rattle.boxcar.specs.Table.{where_coded, Shows};
    ghost use Rattle.occ_history.specs.History.{Lane};
    ghost use Rattle.occ_store.specs.Names.{lane_of};
    ghost use Rattle.occ_store.specs.Lanes.{LaneView, left_of, token_left, open_rows, AddsUp};

    ghost Value = { LaneView };

    ghost coded = { Prim.hlevel (codes, where_coded) };

    ghost view = { λ l. record { session = l.session; receiver = l.receiver; left = left_of l.left; judged = l.judged; entered = l.entered; files = l.files; serial = l.serial; front = l.front } };

    ghost invariant = { λ l. (l.receiver.lane ≡ lane_of N.named l.session)
        × (l.front.party ≡ Lane l.session)
        × IfSome (token_left (left_of l.left)) (Shows N.named.file)
        × (l.share.parts ≡ 1)
        × (l.share.amount ≡ l.entered)
        × (l.judged + open_rows (left_of l.left) ≤ l.entered)
        × AddsUp l.receiver.taken l.entered (left_of l.left) };
}

impl<N: Name, A: Allocator + Copy> Lane<N, A> {
    /// The number of its session.
    pub fn session(&self) -> usize
        ensures { result ≡ self.now.session }
    {
        self.session
    }

    /// The number of what it has not ended; none where nothing is left.
    pub fn number(&self) -> Option<u64>
        ensures { result ≡ number_left self.now.left }
    {
        match &self.left {
            Left::Nothing => None,
            Left::Kept(item) => Some(item.number()),
            Left::Open { number, .. } => Some(*number),
            Left::Decided { number, .. } => Some(*number),
        }
    }

    /// How many of its decisions came by a verdict that was reached outside the lock.
    pub fn judged(&self) -> u64
        ensures { result ≡ self.now.judged }
    {
        self.judged
    }

    /// From now on the cases of its requests are filed, or not. They are at first; a verdict on a case that is not filed is reached
    /// within the lock, and the file keeps every case as long as the store lasts.
    pub fn set_files(&mut self, files: bool)
        ensures { self.new ≡ record self.old { files = files } }
    {
        self.files = files;
    }

    /// From now on a request ends serially where no row is active, in one event in place of its entry, decision, writes and end, or not.
    /// It doesn't at first.
    pub fn set_serial(&mut self, serial: bool)
        ensures { self.new ≡ record self.old { serial = serial } }
    {
        self.serial = serial;
    }

    /// Whether its closing mark has entered: it was taken, and nothing is left.
    pub fn is_closed(&self) -> bool
        ensures { result ≡ is_closed self.now }
    {
        self.receiver.is_closed() && matches!(&self.left, Left::Nothing)
    }

    // Whether it has a row that is not decided.
    pub(crate) fn is_open(&self) -> bool
        ensures { result ≡ is_open self.now.left }
    {
        matches!(&self.left, Left::Open { .. })
    }

    // Whether it keeps operations that run alone.
    pub(crate) fn keeps_alone(&self) -> bool
        ensures { result ≡ keeps_alone self.now.left }
    {
        matches!(&self.left, Left::Kept(Item::Alone { .. }))
    }

    // Takes the next item of its session, and keeps it. It answers the number; none where none waits, as far as was heard.
    pub(crate) fn take<R: Wait>(&mut self, rt: &R) -> Option<u64>
        requires nothing { self.old.left ≡ Nothing }
        ensures some { IfSome result (λ number. (item : PlainItem) × (number ≡ number_of item) × (self.new ≡ record self.old { receiver = taking self.old.receiver item; left = Kept item })) }
        ensures none { IfNone result ((self.new ≡ self.old) × IsPrefix self.old.receiver.pushed self.old.receiver.taken) }
    {
        let item = self.receiver.take(rt)?;
        let number = item.number();
        self.left = Left::Kept(item);
        Some(number)
    }

    /// The verdict on the case of the row that it has entered, reached now and without the lock. None where it has none that is not
    /// decided, or its case was not filed.
    pub fn judge(&self, file: &CaseFile<A>) -> Option<Judged<A>>
        requires own_file { file.now ≡ N.named.file }
        ensures case { result ≡ token_left self.now.left }
        ensures own { IfSome result (Shows N.named.file) }
    {
        match &self.left {
            Left::Open {
                token: Some(token),
                ..
            } => Some(judge(file, token.again())),
            _ => None,
        }
    }
}

// The lane of a session out of which nothing was taken, with a part of the ledger.
pub(crate) fn unused_lane<N: Name, A: Allocator + Copy>(
    session: usize,
    receiver: Receiver<A>,
    front: FrontOf<N>,
    share: Share<N>,
) -> Lane<N, A>
    requires lane { receiver.lane ≡ lane_of N.named session }
    requires own { front.party ≡ LaneParty session }
    requires taken { receiver.taken ≡ [] }
    requires share { (share.parts ≡ 1) × (share.amount ≡ 0) }
    ensures { result ≡ unused session receiver front }
{
    Lane {
        session,
        receiver,
        left: Left::Nothing,
        judged: 0,
        entered: 0,
        files: true,
        serial: false,
        front,
        share,
    }
}
