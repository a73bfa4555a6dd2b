// A bounded channel into which each item is sent once at most.

ghost use Rattle.std.specs.Prelude.{◌≡◌, ◌<◌, ◌++◌, ◌∷◌, [], IfOk, OnOk, OnErr, map, replicate};
ghost use Rattle.host.specs.Once.{AreAmong, IsGot, IsNew, times};

use crate::origin::Origin;
use crossbeam_channel::protocol::{Join, Lesson, Outcome, Protocol, Split};
use crossbeam_channel::{Pass, RuledReceiver, RuledSender, TryRecvError, bounded_with};
use std::alloc::{AllocError, Global};
use std::collections::LinkedList;
use std::marker::{Model, PhantomData};
use std::sync::Wait;

/// What has a number. The key of a channel of such items is told as one of a channel of jobs, which no other is told as.
pub trait Numbered {
    ghost use Rattle.std.specs.Prelude.{◌≡◌, ℕ};
    ghost use Rattle.atomic_table.specs.declared.badge.Badge.{Badge};
    ghost use Rattle.crossbeam_channel.specs.declared.flavors.array.Key.{Key};
    ghost use Rattle.device.specs.declared.jobs.Job.{Job};

    ghost number: { Self → ℕ };

    ghost told: { Badge (Key Self) → Badge (Key Job) };

    ghost one: { (a b : Badge (Key Self)) → told a ≡ told b → a ≡ b };
}

// What is known at an end of the channel: at the sending end all that was ever sent, at a receiving end what it
// received. Each end has a `Pass` that keeps this for the contracts; no value of it is made.
pub struct Known<T> {
    pub sends: bool,
    pub sent: LinkedList<T>,
    pub got: LinkedList<T>,
}

// The rule: no number is sent twice, and what was sent was received, once, or is in the channel.
pub struct EachOnce;

impl<T: Numbered> Protocol<T, Known<T>> for EachOnce {
    ghost use Rattle.std.specs.Prelude.{[]};
    ghost use Rattle.host.specs.Once.{IsEachOnce, sending};

    ghost holds = { IsEachOnce T.number };

    ghost first = { sending [] };
}

// What a send does: the sending end knows one item more.
struct Sends;

impl<T: Numbered> Outcome<T, Known<T>> for Sends {
    ghost use Rattle.std.specs.Prelude.{◌≡◌, ◌++◌, ◌∷◌, []};
    ghost use Rattle.host.specs.Once.{sending};

    ghost then = { λ v x w. w ≡ sending (v.sent ++ x ∷ []) };
}

impl<T> Lesson<T, Known<T>> for Sends {
    ghost use Rattle.std.specs.Prelude.{⊤};

    ghost fact = { λ v items. ⊤ };
}

// What a receipt does: the receiving end knows one item more, whose number it did not know before.
struct Receives;

impl<T: Numbered> Outcome<T, Known<T>> for Receives {
    ghost use Rattle.host.specs.Once.{IsReceipt};

    ghost then = { IsReceipt T.number };
}

impl<T> Lesson<T, Known<T>> for Receives {
    ghost use Rattle.std.specs.Prelude.{⊤};

    ghost fact = { λ v items. ⊤ };
}

// The sending end's pass, from which one for a receiving end is made that knows nothing yet.
struct ForReceiving;

impl<T> Split<Known<T>> for ForReceiving {
    ghost use Rattle.std.specs.Prelude.{[]};
    ghost use Rattle.host.specs.Once.{receiving};

    ghost left = { λ v. v };

    ghost right = { λ v. receiving [] };
}

// A receiving end's pass is shown to the sending end, and is its own again.
struct Shows;

impl<T> Join<Known<T>> for Shows {
    ghost use Rattle.std.specs.Prelude.{[]};
    ghost use Rattle.host.specs.Once.{receiving, shown};

    ghost both = { shown };

    ghost spent = { receiving [] };
}

impl<T> Split<Known<T>> for Shows {
    ghost use Rattle.host.specs.Once.{receiving, sending};

    ghost left = { λ v. sending v.sent };

    ghost right = { λ v. receiving v.got };
}

// While it is shown, what the receiving end received is among what was sent.
impl<T> Lesson<T, Known<T>> for Shows {
    ghost use Rattle.host.specs.Once.{AreAmong};

    ghost fact = { λ v items. AreAmong v.got v.sent };
}

/// The ends of a channel, before they are given to those who send and receive.
#[derive(Drop)]
pub struct Ends<T: Numbered + Drop> {
    sender: RuledSender<T, Known<T>, EachOnce>,
    receiver: RuledReceiver<T, Known<T>, EachOnce>,
    pass: Pass<T, Known<T>>,
}

/// The sending end of the channel that the parameter `B` names. Contracts see it as all that was ever sent.
pub struct Outbox<T: Numbered + Drop, B: Origin> {
    sender: RuledSender<T, Known<T>, EachOnce>,
    pass: Pass<T, Known<T>>,
    of: PhantomData<B>,
}

impl<T: Numbered + Drop, B: Origin> Model for Outbox<T, B> {
    ghost use Rattle.std.specs.Prelude.{◌≡◌, List};
    ghost use Rattle.crossbeam_channel.specs.Claims as claims;
    ghost use Rattle.crossbeam_channel.specs.Ends.{sends_on};

    ghost Value = { List T };

    ghost use Rattle.host.specs.Once.{sending};

    ghost view = { λ s. (claims.view s.pass).sent };

    ghost invariant = { λ s. claims.IsSeatAt (sends_on s.sender) s.pass × (claims.view s.pass ≡ sending (claims.view s.pass).sent) × (s.pass.table_id ≡ B.table) × (T.told s.pass.me.0.of ≡ B.key) };
}

impl<T: Numbered + Drop, B: Origin> Drop for Outbox<T, B> {
    fn drop(self) {
        let Outbox {
            sender: _,
            pass: _,
            of: _,
        } = self;
    }
}

/// A receiving end of the same channel. Contracts see it as what it received.
pub struct Inbox<T: Numbered + Drop, B: Origin> {
    receiver: RuledReceiver<T, Known<T>, EachOnce>,
    pass: Pass<T, Known<T>>,
    of: PhantomData<B>,
}

impl<T: Numbered + Drop, B: Origin> Model for Inbox<T, B> {
    ghost use Rattle.std.specs.Prelude.{◌≡◌, List};
    ghost use Rattle.crossbeam_channel.specs.Claims as claims;
    ghost use Rattle.crossbeam_channel.specs.Ends.{receives_on};

    ghost Value = { List T };

    ghost use Rattle.host.specs.Once.{receiving};

    ghost view = { λ s. (claims.view s.pass).got };

    ghost invariant = { λ s. claims.IsSeatAt (receives_on s.receiver) s.pass × (claims.view s.pass ≡ receiving (claims.view s.pass).got) × (s.pass.table_id ≡ B.table) × (T.told s.pass.me.0.of ≡ B.key) };
}

impl<T: Numbered + Drop, B: Origin> Drop for Inbox<T, B> {
    fn drop(self) {
        let Inbox {
            receiver: _,
            pass: _,
            of: _,
        } = self;
    }
}

/// What is received.
#[derive(Drop)]
pub enum Received<T> {
    Item(T),
    /// At one moment the channel had nothing.
    Nothing,
    /// The sending end is gone, and the channel has nothing.
    Closed,
}

impl<T: Numbered + Drop, B: Origin> Outbox<T, B> {
    /// Sends an item whose number was not sent before. It comes back where the channel is full, or no receiving end
    /// is left.
    pub fn send<R: Wait>(&mut self, rt: &R, item: T) -> Result<(), T>
        requires { times (T.number item) (map T.number self.old) ≡ 0 }
        ensures sent { OnOk result (self.new ≡ self.old ++ item ∷ []) }
        ensures unchanged { OnErr result (self.new ≡ self.old) }
    {
        self.sender
            .try_send_as::<Sends, R>(rt, &mut self.pass, item)
            .map_err(|error| error.into_inner())
    }
}

impl<T: Numbered + Drop, B: Origin> Inbox<T, B> {
    /// Takes the item at the front, whose number this end did not receive before.
    pub fn receive<R: Wait>(&mut self, rt: &R) -> Received<T>
        ensures { IsGot T.number self.old result self.new }
    {
        match self.receiver.try_recv_as::<Receives, R>(rt, &mut self.pass) {
            Ok(item) => Received::Item(item),
            Err(TryRecvError::Empty) => Received::Nothing,
            Err(TryRecvError::Disconnected) => Received::Closed,
        }
    }

    /// What this end received was sent. It comes back as it was.
    pub fn was_sent(self, outbox: &mut Outbox<T, B>) -> Inbox<T, B>
        ensures inbox { result ≡ self }
        ensures same { outbox.new ≡ outbox.old }
        ensures sent { AreAmong self outbox.old }
    {
        let Inbox { receiver, pass, of } = self;
        outbox.sender.absorb::<Shows>(&mut outbox.pass, pass);
        outbox.sender.learn_as::<Shows>(&mut outbox.pass);
        let pass = outbox.sender.another::<Shows>(&mut outbox.pass);
        Inbox { receiver, pass, of }
    }
}

/// The ends of a channel with room for `room` items. The error comes for want of memory.
pub fn new_ends<T: Numbered + Drop>(alloc: Global, room: usize) -> Result<Ends<T>, AllocError>
    requires { 0 < room }
    ensures { IfOk result IsNew }
{
    let (sender, receiver, pass) = bounded_with::<T, Known<T>, EachOnce, Global>(alloc, room)?;
    Ok(Ends {
        sender,
        receiver,
        pass,
    })
}

/// The sending end and `count` receiving ends of the channel that the parameter `B` names. The error comes for want of
/// memory.
pub fn each_once<T: Numbered + Drop, B: Origin>(
    alloc: Global,
    ends: Ends<T>,
    count: usize,
) -> Result<(Outbox<T, B>, Vec<Inbox<T, B>>), AllocError>
    requires new { IsNew ends }
    requires named { (ends.pass.table_id ≡ B.table) × (T.told ends.pass.me.0.of ≡ B.key) }
    ensures sent { IfOk result (λ r. r.0 ≡ []) }
    ensures ends { IfOk result (λ r. r.1.items ≡ replicate count []) }
{
    let Ends {
        sender,
        receiver,
        mut pass,
    } = ends;
    let mut inboxes = Vec::new(alloc);
    for _ in 0..count {
        let own = sender.another::<ForReceiving>(&mut pass);
        inboxes.push(Inbox {
            receiver: receiver.try_clone()?,
            pass: own,
            of: PhantomData,
        })?;
    }
    let outbox = Outbox {
        sender,
        pass,
        of: PhantomData,
    };
    Ok((outbox, inboxes))
}
